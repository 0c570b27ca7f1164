// Threads count a key up, each by puts at the version that it has read; and what the closed table shows is how often they have.
ghost use Rattle.std.specs.Prelude.{◌≡◌, ◌≤◌, ◌+◌, ◌<◌, ℕ, All, IfOk, IfSome, length, slice_index_or};
ghost use Rattle.wfe_table.specs.Public.{IsOf, new_seats};
ghost use Rattle.wfe_table.specs.rule.Views.{seat_of};
ghost use Rattle.wfe_uses.specs.Counting.{Counts, IsCounter, IsFresh, IsSummed, ShowsCount, counted_by, one_more};

use std::alloc::{AllocError, Global};
use std::thread;
use std::thread::Threads;
use wfe_table::{Closed, Config, PutIfRefusal, Seat, Shared};

/// What came of one attempt to count.
#[derive(Clone, Copy)]
pub(crate) enum Attempt {
    Counted,
    /// Another thread came between.
    Again,
    Refused,
}

impl Attempt {
    // How many counts it was.
    fn counts(self) -> u64
        ensures counts { result ≡ counted_by self }
        ensures most { result ≤ 1 }
    {
        match self {
            Attempt::Counted => 1,
            Attempt::Again | Attempt::Refused => 0,
        }
    }

    fn is_refused(self) -> bool {
        match self {
            Attempt::Refused => true,
            Attempt::Counted | Attempt::Again => false,
        }
    }
}

/// A seat, and how often its thread has counted.
#[derive(Drop)]
pub(crate) struct Counter {
    pub(crate) seat: Seat,
    pub(crate) counts: u64,
}

// One more than was found, where a key without a value stands for 0; and none where that is too great.
fn next_of(found: Option<u64>) -> Option<u64>
    ensures { IfSome result (λ next. next ≡ one_more found) }
{
    match found {
        None => Some(1),
        Some(value) => value.checked_add(1),
    }
}

// Reads the key, and puts one more at the version that was read.
fn count_once(shared: &Shared, seat: &mut Seat, key: u64) -> Attempt
    requires of { IsOf seat.old shared.now }
    ensures of { IsOf seat.new shared.now }
    ensures counts { (times : ℕ) → Counts key seat.old.track.local.log times → Counts key seat.new.track.local.log (times + counted_by result) }
    ensures number { seat_of seat.new.track ≡ seat_of seat.old.track }
{
    let got = shared.get(seat, key);
    let Some(next) = next_of(got.value) else {
        return Attempt::Refused;
    };
    match shared.put_if(seat, key, next, got.version) {
        Ok(_done) => Attempt::Counted,
        Err(PutIfRefusal::Stale { .. }) => Attempt::Again,
        Err(_) => Attempt::Refused,
    }
}

// Counts the key up so often, or until a put is refused.
fn count_up(shared: &Shared, mut seat: Seat, key: u64, times: u64) -> Counter
    requires fresh { IsFresh shared.now seat }
    ensures { IsCounter shared.now key (seat_of seat.track) result }
{
    let mut counts = 0u64;
    let mut last = Attempt::Again;
    for _turn in 0..u64::MAX {
        if counts == times || last.is_refused() {
            break;
        }
        last = count_once(shared, &mut seat, key);
        counts += last.counts();
    }
    Counter { seat, counts }
}

// Each seat counts on a thread of its own.
fn count_all<R: Threads + Sync>(
    rt: &R,
    shared: &Shared,
    seats: Vec<Seat>,
    key: u64,
    times: u64,
) -> Result<Vec<Counter>, AllocError>
    requires seats { seats.items ≡ new_seats shared.now }
    requires fresh { All (IsFresh shared.now) seats.items }
    ensures len { IfOk result (λ all. length all.items ≡ shared.now.layout.config.seats) }
    ensures each { IfOk result (λ all. (n : ℕ) (d : _) → n < shared.now.layout.config.seats → IsCounter shared.now key n (slice_index_or all.items n d)) }
{
    let done = thread::map_vec(
        rt,
        seats,
        &move |seat: Seat| -> Counter
            requires { IsFresh shared.now seat }
            ensures { IsCounter shared.entry.now key (seat_of seat.track) result }
        { count_up(shared, seat, key, times) },
    );
    match done {
        Ok(all) => Ok(all),
        Err(error) => Err(error),
    }
}

// The seats, and the sum of what they counted, unless that is too great or memory runs out.
fn summed(alloc: Global, mut all: Vec<Counter>) -> Option<(Vec<Seat>, u64)>
    ensures { IfSome result (λ r. IsSummed all.items r.0.items r.1) }
{
    let mut seats = Vec::new(alloc);
    let mut total = 0u64;
    all.as_mut_slice().reverse();
    while let Some(counter) = all.pop() {
        total = total.checked_add(counter.counts)?;
        if seats.push(counter.seat).is_err() {
            return None;
        }
    }
    Some((seats, total))
}

/// Counts a key up with as many threads as the setting has seats, each so often unless a put is refused, and closes the table: how often
/// they counted in all, and the table, which shows just that.
pub(crate) fn count<R: Threads + Sync>(
    rt: &R,
    alloc: Global,
    config: Config,
    key: u64,
    times: u64,
) -> Option<(u64, Closed)>
    ensures { IfSome result (λ r. ShowsCount key r.1 r.0) }
{
    let Ok((shared, seats)) = Shared::new(alloc, config) else {
        return None;
    };
    let Ok(all) = count_all(rt, &shared, seats, key, times) else {
        return None;
    };
    let (seats, total) = summed(alloc, all)?;
    match shared.close(alloc, seats) {
        Ok(closed) => Some((total, closed)),
        Err(_) => None,
    }
}
