// Threads hand values on by the queue. Each value that is queued is taken by one thread, or left.
ghost use Rattle.std.specs.Prelude.{◌≡◌, ◌<◌, ◌++◌, ◌∷◌, [], All, IfOk, OnOk, ℕ, length, slice_index_or};
ghost use Rattle.wfe_table.specs.Public.{IsOf, new_seats};
ghost use Rattle.wfe_table.specs.rule.Views.{seat_of};
ghost use Rattle.wfe_uses.specs.Counting.{IsFresh};
ghost use Rattle.wfe_uses.specs.Flowing.{Balances, IsHand, IsOutcome, IsParted, Moves};

use std::alloc::Global;
use std::thread;
use std::thread::Threads;
use wfe_table::{Closed, Config, NoMemory, Seat, Shared};

/// A seat, and the values that its thread has queued and taken, in its order.
#[derive(Drop)]
pub(crate) struct Hand {
    pub(crate) seat: Seat,
    pub(crate) sent: Vec<u64>,
    pub(crate) taken: Vec<u64>,
}

/// What all threads have queued and taken, each in its order, and the table that they left.
#[derive(Drop)]
pub(crate) struct Flow {
    pub(crate) sent: Vec<Vec<u64>>,
    pub(crate) taken: Vec<Vec<u64>>,
    pub(crate) closed: Closed,
}

// Adds a value at the end, unless memory runs out.
fn keep(values: &mut Vec<u64>, value: u64) -> Result<(), NoMemory>
    ensures { OnOk result (values.new.items ≡ values.old.items ++ value ∷ []) }
{
    match values.push(value) {
        Ok(()) => Ok(()),
        Err(_) => Err(NoMemory),
    }
}

// Queues a value, unless that is refused.
fn send(shared: &Shared, seat: &mut Seat, value: u64, sent: &mut Vec<u64>) -> Result<(), NoMemory>
    requires of { IsOf seat.old shared.now }
    ensures of { IsOf seat.new shared.now }
    ensures moves { OnOk result ((taken : _) → Moves seat.old.track.local.log sent.old.items taken → Moves seat.new.track.local.log sent.new.items taken) }
    ensures number { seat_of seat.new.track ≡ seat_of seat.old.track }
{
    match shared.enqueue(seat, value) {
        Ok(_queued) => keep(sent, value),
        Err(_refusal) => Ok(()),
    }
}

// Takes a value, where there is one.
fn receive(shared: &Shared, seat: &mut Seat, taken: &mut Vec<u64>) -> Result<(), NoMemory>
    requires of { IsOf seat.old shared.now }
    ensures of { IsOf seat.new shared.now }
    ensures moves { OnOk result ((sent : _) → Moves seat.old.track.local.log sent taken.old.items → Moves seat.new.track.local.log sent taken.new.items) }
    ensures number { seat_of seat.new.track ≡ seat_of seat.old.track }
{
    match shared.dequeue(seat) {
        Ok(item) => keep(taken, item.value),
        Err(_empty) => Ok(()),
    }
}

// Queues the value, where the seat's number is even; else tries to take one.
fn turn(
    shared: &Shared,
    seat: &mut Seat,
    value: u64,
    sent: &mut Vec<u64>,
    taken: &mut Vec<u64>,
) -> Result<(), NoMemory>
    requires of { IsOf seat.old shared.now }
    ensures of { IsOf seat.new shared.now }
    ensures moves { OnOk result (Moves seat.old.track.local.log sent.old.items taken.old.items → Moves seat.new.track.local.log sent.new.items taken.new.items) }
    ensures number { seat_of seat.new.track ≡ seat_of seat.old.track }
{
    if seat.number() % 2 == 0 {
        send(shared, seat, value, sent)
    } else {
        receive(shared, seat, taken)
    }
}

// Queues so many values from a first one on, where the seat's number is even; else tries as often to take one.
fn work(alloc: Global, shared: &Shared, mut seat: Seat, count: u64) -> Result<Hand, NoMemory>
    requires fresh { IsFresh shared.now seat }
    ensures { IsOutcome shared.now (seat_of seat.track) result }
{
    let mut sent = Vec::new(alloc);
    let mut taken = Vec::new(alloc);
    for value in 0..count {
        turn(shared, &mut seat, value, &mut sent, &mut taken)?;
    }
    Ok(Hand { seat, sent, taken })
}

// Each seat's work, by a thread of its own.
fn work_all<R: Threads + Sync>(
    rt: &R,
    alloc: Global,
    shared: &Shared,
    seats: Vec<Seat>,
    count: u64,
) -> Result<Vec<Result<Hand, NoMemory>>, NoMemory>
    requires seats { seats.items ≡ new_seats shared.now }
    requires fresh { All (IsFresh shared.now) seats.items }
    ensures len { IfOk result (λ all. length all.items ≡ shared.now.layout.config.seats) }
    ensures each { IfOk result (λ all. (n : ℕ) (d : _) → n < shared.now.layout.config.seats → IsOutcome shared.now n (slice_index_or all.items n d)) }
{
    let done = thread::map_vec(
        rt,
        seats,
        &move |seat: Seat| -> Result<Hand, NoMemory>
            requires { IsFresh shared.now seat }
            ensures { IsOutcome shared.entry.now (seat_of seat.track) result }
        { work(alloc, shared, seat, count) },
    );
    match done {
        Ok(all) => Ok(all),
        Err(_) => Err(NoMemory),
    }
}

/// What hands have, each part for itself.
#[derive(Drop)]
struct Parts {
    seats: Vec<Seat>,
    sent: Vec<Vec<u64>>,
    taken: Vec<Vec<u64>>,
}

// The hands taken apart, where none wanted memory.
fn parted(alloc: Global, mut all: Vec<Result<Hand, NoMemory>>) -> Result<Parts, NoMemory>
    ensures { IfOk result (λ r. IsParted all.items r.seats.items r.sent.items r.taken.items) }
{
    let mut seats = Vec::new(alloc);
    let mut sent = Vec::new(alloc);
    let mut taken = Vec::new(alloc);
    all.as_mut_slice().reverse();
    while let Some(outcome) = all.pop() {
        let hand = outcome?;
        if seats.push(hand.seat).is_err()
            || sent.push(hand.sent).is_err()
            || taken.push(hand.taken).is_err()
        {
            return Err(NoMemory);
        }
    }
    Ok(Parts { seats, sent, taken })
}

/// Hands values on with as many threads as the setting has seats, of which each second one takes what the others queue, and closes the
/// table: each value was taken, or is left in the table's queue, as often as it was queued.
pub(crate) fn hand_on<R: Threads + Sync>(
    rt: &R,
    alloc: Global,
    config: Config,
    count: u64,
) -> Result<Flow, NoMemory>
    ensures { IfOk result (λ flow. Balances flow.sent.items flow.taken.items flow.closed) }
{
    let Ok((shared, seats)) = Shared::new(alloc, config) else {
        return Err(NoMemory);
    };
    let all = work_all(rt, alloc, &shared, seats, count)?;
    let parts = parted(alloc, all)?;
    match shared.close(alloc, parts.seats) {
        Ok(closed) => Ok(Flow {
            sent: parts.sent,
            taken: parts.taken,
            closed,
        }),
        Err(_) => Err(NoMemory),
    }
}
