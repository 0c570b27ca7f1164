//! A first program on the table that threads share: two threads count one key up, and say by the queue how often.
#![tactic(auto)]

ghost use Rattle.std.specs.Prelude.{All, IfOk};
ghost use Rattle.wfe_table.specs.Public.{IsOf};

use anyhow::Result;
use std::thread;
use std::thread::Threads;
use wfe_table::{PutIfRefusal, SchemeKind, Seat, Shared, usual};

const KEY: u64 = 7;

// Counts the key up a thousand times, by a put at the version that it has read: where the other thread's put came
// first, it reads again.
fn count_up(shared: &Shared, seat: &mut Seat) -> Result<()>
    requires of { IsOf seat.old shared.now }
    ensures of { IsOf seat.new shared.now }
{
    let mut count = 0u64;
    for _turn in 0..u64::MAX {
        if count == 1_000 {
            break;
        }
        let got = shared.get(seat, KEY);
        let next = got.value.unwrap_or(0).saturating_add(1);
        match shared.put_if(seat, KEY, next, got.version) {
            Err(PutIfRefusal::Stale { .. }) => {}
            Err(refusal) => return Err(refusal.into()),
            Ok(_) => count = count.saturating_add(1),
        }
    }
    shared.enqueue(seat, count)?;
    Ok(())
}

// Each seat goes to a thread, and comes back once its calls are made.
fn work<R: Threads + Sync + Eprint>(rt: &R, shared: &Shared, seats: Vec<Seat>) -> Result<Vec<Seat>>
    requires of { All (λ seat. IsOf seat shared.now) seats.items }
    ensures of { IfOk result (λ seats. All (λ seat. IsOf seat shared.now) seats.items) }
{
    let seats = thread::map_vec(
        rt,
        seats,
        &|mut seat: Seat| -> Seat
            requires { IsOf seat shared.now }
            ensures { IsOf result shared.entry.now }
        {
            if let Err(refusal) = count_up(shared, &mut seat) {
                let _ = eprintln!(rt; "{refusal}");
            }
            seat
        },
    )?;
    Ok(seats)
}

fn main(rt: HostRuntime) -> Result<()> {
    let alloc = rt.alloc();
    let (shared, seats) = Shared::new(alloc, usual(SchemeKind::Wfe, 2, 1))?;
    let seats = work(&rt, &shared, seats)?;
    let closed = shared.close(alloc, seats)?;
    for bucket in &closed.buckets {
        println!(rt; "at version {}: {:?}", bucket.version, bucket.pairs)?;
    }
    println!(rt; "queued: {:?}", closed.queue)?;
    Ok(())
}
