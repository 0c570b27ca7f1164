// Many threads make calls on one shared table, each so many: reads, or calls of all kinds, or puts, or pairs of an enqueue and a dequeue.
mod caller;

ghost use Rattle.std.specs.Prelude.{All, IfOk};
ghost use Rattle.wfe_table.specs.Public.{IsOf};

use crate::NO_MEMORY;
pub use caller::Work;
use caller::{Caller, Told};
use std::process::ExitCode;
use std::thread;
use std::thread::Threads;
use wfe_table::{Config, MakeError, SchemeKind, Seat, Shared};

/// Which calls are made.
#[derive(Clone, Copy)]
pub struct Calls {
    pub scheme: SchemeKind,
    pub work: Work,
    pub threads: u32,
    /// Of each thread.
    pub calls: u64,
}

fn setting(job: Calls) -> Config {
    Config {
        scheme: job.scheme,
        seats: job.threads,
        indexes: 3,
        slots: 4_096,
        buckets: 64,
        tries: 4,
        every: 8,
        last_era: 4_294_967_295,
        last_version: 281_474_976_710_656,
        pairs: 6,
    }
}

// Each seat goes to a thread. What comes back is what came of the calls of each.
fn work<R: Threads + Sync>(
    rt: &R,
    shared: &Shared,
    seats: Vec<Seat>,
    job: Calls,
) -> Result<Vec<Told>, &'static str>
    requires of { All (λ seat. IsOf seat shared.now) seats.items }
{
    let done = thread::map_vec(
        rt,
        seats,
        &|seat: Seat| -> Told
            requires { IsOf seat shared.now }
        {
            let mut caller = Caller::new(seat);
            caller.work(shared, job.work, job.calls)
        },
    );
    match done {
        Ok(told) => Ok(told),
        Err(_) => Err(NO_MEMORY),
    }
}

// Puts each key once.
fn fill(shared: &Shared, mut seats: Vec<Seat>) -> Result<Vec<Seat>, &'static str>
    requires of { All (λ seat. IsOf seat shared.now) seats.items }
    ensures of { IfOk result (λ seats. All (λ seat. IsOf seat shared.now) seats.items) }
{
    let Some(seat) = seats.pop() else {
        return Err(NO_MEMORY);
    };
    let mut caller = Caller::new(seat);
    caller.fill(shared);
    match seats.push(caller.seat) {
        Ok(()) => Ok(seats),
        Err(_) => Err(NO_MEMORY),
    }
}

// What came of all calls.
fn run<R: Threads + Sync + AllocGlobal>(rt: &R, job: Calls) -> Result<Told, &'static str> {
    let (shared, seats) = match Shared::new(rt.alloc(), setting(job)) {
        Ok(made) => made,
        Err(MakeError::BadConfig { .. }) => return Err("THREADS is from 1 to 64"),
        Err(MakeError::NoMemory) => return Err(NO_MEMORY),
    };
    let seats = fill(&shared, seats)?;
    let mut all = Told::nothing();
    for told in &work(rt, &shared, seats, job)? {
        all = all.with(*told);
    }
    Ok(all)
}

/// Makes the calls, and prints how many they were, how many were refused, and the sum of what the others answered.
pub fn print_calls<R: Threads + Sync + AllocGlobal + Print>(
    rt: &R,
    job: Calls,
) -> Result<ExitCode, &'static str> {
    let Told { refused, sum } = run(rt, job)?;
    let calls = u64::from(job.threads).saturating_mul(job.calls);
    match println!(rt; "{calls} calls, {refused} refused, sum {sum}") {
        Ok(()) => Ok(ExitCode::SUCCESS),
        Err(_) => Ok(ExitCode::FAILURE),
    }
}
