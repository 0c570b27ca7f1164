// Readers on one shared table tell their most steps, and writers their longest retire list, while these move its clock and change
// what is read without a rest. One more thread holds a row and moves the clock, and so helps readers, after a first sleep by which
// it can be told from the others; `bench/stalled.py` stops it amid its calls.
mod caller;

ghost use Rattle.std.specs.Prelude.{All};
ghost use Rattle.wfe_table.specs.Public.{IsOf};

use crate::NO_MEMORY;
use caller::{Caller, GET_STEPS, HOLD_STEPS, Most, PAIRS, TRIES};
use std::process::ExitCode;
use std::rt::Clock;
use std::thread;
use std::thread::Threads;
use wfe_table::{Config, MakeError, SchemeKind, Seat, Shared};

// The helper, two movers, and two readers.
const SEATS: u32 = 5;

// One bucket, so that readers and movers meet, and a scan after each retirement.
fn setting(scheme: SchemeKind) -> Config {
    Config {
        scheme,
        seats: SEATS,
        indexes: 3,
        slots: 64,
        buckets: 1,
        tries: TRIES,
        every: 1,
        last_era: 4_294_967_295,
        last_version: 281_474_976_710_656,
        pairs: PAIRS,
    }
}

// Each seat goes to a thread. What comes back is the most steps of its calls.
fn work<R: Threads + Clock + Sync>(
    rt: &R,
    shared: &Shared,
    seats: Vec<Seat>,
    seconds: u64,
) -> Result<Vec<Most>, &'static str>
    requires of { All (λ seat. IsOf seat shared.now) seats.items }
{
    let done = thread::map_vec(
        rt,
        seats,
        &|seat: Seat| -> Most
            requires { IsOf seat shared.now }
        {
            let mut caller = Caller::new(seat);
            caller.work(rt, shared, seconds)
        },
    );
    match done {
        Ok(most) => Ok(most),
        Err(_) => Err(NO_MEMORY),
    }
}

// The most steps of all seats.
fn run<R: Threads + Clock + Sync + AllocGlobal>(
    rt: &R,
    scheme: SchemeKind,
    seconds: u64,
) -> Result<Most, &'static str> {
    let (shared, seats) = match Shared::new(rt.alloc(), setting(scheme)) {
        Ok(made) => made,
        Err(MakeError::BadConfig { .. }) => return Err("the setting is refused"),
        Err(MakeError::NoMemory) => return Err(NO_MEMORY),
    };
    let mut most = Most::none();
    for other in &work(rt, &shared, seats, seconds)? {
        most = most.with(*other);
    }
    Ok(most)
}

// The lines of gets and of holds: how many, their most steps, and the bound on these, where there is one. Then the most rows that
// waited at a seat after a put.
fn print_most<R: Print>(rt: &R, scheme: SchemeKind, most: Most) -> ExitCode {
    let printed = if scheme == SchemeKind::Wfe {
        println!(rt;
            "get {} {} {GET_STEPS}\nhold {} {} {HOLD_STEPS}\nlist {}",
            most.gets, most.get_steps, most.holds, most.hold_steps, most.list
        )
    } else {
        println!(rt;
            "get {} {} none\nhold {} {} none\nlist {}",
            most.gets, most.get_steps, most.holds, most.hold_steps, most.list
        )
    };
    match printed {
        Ok(()) => ExitCode::SUCCESS,
        Err(_) => ExitCode::FAILURE,
    }
}

/// Lets the threads work for so many seconds, and prints their most steps and their longest list.
pub fn print_stalled<R: Threads + Clock + Sync + AllocGlobal + Print>(
    rt: &R,
    scheme: SchemeKind,
    seconds: u64,
) -> Result<ExitCode, &'static str> {
    let most = run(rt, scheme, seconds)?;
    Ok(print_most(rt, scheme, most))
}
