// One worker for each seat of a table that they share, from its making to its end.
ghost use Rattle.std.specs.Prelude.{◌≡◌, ◌<◌, ◌≤◌, ℕ, [], All, IfOk, None, length, slice_index_or};
ghost use Rattle.wfe_table.specs.rule.Views.{seat_of};
ghost use Rattle.wfe_table.specs.Public.{new_seat, new_seats};
ghost use Rattle.wfe_table.specs.Closing.{closing_of};
ghost use Rattle.wfe_server.specs.Comes.{Comes};
ghost use Rattle.wfe_server_lines.specs.Scripted.{lists_in};
ghost use Rattle.wfe_server_lines.specs.Fitting.{AllBegin};
ghost use Rattle.wfe_server.specs.Parted.{IsOutcome, IsParted, IsReady};
ghost use Rattle.wfe_trace.specs.words.Config.{bad_field};

use crate::Gate;
use crate::worker::{Worked, work};
use std::alloc::Global;
use std::thread;
use std::thread::Threads;
use wfe_core::{Call, Config, Event, NoMemory};
use wfe_table::{Closed, Seat, Shared};

/// What the workers of a run made: the events of each seat's calls, and the table that they left.
#[derive(Drop)]
pub struct RunRecord {
    /// By seat, for each call in order: that it began, what is known of it, and that it ended.
    pub seats: Vec<Vec<Event>>,
    pub closed: Closed,
}

// Each seat's script, made by a worker of its own. Where no thread can be had the caller does the work.
fn work_all<R: Threads + Sync, G: Gate>(
    rt: &R,
    alloc: Global,
    shared: &Shared,
    seats: Vec<Seat>,
    scripts: &[Vec<Call>],
    gate: &G,
) -> Result<Vec<Result<Worked, NoMemory>>, NoMemory>
    requires seats { seats.items ≡ new_seats shared.now }
    requires ready { All (IsReady shared.now scripts.now) seats.items }
    requires scripts { length scripts.now ≡ shared.now.layout.config.seats }
    ensures count { IfOk result (λ all. length all.items ≡ length scripts.now) }
    ensures each { IfOk result (λ all. (n : ℕ) (d : _) → n < length scripts.now → IsOutcome shared.now (new_seat shared.now n) (slice_index_or (lists_in scripts.now) n []) (slice_index_or all.items n d)) }
{
    let done = thread::map_vec(
        rt,
        seats,
        &|seat: Seat| -> Result<Worked, NoMemory>
            requires { IsReady shared.now scripts.now seat }
            ensures { IsOutcome shared.entry.now seat (slice_index_or (lists_in scripts.entry.now) (seat_of seat.track) []) result }
        {
            let script = &scripts[seat.number() as usize];
            work(alloc, shared, seat, script, gate)
        },
    );
    match done {
        Ok(all) => Ok(all),
        Err(_) => Err(NoMemory),
    }
}

// The seats of the workers and the events of each, where none wanted memory.
fn parted(
    alloc: Global,
    mut all: Vec<Result<Worked, NoMemory>>,
) -> Result<(Vec<Seat>, Vec<Vec<Event>>), NoMemory>
    ensures { IfOk result (λ r. IsParted all.items r.0.items r.1.items) }
{
    let mut seats = Vec::new(alloc);
    let mut events = Vec::new(alloc);
    all.as_mut_slice().reverse();
    while let Some(outcome) = all.pop() {
        let worked = outcome?;
        if seats.push(worked.seat).is_err() || events.push(worked.events).is_err() {
            return Err(NoMemory);
        }
    }
    Ok((seats, events))
}

/// Makes the calls of each script with a seat of its own, on one table of this setting, each seat's
/// by a worker. The calls must be some that may begin: by none of them does a seat leave, or take over
/// what another has left, the indexes that they name are from 2 on and the table has them, and a copy
/// goes upwards. Each call is told to the gate before it and after it.
pub fn run_threads<R: Threads + Sync, G: Gate>(
    rt: &R,
    alloc: Global,
    config: Config,
    scripts: Vec<Vec<Call>>,
    gate: &G,
) -> Result<RunRecord, NoMemory>
    requires config { bad_field config ≡ None }
    requires scripts { length scripts.items ≡ config.seats }
    requires fits { AllBegin config (lists_in scripts.items) }
    ensures comes { IfOk result (λ r. Comes config (lists_in scripts.items) (lists_in r.seats.items) (closing_of r.closed)) }
    ensures fits { IfOk result (λ r. All (λ row. length row.pairs.items ≤ config.pairs) r.closed.buckets.items) }
{
    let Ok((shared, seats)) = Shared::new(alloc, config) else {
        return Err(NoMemory);
    };
    let all = work_all(rt, alloc, &shared, seats, &scripts, gate)?;
    let (seats, events) = parted(alloc, all)?;
    match shared.close(alloc, seats) {
        Ok(closed) => Ok(RunRecord {
            seats: events,
            closed,
        }),
        Err(_) => Err(NoMemory),
    }
}
