//! A program on the threads' table that makes each call (`worker.rt`). It is as a user of the library writes it. Each thread makes
//! fifteen thousand calls with a seat of its own, those aside that it had to repeat, and what is printed is the same in
//! whatever order the threads took their steps.
#![tactic(auto)]

mod boxes;
mod report;
mod tally;
mod worker;

ghost use Rattle.std.specs.Prelude.{◌<◌, All, IfOk, IfSome};
ghost use Rattle.wfe_table.specs.Public.{IsOf};
ghost use Rattle.wfe_threads.specs.Works.{WorksOn};

use boxes::Boxes;
use report::{Ended, print_report};
use std::alloc::Global;
use std::process::ExitCode;
use std::thread;
use std::thread::Threads;
use tally::{BUCKETS, Tally};
use wfe_table::{Config, SchemeKind, Seat, Shared};
use worker::{KEPT, PAIRS, TRIES, Worker};

const NO_MEMORY: &str = "memory ran out";

// Rows are fewer than those that the workers take in all, so that rows have to be used again.
fn setting(scheme: SchemeKind, seats: u32) -> Config {
    Config {
        scheme,
        seats,
        indexes: KEPT + 1,
        slots: 4_096,
        buckets: BUCKETS as u32,
        tries: TRIES,
        every: 8,
        last_era: 4_294_967_295,
        last_version: 281_474_976_710_656,
        pairs: PAIRS,
    }
}

// The worker of a seat.
fn worker_of(alloc: Global, shared: &Shared, seat: Seat, bounded: bool) -> Option<Worker>
    requires of { IsOf seat shared.now }
    requires indexes { 3 < shared.now.layout.config.indexes }
    ensures works { IfSome result (λ worker. WorksOn worker shared.now) }
{
    match Boxes::new(alloc, shared.layout().config().slots) {
        Ok(boxes) => Some(Worker::new(seat, boxes, bounded)),
        Err(_) => None,
    }
}

// A worker for each seat.
fn hire(
    alloc: Global,
    shared: &Shared,
    mut seats: Vec<Seat>,
    bounded: bool,
) -> Result<Vec<Worker>, &'static str>
    requires of { All (λ seat. IsOf seat shared.now) seats.items }
    requires indexes { 3 < shared.now.layout.config.indexes }
    ensures works { IfOk result (λ workers. All (λ worker. WorksOn worker shared.now) workers.items) }
{
    let mut workers = Vec::new(alloc);
    while let Some(seat) = seats.pop() {
        let Some(worker) = worker_of(alloc, shared, seat, bounded) else {
            return Err(NO_MEMORY);
        };
        if workers.push(worker).is_err() {
            return Err(NO_MEMORY);
        }
    }
    Ok(workers)
}

// Each worker goes to a thread, and comes back once all its calls are made.
fn work<R: Threads + Sync>(
    rt: &R,
    shared: &Shared,
    workers: Vec<Worker>,
) -> Result<Vec<Worker>, &'static str>
    requires works { All (λ worker. WorksOn worker shared.now) workers.items }
    ensures works { IfOk result (λ workers. All (λ worker. WorksOn worker shared.now) workers.items) }
{
    let done = thread::map_vec(
        rt,
        workers,
        &|mut worker: Worker| -> Worker
            requires { WorksOn worker shared.now }
            ensures { WorksOn result shared.entry.now }
        {
            worker.work(shared);
            worker
        },
    );
    match done {
        Ok(workers) => Ok(workers),
        Err(_) => Err(NO_MEMORY),
    }
}

// A worker's seat after a last scan, what it counted, and the rows that are retired still.
fn scan_last(shared: &Shared, worker: Worker) -> (Seat, Tally, u64)
    requires works { WorksOn worker shared.now }
    ensures of { IsOf result.0 shared.now }
{
    let Worker {
        mut seat,
        mut boxes,
        mut tally,
        ..
    } = worker;
    shared.scan(&mut seat);
    boxes.follow(&seat);
    tally.add_boxes(&boxes);
    let retired = seat.list().len() as u64;
    (seat, tally, retired)
}

// The seats, each after a last scan, with what all workers counted, and the rows that are retired still.
fn hand_back(
    alloc: Global,
    shared: &Shared,
    mut workers: Vec<Worker>,
) -> Result<(Vec<Seat>, Tally, u64), &'static str>
    requires works { All (λ worker. WorksOn worker shared.now) workers.items }
    ensures of { IfOk result (λ r. All (λ seat. IsOf seat shared.now) r.0.items) }
{
    let mut seats = Vec::new(alloc);
    let mut tally = Tally::none();
    let mut retired = 0u64;
    while let Some(worker) = workers.pop() {
        let (seat, counted, more) = scan_last(shared, worker);
        tally.add(&counted);
        retired = retired.saturating_add(more);
        if seats.push(seat).is_err() {
            return Err(NO_MEMORY);
        }
    }
    Ok((seats, tally, retired))
}

// A table with so many seats, which have an index for a version that is kept.
fn open(alloc: Global, scheme: SchemeKind, count: u32) -> Result<(Shared, Vec<Seat>), &'static str>
    ensures of { IfOk result (λ r. All (λ seat. IsOf seat r.0) r.1.items) }
    ensures indexes { IfOk result (λ r. 3 < r.0.layout.config.indexes) }
{
    let Ok((shared, seats)) = Shared::new(alloc, setting(scheme, count)) else {
        return Err("no table was made");
    };
    if shared.layout().config().indexes <= KEPT {
        return Err("the table has too few indexes");
    }
    Ok((shared, seats))
}

// All calls of a table's workers: their seats, and what came of the calls.
fn work_off<R: Threads + Sync>(
    rt: &R,
    alloc: Global,
    shared: &Shared,
    workers: Vec<Worker>,
) -> Result<(Vec<Seat>, Tally, u64), &'static str>
    requires works { All (λ worker. WorksOn worker shared.now) workers.items }
    ensures of { IfOk result (λ r. All (λ seat. IsOf seat shared.now) r.0.items) }
{
    let workers = work(rt, shared, workers)?;
    hand_back(alloc, shared, workers)
}

// The same, and the table once it is closed.
fn work_through<R: Threads + Sync>(
    rt: &R,
    alloc: Global,
    shared: Shared,
    workers: Vec<Worker>,
) -> Result<Ended, &'static str>
    requires works { All (λ worker. WorksOn worker shared) workers.items }
{
    let (seats, tally, retired) = work_off(rt, alloc, &shared, workers)?;
    let Ok(closed) = shared.close(alloc, seats) else {
        return Err("the table was not closed");
    };
    Ok(Ended::new(tally, retired, &closed))
}

// A table with so many seats, from its making to its end.
fn run<R: Threads + Sync + Print + AllocGlobal>(
    rt: &R,
    scheme: SchemeKind,
    count: u32,
) -> Result<(), &'static str> {
    let alloc = rt.alloc();
    let (shared, seats) = open(alloc, scheme, count)?;
    let workers = hire(alloc, &shared, seats, scheme == SchemeKind::Wfe)?;
    let ended = work_through(rt, alloc, shared, workers)?;
    if print_report(rt, scheme, count, &ended).is_err() {
        return Err("standard output failed");
    }
    ended.judge()
}

fn main(rt: HostRuntime) -> ExitCode {
    for scheme in [
        SchemeKind::He,
        SchemeKind::Ibr,
        SchemeKind::Wfe,
        SchemeKind::Hp,
    ] {
        for count in [2, 4] {
            if let Err(fault) = run(&rt, scheme, count) {
                let _ = eprintln!(rt; "{fault}");
                return ExitCode::FAILURE;
            }
        }
    }
    ExitCode::SUCCESS
}
