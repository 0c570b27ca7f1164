//! A program on the threads' table whose threads come and go. It is as a user of the library writes it. A steady worker makes
//! its calls, and beside it come newcomers, one after the other, each on a thread of its own: it takes over the list of retired
//! rows that the one before has left, makes its calls, and leaves. What is printed is the same in whatever order the threads
//! took their steps.
#![tactic(auto)]

mod marks;
mod report;
mod staff;
mod tally;
mod worker;

ghost use Rattle.std.specs.Prelude.{IfOk};
ghost use Rattle.wfe_table.specs.Public.{IsOf};
ghost use Rattle.wfe_shifts.specs.OnTable.{IsStaffOf};

use marks::Marks;
use report::{Ended, Listed, print_report};
use staff::Staff;
use std::alloc::Global;
use std::process::ExitCode;
use std::thread;
use std::thread::Threads;
use wfe_table::{Config, SchemeKind, Shared};
use worker::{BUCKETS, Gone, Handed, Worker};

const NO_MEMORY: &str = "memory ran out";

/// Newcomers to a table, each with a seat of its own, which no other gets after it.
const ROUNDS: u32 = 50;

/// The tables under each scheme. In the first two no seat retires rows enough for a scan, and there are more
/// rows than all puts of the rounds take, so nothing is scanned before the last list is there. In the third
/// there are few rows, which go back and are taken again all the time.
const PLANS: [Plan; 3] = [
    Plan {
        slots: 4_096,
        every: 65_536,
        taken: true,
    },
    Plan {
        slots: 4_096,
        every: 65_536,
        taken: false,
    },
    Plan {
        slots: 256,
        every: 8,
        taken: true,
    },
];

/// How the rounds of a table go.
#[derive(Clone, Copy)]
struct Plan {
    slots: u32,
    every: u32,
    /// Whether the last list that is left is taken over too.
    taken: bool,
}

// As many seats as a table may have.
fn setting(scheme: SchemeKind, plan: Plan) -> Config {
    Config {
        scheme,
        seats: 64,
        indexes: 3,
        slots: plan.slots,
        buckets: BUCKETS as u32,
        tries: 2,
        every: plan.every,
        last_era: 4_294_967_295,
        last_version: 281_474_976_710_656,
        pairs: 6,
    }
}

// The newcomer on a thread of its own, beside the steady worker.
fn work<R: Threads + Sync>(
    rt: &R,
    shared: &Shared,
    newcomer: Worker,
    steady: Worker,
    last: Option<Handed>,
) -> (Gone, Worker)
    requires newcomer { IsOf newcomer.seat shared.now }
    requires steady { IsOf steady.seat shared.now }
    ensures gone { IsOf result.0.seat shared.now }
    ensures steady { IsOf result.1.seat shared.now }
{
    thread::join(
        rt,
        move || -> Gone
            requires { IsOf newcomer.seat shared.now }
            ensures { IsOf result.seat shared.entry.now }
        { newcomer.come_and_go(shared, last) },
        move || -> Worker
            requires { IsOf steady.seat shared.now }
            ensures { IsOf result.seat shared.entry.now }
        { steady.stay(shared) },
    )
}

// One round of the table.
fn round<R: Threads + Sync>(rt: &R, shared: &Shared, staff: Staff) -> Result<Staff, &'static str>
    requires staff { IsStaffOf staff shared.now }
    ensures staff { IfOk result (λ staff. IsStaffOf staff shared.now) }
{
    let Staff {
        steady,
        mut seats,
        mut left,
        mut tally,
        last,
    } = staff;
    let Some(seat) = seats.pop() else {
        return Err("the table has too few seats");
    };
    let (gone, steady) = work(rt, shared, Worker::new(seat), steady, last);
    let Gone {
        seat,
        handed,
        tally: counted,
    } = gone;
    tally.add(&counted);
    if left.push(seat).is_err() {
        return Err(NO_MEMORY);
    }
    Ok(Staff {
        steady,
        seats,
        left,
        tally,
        last: Some(handed),
    })
}

// All rounds of the table.
fn rounds<R: Threads + Sync>(
    rt: &R,
    shared: &Shared,
    mut staff: Staff,
) -> Result<Staff, &'static str>
    requires staff { IsStaffOf staff shared.now }
    ensures staff { IfOk result (λ staff. IsStaffOf staff shared.now) }
{
    for _round in 0..ROUNDS {
        staff = round(rt, shared, staff)?;
    }
    Ok(staff)
}

// Once no newcomer comes any more: the steady worker takes over the last list, if it is to, and scans, and
// the table is closed.
fn close(alloc: Global, shared: Shared, staff: Staff, taken: bool) -> Result<Ended, &'static str>
    requires staff { IsStaffOf staff shared }
{
    let Staff {
        mut steady,
        mut seats,
        left,
        mut tally,
        last,
    } = staff;
    let Ok(mut marks) = Marks::new(alloc, shared.layout().config().slots) else {
        return Err(NO_MEMORY);
    };
    let waiting = steady.take_last(&shared, last, taken);
    let kept = steady.scan(&shared);
    marks.add(steady.seat.notes().back.as_slice());
    tally.add(&steady.tally);
    if seats.push(steady.seat).is_err() {
        return Err(NO_MEMORY);
    }
    let Ok(closed) = shared.close_left(alloc, seats, left) else {
        return Err("the table was not closed");
    };
    marks.add(closed.used.as_slice());
    Ok(Ended::new(tally, Listed { kept, waiting }, marks, &closed))
}

// A table from its making to its end.
fn run<R: Threads + Sync + Print + AllocGlobal>(
    rt: &R,
    scheme: SchemeKind,
    plan: Plan,
) -> Result<(), &'static str> {
    let alloc = rt.alloc();
    let Ok((shared, mut seats)) = Shared::new(alloc, setting(scheme, plan)) else {
        return Err("no table was made");
    };
    let Some(seat) = seats.pop() else {
        return Err("the table has no seat");
    };
    let mut steady = Worker::new(seat);
    steady.open(&shared);
    let staff = Staff::new(alloc, steady, seats);
    let staff = rounds(rt, &shared, staff)?;
    let ended = close(alloc, shared, staff, plan.taken)?;
    if print_report(rt, scheme, &ended).is_err() {
        return Err("standard output failed");
    }
    ended.judge(ROUNDS, plan.taken)
}

fn main(rt: HostRuntime) -> ExitCode {
    for scheme in [
        SchemeKind::He,
        SchemeKind::Ibr,
        SchemeKind::Wfe,
        SchemeKind::Hp,
    ] {
        for plan in PLANS {
            if let Err(fault) = run(&rt, scheme, plan) {
                let _ = eprintln!(rt; "{fault}");
                return ExitCode::FAILURE;
            }
        }
    }
    ExitCode::SUCCESS
}
