// Two workers on one table whose calls come in the order that a gate gives them.
use crate::expect::expect_run;
use std::process::Abort;
use std::sync::atomic::{AtomicU64, Ordering};
use std::test::Fail;
use std::thread;
use std::thread::Threads;
use wfe_outside::CleanSource;
use wfe_server::Gate;
use wfe_trace::Status;

const TRACE: &[u8] =
    b"wfe 2\nscheme he\nseats 2\nindexes 3\nslots 64\nbuckets 1\ntries 2\nevery 1\nlast_era 100\nlast_version 100\nbegin\n0 hold 7\n0 look 2 7\n1 put 7 70\n1 put 7 71\nend\n";

// Turns after which a worker no longer waits.
const MOST: u64 = 1_000_000_000;

// A call waits until those that come before it were answered.
#[derive(Drop)]
struct InOrder {
    // The seat and the number of each call.
    order: [(u32, u64); 4],
    answers: AtomicU64,
    gave_up: AtomicU64,
}

impl InOrder {
    // The seat's call of this number comes after those that were answered.
    fn is_next(&self, seat: u32, call: u64) -> bool {
        let answers = self.answers.load(Ordering::SeqCst);
        match self.order.get(answers as usize) {
            Some((next, number)) => *next == seat && *number == call,
            None => false,
        }
    }
}

impl Gate for InOrder {
    fn enter(&self, seat: u32, call: u64) {
        for _turn in 0..MOST {
            if self.is_next(seat, call) {
                return;
            }
            thread::yield_now();
        }
        self.gave_up.store(1, Ordering::SeqCst);
    }

    fn answered(&self, seat: u32, call: u64) {
        if self.is_next(seat, call) {
            self.answers.fetch_add(1, Ordering::SeqCst);
        }
    }
}

// Wants this output of a run where the calls come in this order.
fn expect<R: Threads + Sync + Abort + AllocGlobal>(
    rt: &R,
    order: [(u32, u64); 4],
    output: &[u8],
) -> Result<(), Fail> {
    let gate = InOrder {
        order,
        answers: AtomicU64::new(0),
        gave_up: AtomicU64::new(0),
    };
    let trace = CleanSource::new(rt.alloc(), TRACE)?;
    expect_run(rt, &gate, trace, &[], (Status::Done, output))?;
    assert_eq!(rt; gate.gave_up.load(Ordering::SeqCst), 0);
    Ok(())
}

// A hold between two puts keeps the row of the first one.
#[test]
fn a_worker_looks_at_the_row_that_it_holds(rt: HostRuntime) -> Result<(), Fail> {
    let output =
        b"record 2 he 2 3 64 1 2 1 100 100\n0 begin hold 7\n0 end 4 holding 0\n0 begin look 2 7\n0 end 4 looked 0 1 70\n1 begin put 7 70\n1 give 0 1\n1 put 0 1 7 70\n1 end 13 done 1 still\n1 begin put 7 71\n1 give 1 1\n1 put 0 2 7 71\n1 retire 0 1 1\n1 end 28 done 2 moved 2\nbucket 0 2 7 71\nused 0\nused 1\nused 64\ndone\n";
    expect(&rt, [(1, 1), (0, 1), (1, 2), (0, 2)], output)
}

// One before both finds nothing, and the row of the first put goes back.
#[test]
fn a_worker_that_comes_first_holds_nothing(rt: HostRuntime) -> Result<(), Fail> {
    let output =
        b"record 2 he 2 3 64 1 2 1 100 100\n0 begin hold 7\n0 end 5 nothing\n0 begin look 2 7\n0 end 1 nothing\n1 begin put 7 70\n1 give 0 1\n1 put 0 1 7 70\n1 end 13 done 1 still\n1 begin put 7 71\n1 give 1 1\n1 put 0 2 7 71\n1 retire 0 1 1\n1 back 0\n1 end 29 done 2 moved 2\nbucket 0 2 7 71\nused 1\nused 64\ndone\n";
    expect(&rt, [(0, 1), (1, 1), (1, 2), (0, 2)], output)
}
