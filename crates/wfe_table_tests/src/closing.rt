// What closing a table hands back where a seat is missing, and what it shows, where seats have left too.
use crate::bench::Bench;
use crate::script::{play, play_lines, schemes_of};
use std::alloc::Global;
use std::test::Fail;
use wfe_table::{BucketRow, Closed};

// What a script leaves: a table of one bucket, with nothing in its queue.
#[derive(Clone, Copy)]
struct Leaving {
    script: &'static str,
    clock: u32,
    version: u64,
    pairs: &'static [(u64, u64)],
    used: &'static [u32],
}

// Whether these are the one bucket that is due.
fn are_due(rows: &[BucketRow], due: &Leaving) -> bool {
    match rows {
        [row] => row.version == due.version && row.pairs.as_slice() == due.pairs,
        _ => false,
    }
}

fn is_due(closed: &Closed, due: &Leaving) -> bool {
    closed.clock == due.clock
        && are_due(closed.buckets.as_slice(), due)
        && closed.queue.is_empty()
        && closed.used.as_slice() == due.used
}

// That the table was closed, and holds what is due.
fn judge(closed: Option<Closed>, due: &Leaving) -> Result<(), Fail> {
    match closed {
        Some(closed) if is_due(&closed, due) => Ok(()),
        _ => Err(Fail::new("no table that holds what is due")),
    }
}

// Two seats of a table at its start.
const NEW: Leaving = Leaving {
    script: "record 5 he/ibr/wfe/hp 2 3 8 1 2 1 100 100\n\
        0 list",
    clock: 1,
    version: 0,
    pairs: &[],
    used: &[8],
};

// A close without the first of two seats hands all back. Then both seats are handed in, the second first.
fn closed_twice(alloc: Global, bench: Bench) -> Option<Closed> {
    let bench = bench.miss_one(alloc)?;
    bench.close_all(alloc)
}

#[test]
fn a_close_without_a_seat_hands_all_back(rt: HostRuntime) -> Result<(), Fail> {
    for place in 0..4 {
        let bench = play(rt.alloc(), NEW.script, place)?;
        judge(closed_twice(rt.alloc(), bench), &NEW)?;
    }
    Ok(())
}

// Three seats, of which the first retires a row, of slot 0, and leaves; and what is left once that row is back.
const LEFT: Leaving = Leaving {
    script: "record 5 he/ibr/wfe/hp 3 4 8 1 2 100 100 100\n\
        0 put 7 70 = done 1 still\n\
        0 put 7 71 = done 2 still\n\
        0 leave",
    clock: 1,
    version: 2,
    pairs: &[(7, 71)],
    used: &[1, 8],
};

// The second one takes its row over and gives it back, and then both others leave.
const AS_BEFORE: &str = "1 adopt 0 = adopted 1\n\
    1 scan = scanned 0 1\n\
    2 leave\n\
    1 leave";

// Without each of the seats.
fn without_each(alloc: Global, bench: Bench) -> Option<Bench> {
    let bench = bench.miss(alloc, 1)?;
    let bench = bench.miss(alloc, 2)?;
    bench.miss_left(alloc)
}

// Without one of the seats, which all have left, and then with all.
fn closed_late(alloc: Global, bench: Bench) -> Option<Closed> {
    let bench = bench.miss_left(alloc)?;
    bench.close(alloc)
}

// A close without one of the seats hands all back, and calls go on.
fn missed(alloc: Global, place: usize) -> Result<(), Fail> {
    let bench = play(alloc, LEFT.script, place)?;
    let Some(bench) = without_each(alloc, bench) else {
        return Err(Fail::new("closed without a seat"));
    };
    let bench = play_lines(alloc, bench, AS_BEFORE)?;
    judge(closed_late(alloc, bench), &LEFT)
}

#[test]
fn a_close_without_a_seat_hands_those_that_have_left_back_too(rt: HostRuntime) -> Result<(), Fail> {
    for place in 0..4 {
        missed(rt.alloc(), place)?;
    }
    Ok(())
}

const LEAVES: [Leaving; 5] = [
    // No seat has left.
    Leaving {
        script: "record 5 he/ibr/wfe/hp 2 4 8 1 2 100 100 100\n\
        0 put 7 70 = done 1 still\n\
        1 put 7 71 = done 2 still",
        clock: 1,
        version: 2,
        pairs: &[(7, 71)],
        used: &[0, 1, 8],
    },
    // The rows of a list that no seat takes over are in use.
    Leaving {
        script: "record 5 he/ibr/wfe/hp 3 4 8 1 2 100 100 100\n\
        0 put 7 70 = done 1 still\n\
        0 put 7 71 = done 2 still\n\
        0 leave\n\
        1 leave\n\
        2 leave",
        clock: 1,
        version: 2,
        pairs: &[(7, 71)],
        used: &[0, 1, 8],
    },
    // Those that an adopter gave back are free.
    Leaving {
        script: "record 5 he/ibr/wfe/hp 3 4 8 1 2 100 100 100\n\
        0 put 7 70 = done 1 still\n\
        0 put 7 71 = done 2 still\n\
        0 leave\n\
        2 adopt 0 = adopted 1\n\
        2 scan = scanned 0 1\n\
        2 leave",
        clock: 1,
        version: 2,
        pairs: &[(7, 71)],
        used: &[1, 8],
    },
    // A row that is held is in use, the one whose life meets the same era, the empty one, and the queue's.
    Leaving {
        script: "record 1 he/ibr/wfe 2 3 8 1 2 1 100 100\n\
        0 put 7 70\n\
        1 hold 7\n\
        0 put 7 71\n\
        0 remove 7",
        clock: 3,
        version: 3,
        pairs: &[],
        used: &[0, 1, 2, 8],
    },
    // Under hazard pointers a row that no one holds went back, whatever its life.
    Leaving {
        script: "record 5 hp 2 3 8 1 2 1 100 100\n\
        0 put 7 70\n\
        1 hold 7\n\
        0 put 7 71\n\
        0 remove 7",
        clock: 1,
        version: 3,
        pairs: &[],
        used: &[0, 2, 8],
    },
];

// What a script leaves under each of its schemes.
fn leave_it(alloc: Global, due: &Leaving) -> Result<(), Fail> {
    for place in 0..schemes_of(due.script) {
        let bench = play(alloc, due.script, place)?;
        judge(bench.close(alloc), due)?;
    }
    Ok(())
}

#[test]
fn rows_that_are_retired_are_in_use_until_they_go_back(rt: HostRuntime) -> Result<(), Fail> {
    for due in &LEAVES {
        leave_it(rt.alloc(), due)?;
    }
    Ok(())
}
