// What comes out whatever the order of the threads was, printed and judged.

use crate::tally::{BUCKETS, COUNTER, Tally, Values};
use crate::worker::{COPY_STEPS, GET_STEPS, HOLD_STEPS, LOOK_STEPS};
use std::io;
use wfe_table::{Closed, SchemeKind};

/// What the workers counted beside what the closed table holds.
#[derive(Clone, Copy)]
pub struct Ended {
    tally: Tally,
    /// By bucket, its version.
    versions: [u64; BUCKETS],
    /// How many buckets have a row: those that were changed.
    rows: u64,
    /// The values left in the queue.
    left: Values,
    /// Numbers that do not follow the one before in the queue, the first one the last that was taken.
    gaps: u64,
    /// The counter's last value.
    count: u64,
    /// Rows that were retired and are not back.
    retired: u64,
    /// Rows that are taken.
    used: u64,
}

impl Ended {
    /// What the workers counted, the rows that are retired still, and what the table holds.
    pub fn new(tally: Tally, retired: u64, closed: &Closed) -> Ended {
        let mut ended = Ended {
            tally,
            versions: [0; BUCKETS],
            rows: 0,
            left: Values::none(),
            gaps: 0,
            count: 0,
            retired,
            used: closed.used.len() as u64,
        };
        ended.read_buckets(closed);
        ended.read_counter(closed);
        ended.read_queue(closed);
        ended
    }

    fn read_buckets(&mut self, closed: &Closed) {
        for bucket in 0..BUCKETS {
            if let Some(row) = closed.buckets.get(bucket) {
                self.versions[bucket] = row.version;
                if row.version > 0 {
                    self.rows = self.rows.saturating_add(1);
                }
            }
        }
    }

    fn read_counter(&mut self, closed: &Closed) {
        for row in &closed.buckets {
            for (key, value) in &row.pairs {
                if *key == COUNTER {
                    self.count = *value;
                }
            }
        }
    }

    fn read_queue(&mut self, closed: &Closed) {
        let mut before = self.tally.taken.count;
        for (number, value) in &closed.queue {
            if *number != before.saturating_add(1) {
                self.gaps = self.gaps.saturating_add(1);
            }
            before = *number;
            self.left.add(*number, *value);
        }
    }

    // The rows that are accounted for: the queue has one more than values, its dummy.
    fn known(&self) -> u64 {
        self.rows
            .saturating_add(self.left.count)
            .saturating_add(1)
            .saturating_add(self.retired)
    }

    // The rows that were retired in all: each change of a bucket but the first replaces a row, and each
    // value taken the one before it.
    fn replaced(&self) -> u64 {
        let mut changes = 0u64;
        for bucket in self.tally.changes {
            changes = changes.saturating_add(bucket);
        }
        changes
            .saturating_sub(self.rows)
            .saturating_add(self.tally.taken.count)
    }

    /// What must not be, if it is.
    pub fn judge(&self) -> Result<(), &'static str> {
        let tally = &self.tally;
        if tally.changes != self.versions {
            return Err("a version is not the number of changes");
        }
        if tally.queued != tally.taken.and(self.left) || self.gaps > 0 {
            return Err("the values taken and left are not those queued");
        }
        if tally.counted != self.count {
            return Err("a count was lost");
        }
        if tally.disordered > 0 {
            return Err("values were taken out of order");
        }
        if tally.wrong > 0 || tally.refused > 0 {
            return Err("an answer is not as it had to be");
        }
        if tally.long > 0 {
            return Err("a call took too many steps");
        }
        if self.used != self.known() {
            return Err("a row is taken and nowhere");
        }
        if tally.made != self.replaced() || tally.freed != tally.made {
            return Err("a box was not made or not freed");
        }
        Ok(())
    }
}

/// Prints what must come out of so many workers' calls.
pub fn print_report<R: Print>(
    rt: &R,
    scheme: SchemeKind,
    workers: u32,
    ended: &Ended,
) -> io::Result<()> {
    print_changes(rt, scheme, workers, ended)?;
    print_queue(rt, ended)?;
    print_order(rt, ended)?;
    print_rows(rt, ended)?;
    print_counts(rt, &ended.tally)?;
    print_bounds(rt, scheme, ended.tally.long)
}

fn print_changes<R: Print>(
    rt: &R,
    scheme: SchemeKind,
    workers: u32,
    ended: &Ended,
) -> io::Result<()> {
    let tally = &ended.tally;
    let calls = tally.calls;
    println!(rt; "{scheme:?}: {workers} threads, {calls} calls")?;
    for bucket in 0..BUCKETS {
        let (changes, version) = (tally.changes[bucket], ended.versions[bucket]);
        println!(rt; "bucket {bucket}: {changes} changes, version {version}")?;
    }
    Ok(())
}

fn print_rows<R: Print>(rt: &R, ended: &Ended) -> io::Result<()> {
    let (rows, retired, used) = (ended.rows, ended.retired, ended.used);
    let queue = ended.left.count.saturating_add(1);
    println!(rt; "rows: {rows} of buckets, {queue} of the queue, {retired} retired, {used} taken")?;
    let (counted, count) = (ended.tally.counted, ended.count);
    println!(rt; "counter: {counted} times up, {count} at last")
}

fn print_counts<R: Print>(rt: &R, tally: &Tally) -> io::Result<()> {
    let (made, freed) = (tally.made, tally.freed);
    println!(rt; "boxes of rows: {made} made, {freed} freed")?;
    let (wrong, refused) = (tally.wrong, tally.refused);
    println!(rt; "answers that were wrong: {wrong}, refused: {refused}")
}

// Copies and looks have a bound under each scheme, gets and holds under Wait-Free Eras alone.
fn print_bounds<R: Print>(rt: &R, scheme: SchemeKind, long: u64) -> io::Result<()> {
    let (copy, look) = (COPY_STEPS, LOOK_STEPS);
    if scheme == SchemeKind::Wfe {
        let (get, hold) = (GET_STEPS, HOLD_STEPS);
        print!(rt; "gets over {get} steps, holds over {hold}, ")?;
    }
    println!(rt; "copies over {copy} and looks over {look}: {long}")
}

// Which values were left depends on the order of the threads: what they and the taken ones add up to
// does not.
fn print_queue<R: Print>(rt: &R, ended: &Ended) -> io::Result<()> {
    let (queued, taken, left) = (ended.tally.queued, ended.tally.taken, ended.left);
    let (all, took, stay) = (queued.count, taken.count, left.count);
    println!(rt; "queue: {all} queued, {took} taken, {stay} left")?;
    let (sum, same) = (queued.sum, taken.and(left).sum);
    println!(rt; "values: {sum} queued, {same} taken and left")
}

fn print_order<R: Print>(rt: &R, ended: &Ended) -> io::Result<()> {
    let tally = &ended.tally;
    let (sum, same) = (tally.queued.numbers, tally.taken.and(ended.left).numbers);
    let (disordered, gaps) = (tally.disordered, ended.gaps);
    println!(rt; "numbers: {sum} queued, {same} taken and left, {gaps} gaps")?;
    println!(rt; "taken out of a producer's order: {disordered}")
}
