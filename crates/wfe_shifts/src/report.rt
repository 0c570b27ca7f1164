// What comes out whatever the order of the threads was, printed and judged.

use crate::marks::Marks;
use crate::tally::Tally;
use std::io;
use wfe_table::{Closed, SchemeKind};

/// Retired rows that did not go back.
#[derive(Clone, Copy)]
pub struct Listed {
    /// Those in the list of the steady worker.
    pub kept: u64,
    /// Those in a list that was left and that no one has taken over.
    pub waiting: u64,
}

/// What the workers counted beside what the closed table holds.
#[derive(Clone, Copy)]
pub struct Ended {
    tally: Tally,
    listed: Listed,
    /// The versions of all buckets, added up.
    versions: u64,
    /// How many buckets have a row.
    rows: u64,
    /// Values left in the queue.
    queued: u64,
    /// Rows that are taken.
    used: u64,
    /// Rows that are not.
    free: u64,
    /// Rows that went back twice, or that went back and are taken.
    twice: u64,
}

impl Ended {
    /// What the workers counted, how many rows are in lists, which rows were named, and what the table
    /// holds.
    pub fn new(tally: Tally, listed: Listed, marks: Marks, closed: &Closed) -> Ended {
        let used = closed.used.len() as u64;
        let mut ended = Ended {
            tally,
            listed,
            versions: 0,
            rows: 0,
            queued: closed.queue.len() as u64,
            used,
            free: marks.rows().saturating_sub(used),
            twice: marks.twice,
        };
        for row in &closed.buckets {
            ended.versions = ended.versions.saturating_add(row.version);
            if row.version > 0 {
                ended.rows = ended.rows.saturating_add(1);
            }
        }
        ended
    }

    // The rows in lists.
    fn in_lists(&self) -> u64 {
        self.listed.kept.saturating_add(self.listed.waiting)
    }

    // The rows of the queue: one more than values, its dummy.
    fn of_queue(&self) -> u64 {
        self.queued.saturating_add(1)
    }

    // The rows that are linked or in a list.
    fn known(&self) -> u64 {
        self.rows
            .saturating_add(self.of_queue())
            .saturating_add(self.in_lists())
    }

    /// What must not be, if it is, after so many newcomers, of whose lists the last was taken over or not.
    pub fn judge(&self, newcomers: u32, taken: bool) -> Result<(), &'static str> {
        let tally = &self.tally;
        let still = if taken { 0 } else { 1 };
        if tally.changes != self.versions {
            return Err("the versions are not the number of changes");
        }
        if tally.left != u64::from(newcomers) || tally.taken.saturating_add(still) != tally.left {
            return Err("a list was not left or not taken over");
        }
        if tally.taken_rows.saturating_add(self.listed.waiting) != tally.left_rows {
            return Err("a list changed between two threads");
        }
        if tally.retired.saturating_add(self.rows) != tally.changes {
            return Err("a row was replaced and not retired");
        }
        if tally.back.saturating_add(self.in_lists()) != tally.retired {
            return Err("a retired row is in no list and not back");
        }
        if self.listed.kept > 0 {
            return Err("a row is kept though nothing stands on it");
        }
        if self.used != self.known() {
            return Err("a row is neither free nor linked nor in one list");
        }
        if self.twice > 0 {
            return Err("a row went back twice, or is taken though it went back");
        }
        if tally.wrong > 0 || tally.refused > 0 {
            return Err("an answer is not as it had to be");
        }
        Ok(())
    }
}

/// Prints what must come out of a table's rounds.
pub fn print_report<R: Print>(rt: &R, scheme: SchemeKind, ended: &Ended) -> io::Result<()> {
    let tally = &ended.tally;
    let (changes, versions) = (tally.changes, ended.versions);
    println!(rt; "{scheme:?}: {changes} changes, versions {versions}")?;
    let (left, taken) = (tally.left, tally.taken);
    println!(rt; "lists: {left} left, {taken} taken over")?;
    let (retired, back, listed) = (tally.retired, tally.back, ended.in_lists());
    println!(rt; "rows retired: {retired}, back {back}, still in lists {listed}")?;
    let (free, rows, queue) = (ended.free, ended.rows, ended.of_queue());
    println!(rt; "rows: {free} free, {rows} of buckets, {queue} of the queue, {listed} in lists")?;
    let (twice, wrong, refused) = (ended.twice, tally.wrong, tally.refused);
    println!(rt;
        "rows back twice, or taken too: {twice}, wrong answers: {wrong}, refused puts: {refused}"
    )
}
