// What a worker counts of its calls, and what is added up of all workers.
use crate::boxes::Boxes;

/// Buckets of the map. The first ones are for keys that one worker changes, a bucket for each worker,
/// and the others for keys that all workers change.
pub const BUCKETS: usize = 8;
/// The most workers.
pub const WORKERS: usize = 4;
/// The key that all workers count up, in the first bucket of those that all workers change.
pub const COUNTER: u64 = (BUCKETS + WORKERS) as u64;
/// A producer's values are its number times this, and from 1 on how many it has queued.
pub const SPAN: u64 = 1_000_000;

/// Values of the queue, by their count and by sums, which wrap.
#[derive(Clone, Copy, Debug, PartialEq, Eq)]
pub struct Values {
    /// How many.
    pub count: u64,
    /// The sum of the values.
    pub sum: u64,
    /// The sum of their numbers.
    pub numbers: u64,
}

impl Values {
    /// No values.
    pub fn none() -> Values {
        Values {
            count: 0,
            sum: 0,
            numbers: 0,
        }
    }

    /// One value more.
    pub fn add(&mut self, number: u64, value: u64) {
        self.count = self.count.saturating_add(1);
        self.sum = self.sum.wrapping_add(value);
        self.numbers = self.numbers.wrapping_add(number);
    }

    /// The values of both.
    pub fn and(self, other: Values) -> Values {
        Values {
            count: self.count.saturating_add(other.count),
            sum: self.sum.wrapping_add(other.sum),
            numbers: self.numbers.wrapping_add(other.numbers),
        }
    }
}

/// What a worker counts.
#[derive(Clone, Copy)]
pub struct Tally {
    /// All calls.
    pub calls: u64,
    /// By bucket, the puts and removes that were done.
    pub changes: [u64; BUCKETS],
    /// The values that were queued.
    pub queued: Values,
    /// The values that were taken.
    pub taken: Values,
    /// By producer, the last of its values that was taken.
    latest: [u64; WORKERS],
    /// The number of the value that was taken last.
    number: u64,
    /// Values and numbers that were taken after a greater one of the same producer or table.
    pub disordered: u64,
    /// Answers that told another value, or another version, than they had to.
    pub wrong: u64,
    /// Changes that were refused.
    pub refused: u64,
    /// How often the counter was counted up.
    pub counted: u64,
    /// Gets, holds, copies and looks that took more steps than the most that are allowed.
    pub long: u64,
    /// Boxes that were made for rows.
    pub made: u64,
    /// Boxes that were freed.
    pub freed: u64,
}

impl Tally {
    /// Of no calls.
    pub fn none() -> Tally {
        Tally {
            calls: 0,
            changes: [0; BUCKETS],
            queued: Values::none(),
            taken: Values::none(),
            latest: [0; WORKERS],
            number: 0,
            disordered: 0,
            wrong: 0,
            refused: 0,
            counted: 0,
            long: 0,
            made: 0,
            freed: 0,
        }
    }

    /// One call more.
    pub fn call(&mut self) {
        self.calls = self.calls.saturating_add(1);
    }

    /// One call more, which took so many steps of the most that are allowed.
    pub fn call_within(&mut self, steps: u64, most: u64) {
        self.call();
        if steps > most {
            self.long = self.long.saturating_add(1);
        }
    }

    /// A put or a remove of the key was done.
    pub fn change(&mut self, key: u64) {
        let bucket = (key % BUCKETS as u64) as usize;
        self.changes[bucket] = self.changes[bucket].saturating_add(1);
    }

    /// The counter was counted up, by a get and a put as the last two calls.
    pub fn count(&mut self) {
        self.call();
        self.call();
        self.counted = self.counted.saturating_add(1);
        self.change(COUNTER);
    }

    /// A value was taken: each producer's come in the order in which it queued them.
    pub fn take(&mut self, number: u64, value: u64) {
        self.taken.add(number, value);
        let mut rising = number > self.number;
        self.number = number;
        let producer = value / SPAN;
        if producer < WORKERS as u64 {
            rising = rising && value > self.latest[producer as usize];
            self.latest[producer as usize] = value;
        }
        if !rising {
            self.disordered = self.disordered.saturating_add(1);
        }
    }

    /// An answer was as it had to be, or it was not.
    pub fn judge(&mut self, right: bool) {
        if !right {
            self.wrong = self.wrong.saturating_add(1);
        }
    }

    /// A change was refused.
    pub fn refuse(&mut self) {
        self.refused = self.refused.saturating_add(1);
    }

    /// Adds what another worker counted.
    pub fn add(&mut self, other: &Tally) {
        self.calls = self.calls.saturating_add(other.calls);
        for bucket in 0..BUCKETS {
            self.changes[bucket] = self.changes[bucket].saturating_add(other.changes[bucket]);
        }
        self.queued = self.queued.and(other.queued);
        self.taken = self.taken.and(other.taken);
        self.disordered = self.disordered.saturating_add(other.disordered);
        self.wrong = self.wrong.saturating_add(other.wrong);
        self.refused = self.refused.saturating_add(other.refused);
        self.counted = self.counted.saturating_add(other.counted);
        self.long = self.long.saturating_add(other.long);
        self.made = self.made.saturating_add(other.made);
        self.freed = self.freed.saturating_add(other.freed);
    }

    /// Adds the boxes of a worker.
    pub fn add_boxes(&mut self, boxes: &Boxes) {
        self.made = self.made.saturating_add(boxes.made);
        self.freed = self.freed.saturating_add(boxes.freed);
        self.wrong = self.wrong.saturating_add(boxes.faults);
    }
}
