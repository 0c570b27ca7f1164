// What one thread does: rounds of calls with its seat, whose answers are judged as they come.
ghost use Rattle.std.specs.Prelude.{◌≡◌, ◌<◌};
ghost use Rattle.wfe_threads.specs.Works.{WorksOn};

use crate::boxes::Boxes;
use crate::tally::{BUCKETS, COUNTER, SPAN, Tally, WORKERS};
use wfe_table::{Got, Looked, PutIfRefusal, Seat, Shared};

/// Rounds of each worker, of thirty calls.
pub const ROUNDS: u32 = 500;
/// Failed tries before a reader asks for help.
pub const TRIES: u32 = 2;
/// Pairs for which a row has room.
pub const PAIRS: u32 = 6;
/// The most steps of a get under Wait-Free Eras, whatever other threads do.
pub const GET_STEPS: u64 = 3 * TRIES as u64 + 18 + PAIRS as u64;
/// The most steps of a hold under Wait-Free Eras, whatever other threads do.
pub const HOLD_STEPS: u64 = 3 * TRIES as u64 + 16;
/// The most steps of a copy, whatever other threads do.
pub const COPY_STEPS: u64 = 2;
/// The most steps of a look, whatever other threads do.
pub const LOOK_STEPS: u64 = 3 + PAIRS as u64;
/// The index at which a version is kept.
pub const KEPT: u32 = 3;

/// What one thread works with.
#[derive(Drop)]
pub struct Worker {
    /// Its place in the table.
    pub seat: Seat,
    /// Boxes that belong to the rows that it retires.
    pub boxes: Boxes,
    /// What was counted of its calls.
    pub tally: Tally,
    /// Whether the scheme bounds the steps of its gets and holds.
    bounded: bool,
}

impl Worker {
    /// A worker that has made no call.
    pub fn new(seat: Seat, boxes: Boxes, bounded: bool) -> Worker
        ensures seat { result.seat ≡ seat }
        ensures boxes { result.boxes ≡ boxes }
    {
        Worker {
            seat,
            boxes,
            tally: Tally::none(),
            bounded,
        }
    }

    /// All calls of a worker, on the table that its seat is of.
    pub fn work(&mut self, shared: &Shared)
        requires works { WorksOn self.old shared.now }
        ensures works { WorksOn self.new shared.now }
    {
        for round in 0..ROUNDS {
            self.change_own_key(shared, round);
            self.change_shared_keys(shared, round);
            self.use_queue(shared, round);
            self.hold_rows(shared, round);
            self.keep_version(shared, round);
            self.count_up(shared);
            self.keep_house(shared);
        }
    }

    // A key that no other worker changes: what was put is there, and what was removed is gone.
    fn change_own_key(&mut self, shared: &Shared, round: u32)
        requires works { WorksOn self.old shared.now }
        ensures works { WorksOn self.new shared.now }
    {
        let value = u64::from(round);
        let key = self.own_key() + BUCKETS as u64 * (1 + value % 3);
        self.put(shared, key, value);
        let there = self.get(shared, key);
        self.remove(shared, key);
        let gone = self.get(shared, key);
        self.tally.judge(there.value == Some(value));
        self.tally.judge(gone.value.is_none());
    }

    // Keys that all workers change: the version of a put lies between those of a get before and of one
    // after.
    fn change_shared_keys(&mut self, shared: &Shared, round: u32)
        requires works { WorksOn self.old shared.now }
        ensures works { WorksOn self.new shared.now }
    {
        let value = u64::from(round);
        let key = shared_key(round);
        let before = self.get(shared, key);
        let version = self.put(shared, key, value);
        let after = self.get(shared, key);
        self.tally
            .judge(before.version < version && version <= after.version);
        self.put(shared, shared_key(round / 4), value);
    }

    // Two values are queued and two are taken, each after one was queued, so that no worker finds the
    // queue empty. Each tenth round leaves one.
    fn use_queue(&mut self, shared: &Shared, round: u32)
        requires works { WorksOn self.old shared.now }
        ensures works { WorksOn self.new shared.now }
    {
        let first = self.own_key() * SPAN + 2 * u64::from(round) + 1;
        self.enqueue(shared, first);
        self.dequeue(shared);
        self.enqueue(shared, first + 1);
        if round % 10 == 0 {
            self.get(shared, shared_key(round));
        } else {
            self.dequeue(shared);
        }
    }

    // A row is protected until it is released, or until the next hold.
    fn hold_rows(&mut self, shared: &Shared, round: u32)
        requires works { WorksOn self.old shared.now }
        ensures works { WorksOn self.new shared.now }
    {
        self.hold(shared, shared_key(round));
        let key = self.own_key();
        self.hold(shared, key);
        self.get(shared, shared_key(round));
        self.release(shared);
    }

    // A version that is kept at a higher index shows the same while it is kept, though it is replaced.
    fn keep_version(&mut self, shared: &Shared, round: u32)
        requires works { WorksOn self.old shared.now }
        ensures works { WorksOn self.new shared.now }
    {
        let key = shared_key(round);
        self.hold(shared, key);
        let slot = self.copy(shared);
        self.release(shared);
        let first = self.look(shared, key);
        let version = self.put(shared, key, u64::from(round));
        let second = self.look(shared, key);
        self.drop_kept(shared);
        let none = self.look(shared, key);
        self.tally.judge(slot.is_some() && none.is_none());
        self.tally
            .judge(first == second && shows(first, slot, version));
    }

    // A key that all workers count up, each by a put at the version at which it has read the count. Where
    // another change of the bucket came between, it reads again.
    fn count_up(&mut self, shared: &Shared)
        requires works { WorksOn self.old shared.now }
        ensures works { WorksOn self.new shared.now }
    {
        for _turn in 0..u64::MAX {
            let got = shared.get(&mut self.seat, COUNTER);
            let next = got.value.unwrap_or(0).saturating_add(1);
            let answer = shared.put_if(&mut self.seat, COUNTER, next, got.version);
            self.boxes.follow(&self.seat);
            match answer {
                Err(PutIfRefusal::Stale { version }) => self.tally.judge(version > got.version),
                Err(_) => return self.tally.refuse(),
                Ok(done) => {
                    self.tally
                        .judge(done.version == got.version.saturating_add(1));
                    return self.tally.count();
                }
            }
        }
    }

    // The clock is moved on, and the rows that nothing covers go back.
    fn keep_house(&mut self, shared: &Shared)
        requires works { WorksOn self.old shared.now }
        ensures works { WorksOn self.new shared.now }
    {
        shared.advance(&mut self.seat);
        self.tally.call();
        self.release(shared);
        self.scan(shared);
        let key = self.own_key();
        self.get(shared, key);
    }

    // A key of the worker's own bucket.
    fn own_key(&self) -> u64
        ensures { result < 4 }
    {
        u64::from(self.seat.number()) % WORKERS as u64
    }

    // The call that was made last, of at most so many steps where the scheme bounds them.
    fn count(&mut self, most: u64)
        ensures seat { self.new.seat ≡ self.old.seat }
        ensures boxes { self.new.boxes ≡ self.old.boxes }
    {
        if self.bounded {
            self.tally.call_within(self.seat.notes().steps, most);
        } else {
            self.tally.call();
        }
    }

    fn get(&mut self, shared: &Shared, key: u64) -> Got
        requires works { WorksOn self.old shared.now }
        ensures works { WorksOn self.new shared.now }
    {
        let got = shared.get(&mut self.seat, key);
        self.count(GET_STEPS);
        got
    }

    // The version of the put, or 0 where it was refused.
    fn put(&mut self, shared: &Shared, key: u64, value: u64) -> u64
        requires works { WorksOn self.old shared.now }
        ensures works { WorksOn self.new shared.now }
    {
        let answer = shared.put(&mut self.seat, key, value);
        self.boxes.follow(&self.seat);
        self.tally.call();
        match answer {
            Ok(done) => {
                self.tally.change(key);
                done.version
            }
            Err(_) => {
                self.tally.refuse();
                0
            }
        }
    }

    fn remove(&mut self, shared: &Shared, key: u64)
        requires works { WorksOn self.old shared.now }
        ensures works { WorksOn self.new shared.now }
    {
        let answer = shared.remove(&mut self.seat, key);
        self.boxes.follow(&self.seat);
        self.tally.call();
        match answer {
            Ok(_) => self.tally.change(key),
            Err(_) => self.tally.refuse(),
        }
    }

    fn enqueue(&mut self, shared: &Shared, value: u64)
        requires works { WorksOn self.old shared.now }
        ensures works { WorksOn self.new shared.now }
    {
        let answer = shared.enqueue(&mut self.seat, value);
        self.boxes.follow(&self.seat);
        self.tally.call();
        match answer {
            Ok(queued) => self.tally.queued.add(queued.number, value),
            Err(_) => self.tally.refuse(),
        }
    }

    fn dequeue(&mut self, shared: &Shared)
        requires works { WorksOn self.old shared.now }
        ensures works { WorksOn self.new shared.now }
    {
        let answer = shared.dequeue(&mut self.seat);
        self.boxes.follow(&self.seat);
        self.tally.call();
        match answer {
            Ok(taken) => self.tally.take(taken.number, taken.value),
            Err(_) => self.tally.refuse(),
        }
    }

    fn hold(&mut self, shared: &Shared, key: u64)
        requires works { WorksOn self.old shared.now }
        ensures works { WorksOn self.new shared.now }
    {
        let slot = shared.hold(&mut self.seat, key);
        self.count(HOLD_STEPS);
        self.tally.judge(slot.is_some());
    }

    fn release(&mut self, shared: &Shared)
        requires works { WorksOn self.old shared.now }
        ensures works { WorksOn self.new shared.now }
    {
        shared.release(&mut self.seat);
        self.tally.call();
    }

    // The slot of the row that is held, which is kept at the higher index too.
    fn copy(&mut self, shared: &Shared) -> Option<u32>
        requires works { WorksOn self.old shared.now }
        ensures works { WorksOn self.new shared.now }
    {
        let slot = shared.copy(&mut self.seat, 2, KEPT);
        self.tally.call_within(self.seat.notes().steps, COPY_STEPS);
        slot
    }

    // What the row that is kept shows.
    fn look(&mut self, shared: &Shared, key: u64) -> Option<Looked>
        requires works { WorksOn self.old shared.now }
        ensures works { WorksOn self.new shared.now }
    {
        let looked = shared.look(&mut self.seat, KEPT, key);
        self.tally.call_within(self.seat.notes().steps, LOOK_STEPS);
        looked
    }

    fn drop_kept(&mut self, shared: &Shared)
        requires works { WorksOn self.old shared.now }
        ensures works { WorksOn self.new shared.now }
    {
        shared.drop_index(&mut self.seat, KEPT);
        self.tally.call();
    }

    fn scan(&mut self, shared: &Shared)
        requires works { WorksOn self.old shared.now }
        ensures works { WorksOn self.new shared.now }
    {
        let scanned = shared.scan(&mut self.seat);
        self.boxes.follow(&self.seat);
        self.tally.call();
        self.tally
            .judge(self.seat.list().len() as u64 == u64::from(scanned.kept));
    }
}

// Whether a look has shown the row of this slot, at a version before this one.
fn shows(looked: Option<Looked>, slot: Option<u32>, version: u64) -> bool {
    match looked {
        Some(looked) => slot == Some(looked.slot) && looked.version < version,
        None => false,
    }
}

// One of the keys that all workers change, each of a bucket of its own.
fn shared_key(round: u32) -> u64
    ensures { result < 8 }
{
    WORKERS as u64 + u64::from(round % 4)
}
