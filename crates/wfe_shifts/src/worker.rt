// What one thread does with its seat: puts, and where it comes and goes, a list taken over and one left.
ghost use Rattle.std.specs.Prelude.{◌≡◌};
ghost use Rattle.wfe_table.specs.Public.{IsOf};

use crate::tally::Tally;
use wfe_table::{AdoptEnd, LeftSeat, Seat, Shared, adopt, leave};

/// Buckets of the map.
pub const BUCKETS: u64 = 4;
/// Puts of each worker in a round.
pub const PUTS: u64 = 24;

/// What a seat has left: its number, and how many rows its list had.
#[derive(Clone, Copy)]
pub struct Handed {
    place: u32,
    rows: u64,
}

/// A newcomer that has left.
#[derive(Drop)]
pub struct Gone {
    pub seat: LeftSeat,
    pub handed: Handed,
    /// What was counted of its calls.
    pub tally: Tally,
}

/// What one thread works with.
#[derive(Drop)]
pub struct Worker {
    /// Its place in the table.
    pub seat: Seat,
    /// What was counted of its calls.
    pub tally: Tally,
}

impl Worker {
    /// A worker that has made no call.
    pub fn new(seat: Seat) -> Worker
        ensures { result.seat ≡ seat }
    {
        Worker {
            seat,
            tally: Tally::none(),
        }
    }

    /// Before the first newcomer: each bucket gets its first row, so that each put from now on retires one,
    /// and a seat that is there has left no list.
    pub fn open(&mut self, shared: &Shared)
        requires of { IsOf self.old.seat shared.now }
        ensures of { IsOf self.new.seat shared.now }
    {
        for key in 0..BUCKETS {
            self.put(shared, key, 0);
        }
        let place = self.seat.number();
        let end = self.adopt(shared, place);
        self.tally.judge(end == Some(AdoptEnd::NotLeft));
    }

    /// A round of the steady worker, which moves the clock on too.
    pub fn stay(mut self, shared: &Shared) -> Worker
        requires of { IsOf self.seat shared.now }
        ensures of { IsOf result.seat shared.now }
    {
        self.put_all(shared, 1);
        shared.advance(&mut self.seat);
        self.tally.follow(&self.seat);
        self
    }

    /// A newcomer's round, from the list that is there to the one that it leaves. It holds a row until it
    /// leaves, and so lets go of it then.
    pub fn come_and_go(mut self, shared: &Shared, last: Option<Handed>) -> Gone
        requires of { IsOf self.seat shared.now }
        ensures of { IsOf result.seat shared.now }
    {
        if last.is_some() {
            self.take_over(shared, last);
        }
        self.put_all(shared, 2);
        let held = shared.hold(&mut self.seat, 0);
        self.tally.judge(held.is_some());
        let handed = Handed {
            place: self.seat.number(),
            rows: self.seat.list().len() as u64,
        };
        self.tally.hand(handed.rows);
        let Worker { seat, tally } = self;
        Gone {
            seat: leave(shared, seat),
            handed,
            tally,
        }
    }

    /// Takes over the list that was left, whole, and once.
    pub fn take_over(&mut self, shared: &Shared, last: Option<Handed>)
        requires of { IsOf self.old.seat shared.now }
        ensures of { IsOf self.new.seat shared.now }
    {
        let Some(handed) = last else {
            return self.tally.judge(false);
        };
        let before = self.seat.list().len() as u64;
        let first = self.adopt(shared, handed.place);
        let after = self.seat.list().len() as u64;
        let again = self.adopt(shared, handed.place);
        match first {
            Some(AdoptEnd::Adopted { count }) => {
                self.tally.take(u64::from(count));
                self.tally.judge(
                    u64::from(count) == handed.rows && after == before.saturating_add(handed.rows),
                );
            }
            _ => self.tally.judge(false),
        }
        self.tally.judge(again == Some(AdoptEnd::AdoptedBefore));
    }

    /// Takes over the last list that was left, if it is to be, and tells how many rows wait in a list that is
    /// not.
    pub fn take_last(&mut self, shared: &Shared, last: Option<Handed>, taken: bool) -> u64
        requires of { IsOf self.old.seat shared.now }
        ensures of { IsOf self.new.seat shared.now }
    {
        if taken {
            self.take_over(shared, last);
            return 0;
        }
        match last {
            Some(handed) => handed.rows,
            None => 0,
        }
    }

    /// How many retired rows stay in the list after a scan.
    pub fn scan(&mut self, shared: &Shared) -> u64
        requires of { IsOf self.old.seat shared.now }
        ensures of { IsOf self.new.seat shared.now }
    {
        let scanned = shared.scan(&mut self.seat);
        self.tally.follow(&self.seat);
        let kept = self.seat.list().len() as u64;
        self.tally.judge(kept == u64::from(scanned.kept));
        kept
    }

    // What comes of taking over the list of a seat, if the table has it.
    fn adopt(&mut self, shared: &Shared, place: u32) -> Option<AdoptEnd>
        requires of { IsOf self.old.seat shared.now }
        ensures of { IsOf self.new.seat shared.now }
    {
        if place >= shared.layout().config().seats {
            return None;
        }
        Some(adopt(shared, &mut self.seat, place))
    }

    // The puts of a round, of keys in each bucket. Each worker has keys of its own.
    fn put_all(&mut self, shared: &Shared, own: u64)
        requires of { IsOf self.old.seat shared.now }
        ensures of { IsOf self.new.seat shared.now }
    {
        for turn in 0..PUTS {
            let key = BUCKETS.saturating_mul(own).saturating_add(turn % BUCKETS);
            self.put(shared, key, turn);
        }
    }

    fn put(&mut self, shared: &Shared, key: u64, value: u64)
        requires of { IsOf self.old.seat shared.now }
        ensures of { IsOf self.new.seat shared.now }
    {
        let answer = shared.put(&mut self.seat, key, value);
        self.tally.follow(&self.seat);
        self.tally.change(answer.is_ok());
    }
}
