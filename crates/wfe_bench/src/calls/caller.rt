// The calls of one thread. It adds up what they answer, so that the compiler can't leave out what carries an answer. An enqueue and a
// dequeue are made in one place each, so the compiler puts them whole into the loop there (`exchange`). A program that makes them in
// several places calls a function for each, and so does one in C: what the border takes is what a call through C (`bench/border/calls.c`)
// has more than one of `apart`, where that function makes one at each of its calls.
ghost use Rattle.std.specs.Prelude.{◌≡◌};
ghost use Rattle.wfe_table.specs.Public.{IsOf};

use wfe_table::{Seat, Shared};

// Keys of the map, which are all there from the start.
const KEYS: u64 = 128;

/// Which calls are made.
#[derive(Clone, Copy)]
pub enum Work {
    /// Gets alone.
    Reads,
    /// Nine gets and a put.
    Mixed,
    /// Puts alone.
    Puts,
    /// An enqueue and a dequeue by turns.
    Pairs,
    /// The same, each by a call of a function.
    Apart,
}

impl Work {
    /// The work of this name.
    pub fn named(name: &str) -> Option<Work> {
        match name {
            "reads" => Some(Work::Reads),
            "mixed" => Some(Work::Mixed),
            "puts" => Some(Work::Puts),
            "pairs" => Some(Work::Pairs),
            "apart" => Some(Work::Apart),
            _ => None,
        }
    }
}

/// What came of a thread's calls.
#[derive(Clone, Copy)]
pub struct Told {
    /// How many were refused.
    pub refused: u64,
    /// What the others answered: the sum of their numbers and values, modulo 2^64.
    pub sum: u64,
}

impl Told {
    /// Of no calls.
    pub fn nothing() -> Told {
        Told { refused: 0, sum: 0 }
    }

    /// With those of another thread.
    pub fn with(self, other: Told) -> Told {
        Told {
            refused: self.refused.saturating_add(other.refused),
            sum: self.sum.wrapping_add(other.sum),
        }
    }
}

/// A thread's seat.
#[derive(Drop)]
pub struct Caller {
    pub seat: Seat,
}

impl Caller {
    /// The caller of a seat.
    pub fn new(seat: Seat) -> Caller
        ensures { result.seat ≡ seat }
    {
        Caller { seat }
    }

    /// Puts each key once.
    pub fn fill(&mut self, shared: &Shared)
        requires of { IsOf self.old.seat shared.now }
        ensures of { IsOf self.new.seat shared.now }
    {
        for key in 0..KEYS {
            self.put(shared, key, key);
        }
    }

    /// So many calls.
    pub fn work(&mut self, shared: &Shared, work: Work, calls: u64) -> Told
        requires of { IsOf self.old.seat shared.now }
        ensures of { IsOf self.new.seat shared.now }
    {
        match work {
            Work::Pairs => self.exchange(shared, 0, calls),
            Work::Apart => self.apart(shared, calls),
            Work::Reads | Work::Mixed | Work::Puts => self.keyed(shared, work, calls),
        }
    }

    // So many gets and puts, of keys in a random order.
    fn keyed(&mut self, shared: &Shared, work: Work, calls: u64) -> Told
        requires of { IsOf self.old.seat shared.now }
        ensures of { IsOf self.new.seat shared.now }
    {
        let mut refused = 0u64;
        let mut sum = 0u64;
        let mut random = u64::from(self.seat.number()) + 1;
        for turn in 0..calls {
            random = random
                .wrapping_mul(6_364_136_223_846_793_005)
                .wrapping_add(1_442_695_040_888_963_407);
            let key = (random >> 33) % KEYS;
            match self.call(shared, work, turn, key) {
                Some(told) => sum = sum.wrapping_add(told),
                None => refused = refused.saturating_add(1),
            }
        }
        Told { refused, sum }
    }

    // A get or a put: the sum of what it answered, or none where it was refused.
    fn call(&mut self, shared: &Shared, work: Work, turn: u64, key: u64) -> Option<u64>
        requires of { IsOf self.old.seat shared.now }
        ensures of { IsOf self.new.seat shared.now }
    {
        match work {
            Work::Reads => self.get(shared, key),
            Work::Mixed if turn % 10 != 0 => self.get(shared, key),
            _ => self.put(shared, key, turn),
        }
    }

    #[inline(always)]
    fn get(&mut self, shared: &Shared, key: u64) -> Option<u64>
        requires of { IsOf self.old.seat shared.now }
        ensures of { IsOf self.new.seat shared.now }
    {
        let got = shared.get(&mut self.seat, key);
        Some(got.version.wrapping_add(got.value?))
    }

    fn put(&mut self, shared: &Shared, key: u64, value: u64) -> Option<u64>
        requires of { IsOf self.old.seat shared.now }
        ensures of { IsOf self.new.seat shared.now }
    {
        let done = shared.put(&mut self.seat, key, value).ok()?;
        Some(done.version)
    }

    // An enqueue and a dequeue by turns, from the first turn up to the one past the last.
    #[inline(never)]
    fn exchange(&mut self, shared: &Shared, first: u64, past: u64) -> Told
        requires of { IsOf self.old.seat shared.now }
        ensures of { IsOf self.new.seat shared.now }
    {
        let mut refused = 0u64;
        let mut sum = 0u64;
        for turn in first..past {
            let told = if turn % 2 == 0 {
                self.enqueue(shared, turn)
            } else {
                self.dequeue(shared)
            };
            match told {
                Some(told) => sum = sum.wrapping_add(told),
                None => refused = refused.saturating_add(1),
            }
        }
        Told { refused, sum }
    }

    // The same, one at a time.
    fn apart(&mut self, shared: &Shared, calls: u64) -> Told
        requires of { IsOf self.old.seat shared.now }
        ensures of { IsOf self.new.seat shared.now }
    {
        let mut all = Told::nothing();
        for turn in 0..calls {
            all = all.with(self.exchange(shared, turn, turn + 1));
        }
        all
    }

    #[inline(always)]
    fn enqueue(&mut self, shared: &Shared, value: u64) -> Option<u64>
        requires of { IsOf self.old.seat shared.now }
        ensures of { IsOf self.new.seat shared.now }
    {
        let queued = shared.enqueue(&mut self.seat, value).ok()?;
        Some(queued.number)
    }

    #[inline(always)]
    fn dequeue(&mut self, shared: &Shared) -> Option<u64>
        requires of { IsOf self.old.seat shared.now }
        ensures of { IsOf self.new.seat shared.now }
    {
        let taken = shared.dequeue(&mut self.seat).ok()?;
        Some(taken.number.wrapping_add(taken.value))
    }
}
