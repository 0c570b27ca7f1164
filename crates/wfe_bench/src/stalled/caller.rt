// The calls of one thread.
ghost use Rattle.std.specs.Prelude.{◌≡◌, ◌≤◌, ◌+◌, ◌*◌};
ghost use Rattle.wfe_core.specs.words.declared.config.SchemeKind.TheVariants as schemes;
ghost use Rattle.wfe_table.specs.Public.{IsOf};

use std::rt::Clock;
use std::thread;
use std::time::{Duration, Instant};
use wfe_table::{Seat, Shared};

/// Failed tries before a reader asks for help.
pub const TRIES: u32 = 1;
/// Pairs for which a row has room.
pub const PAIRS: u32 = 6;
/// The most steps of a get under Wait-Free Eras, whatever other threads do.
pub const GET_STEPS: u64 = 3 * TRIES as u64 + 18 + PAIRS as u64;
/// The most steps of a hold under Wait-Free Eras, whatever other threads do.
pub const HOLD_STEPS: u64 = 3 * TRIES as u64 + 16;

// Keys of the bucket.
const KEYS: u64 = 4;

// Rounds between two looks at the clock.
const ROUNDS: u64 = 64;

// Milliseconds that the helper sleeps before its first call.
const SLEEP: u64 = 300;

/// How many gets and holds were made, the most steps that one of them took, and the most rows that
/// waited on the list of one seat after a put.
#[derive(Clone, Copy)]
pub struct Most {
    pub gets: u64,
    pub get_steps: u64,
    pub holds: u64,
    pub hold_steps: u64,
    pub list: usize,
}

impl Most {
    /// Before any call.
    pub fn none() -> Most {
        Most {
            gets: 0,
            get_steps: 0,
            holds: 0,
            hold_steps: 0,
            list: 0,
        }
    }

    // No call but a put, after which so many rows wait.
    fn of_list(list: usize) -> Most {
        Most {
            list,
            ..Most::none()
        }
    }

    /// With the calls of another thread.
    pub fn with(self, other: Most) -> Most {
        Most {
            gets: self.gets.saturating_add(other.gets),
            get_steps: self.get_steps.max(other.get_steps),
            holds: self.holds.saturating_add(other.holds),
            hold_steps: self.hold_steps.max(other.hold_steps),
            list: self.list.max(other.list),
        }
    }
}

/// A thread's seat.
#[derive(Drop)]
pub struct Caller {
    seat: Seat,
}

impl Caller {
    /// The caller of a seat.
    pub fn new(seat: Seat) -> Caller
        ensures { result.seat ≡ seat }
    {
        Caller { seat }
    }

    /// Calls for so many seconds, by the seat's part: the first seat is the helper's, which holds a row
    /// and never lets it go, and the next two are the movers'.
    pub fn work<R: Clock>(&mut self, rt: &R, shared: &Shared, seconds: u64) -> Most
        requires of { IsOf self.old.seat shared.now }
        ensures of { IsOf self.new.seat shared.now }
    {
        let mut most = Most::none();
        let Ok(start) = Instant::now(rt) else {
            return most;
        };
        let number = self.seat.number();
        if number == 0 {
            thread::sleep(rt, Duration::from_millis(SLEEP));
            let _ = self.hold(shared, 0);
        }
        for turn in 0..u64::MAX {
            for round in 0..ROUNDS {
                match number {
                    0 => {
                        shared.advance(&mut self.seat);
                    }
                    1 | 2 => most = most.with(self.change(shared, round % KEYS, turn)),
                    _ => most = most.with(self.read(shared, round % KEYS)),
                }
            }
            match start.elapsed(rt) {
                Ok(passed) if passed.as_secs() < seconds => {}
                _ => return most,
            }
        }
        most
    }

    // Puts a key, and moves the clock.
    fn change(&mut self, shared: &Shared, key: u64, value: u64) -> Most
        requires of { IsOf self.old.seat shared.now }
        ensures of { IsOf self.new.seat shared.now }
    {
        let _ = shared.put(&mut self.seat, key, value);
        let list = self.seat.list().len();
        shared.advance(&mut self.seat);
        Most::of_list(list)
    }

    // A get and a hold of the key.
    fn read(&mut self, shared: &Shared, key: u64) -> Most
        requires of { IsOf self.old.seat shared.now }
        ensures of { IsOf self.new.seat shared.now }
    {
        let get_steps = self.get(shared, key);
        let hold_steps = self.hold(shared, key);
        shared.release(&mut self.seat);
        Most {
            gets: 1,
            get_steps,
            holds: 1,
            hold_steps,
            list: 0,
        }
    }

    // The steps of a get.
    fn get(&mut self, shared: &Shared, key: u64) -> u64
        requires of { IsOf self.old.seat shared.now }
        ensures of { IsOf self.new.seat shared.now }
        ensures bound { shared.now.layout.config.scheme ≡ schemes.Wfe → result ≤ 3 * shared.now.layout.config.tries + 18 + shared.now.layout.config.pairs }
    {
        let _ = shared.get(&mut self.seat, key);
        self.seat.notes().steps
    }

    // The steps of a hold.
    fn hold(&mut self, shared: &Shared, key: u64) -> u64
        requires of { IsOf self.old.seat shared.now }
        ensures of { IsOf self.new.seat shared.now }
        ensures bound { shared.now.layout.config.scheme ≡ schemes.Wfe → result ≤ 3 * shared.now.layout.config.tries + 16 }
    {
        let _ = shared.hold(&mut self.seat, key);
        self.seat.notes().steps
    }
}
