// A turn of a generated trace.
ghost use Rattle.std.specs.Prelude.{◌≡◌, ◌<◌, ◌≤◌, None};
ghost use Rattle.wfe_server_gen.specs.Turns.{call_of, setting, turn_call, turn_seat, turn_units};
ghost use Rattle.wfe_trace.specs.words.Config.{bad_field};

use wfe_outside::Call;
use wfe_trace::{Config, SchemeKind};

/// The setting of each generated trace.
pub fn fixed() -> Config
    ensures value { result ≡ setting }
    ensures good { bad_field result ≡ None }
{
    Config {
        scheme: SchemeKind::Wfe,
        seats: 4,
        indexes: 3,
        slots: 4096,
        buckets: 16,
        tries: 4,
        every: 8,
        last_era: 4_294_967_295,
        last_version: 281_474_976_710_656,
        pairs: 6,
    }
}

/// A call of a seat, and how many of its units are made.
#[derive(Clone, Copy, Debug, PartialEq, Eq)]
pub struct Turn {
    pub seat: u32,
    pub call: Call,
    pub units: u32,
}

// The call of a kind.
fn choose(kind: u32, key: u64, value: u64) -> Call
    ensures { result ≡ call_of kind key value }
{
    match kind {
        0 | 1 => Call::Get { key },
        2 | 3 | 4 => Call::Put { key, value },
        5 => Call::Remove { key },
        6 => Call::Enqueue { value },
        _ => Call::Dequeue,
    }
}

impl Turn {
    /// The turn of two words.
    pub fn of(a: u32, b: u32) -> Turn
        ensures { result ≡ record { seat = turn_seat a; call = turn_call a b; units = turn_units b } }
    {
        Turn {
            seat: a % 4,
            call: choose(a / 4 % 8, (a / 32 % 64).into(), b.into()),
            units: 1 + b % 40,
        }
    }
}
