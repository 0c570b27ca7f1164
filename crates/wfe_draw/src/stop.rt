// Why nothing is drawn.
ghost use Rattle.std.specs.Prelude.{◌≡◌};

use std::alloc::AllocError;
use wfe_trace::RecordReason;

/// Why no more of a record is taken, or it is not drawn. Lines are counted from 1.
#[derive(Clone, Copy)]
pub enum Stop {
    NoMemory,
    /// The first bad line.
    BadRecord { line: u64, reason: RecordReason },
    /// There are more entries, or more lanes, than a picture has room for.
    TooLarge,
}

/// Why there is nothing to draw.
#[derive(Clone, Copy)]
pub enum Unread {
    Fault,
    Stopped { stop: Stop },
}

/// Memory ran out.
pub const NO_MEMORY: Unread = Unread::Stopped {
    stop: Stop::NoMemory,
};

impl From<AllocError> for Stop {
    ghost use Rattle.wfe_draw.specs.declared.stop.Stop.TheVariants as stops;

    ghost from_gives = { λ _ stop. stop ≡ stops.NoMemory };

    fn from(_: AllocError) -> Stop {
        Stop::NoMemory
    }
}
