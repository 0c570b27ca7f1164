// What a body line of a trace asks for.
use crate::Call;

/// A body line of a trace.
#[derive(Clone, Copy, Debug, PartialEq, Eq)]
pub enum Command {
    /// Starts a call.
    Call { seat: u32, call: Call },
    /// Performs so many units of a seat, 1 to 100,000, or fewer where its call ends.
    Step { seat: u32, units: u32 },
    /// Performs units of a seat until its call ends.
    Run { seat: u32 },
    /// Prints the counts of each seat.
    Table,
    End,
}
