// Why no more of a record is taken.
use wfe_trace::RecordReason;

/// The first bad line of a record. Lines are counted from 1.
#[derive(Clone, Copy, Debug, PartialEq, Eq)]
pub struct BadLine {
    pub line: u64,
    pub reason: RecordReason,
}

/// Why no more of a record is taken.
#[derive(Clone, Copy, Debug, PartialEq, Eq)]
pub enum Stop {
    Bad { bad: BadLine },
    /// The entries up to this line are not good.
    Unlawful { line: u64 },
    NoMemory,
}

/// Why a line is not taken.
#[derive(Clone, Copy, Debug, PartialEq, Eq)]
pub enum Refusal {
    Bad { reason: RecordReason },
    /// The entries up to this one are not good.
    Unlawful,
    NoMemory,
}
