// What a record comes to.
use crate::stops::BadLine;

/// What a record that was read comes to. Lines are counted from 1.
#[derive(Clone, Copy, Debug, PartialEq, Eq)]
pub enum Verdict {
    /// It was read to its end, and its entries, so many, are good.
    Lawful { count: u64 },
    Bad { bad: BadLine },
    /// The entries up to this line are not good, and those before it are.
    Unlawful { line: u64 },
}
