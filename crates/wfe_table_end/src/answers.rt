// What calls on a seat answer.
use wfe_defs::ClockMove;

/// A key's value, or that it has none, at a version of its bucket. Version 0 is that of a bucket that was
/// never changed.
#[derive(Clone, Copy, Debug, PartialEq, Eq)]
pub struct Got {
    pub version: u64,
    pub value: Option<u64>,
}

/// A change is the bucket's at this version, from 1. Of the clock: `Still`, unless it made a move due.
#[derive(Clone, Copy, Debug, PartialEq, Eq)]
pub struct Done {
    pub version: u64,
    pub clock: ClockMove,
}

/// An item has this number in the queue, from 1.
#[derive(Clone, Copy, Debug, PartialEq, Eq)]
pub struct Queued {
    pub number: u64,
}

/// The item that was at the queue's front, with its number from 1. Of the clock: as of a change.
#[derive(Clone, Copy, Debug, PartialEq, Eq)]
pub struct Taken {
    pub number: u64,
    pub value: u64,
    pub clock: ClockMove,
}

/// How many retired rows of the seat stay, and how many went back.
#[derive(Clone, Copy, Debug, PartialEq, Eq)]
pub struct Scanned {
    pub kept: u32,
    pub back: u32,
}

/// What a row that stands at an index of the seat shows of a key: the row's slot, the version of its
/// bucket, and the key's value at that version.
#[derive(Clone, Copy, Debug, PartialEq, Eq)]
pub struct Looked {
    pub slot: u32,
    pub version: u64,
    pub value: Option<u64>,
}

/// What came of taking over the list of a seat.
#[derive(Clone, Copy, Debug, PartialEq, Eq)]
pub enum AdoptEnd {
    /// So many rows were on it, which are on the adopter's list now.
    Adopted { count: u32 },
    /// That seat had not left.
    NotLeft,
    /// That seat's list had been taken over.
    AdoptedBefore,
}
