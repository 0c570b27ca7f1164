// The calls that a seat makes, and their answers.

/// A call on a seat. Keys and values are any numbers of 64 bits.
#[derive(Clone, Copy, Debug, PartialEq, Eq)]
pub enum Call {
    Get { key: u64 },
    Put { key: u64, value: u64 },
    Remove { key: u64 },
    Enqueue { value: u64 },
    Dequeue,
    /// Protects a key's row until it is released.
    Hold { key: u64 },
    Release,
    /// Tries once to move the clock.
    Advance,
    /// Reads all guards, and gives back the retired rows that none of them covers.
    Scan,
    /// Protects what stands at an index from 2 on at a higher one too.
    Copy { from: u32, index: u32 },
    /// Lets go of what stands at an index from 2 on.
    DropIndex { index: u32 },
    /// Reads the key's value in the row that stands at an index from 2 on.
    Look { index: u32, key: u64 },
    /// A put where the bucket is at this version, and at no other.
    PutIf { key: u64, value: u64, version: u64 },
    /// Lets go of all that stands, and leaves the retire list for another seat. It is the seat's last
    /// call.
    Leave,
    /// Takes over the retire list that the seat of this number has left.
    Adopt { place: u32 },
}

/// How one try to move the clock ended.
#[derive(Clone, Copy, Debug, PartialEq, Eq)]
pub enum ClockMove {
    /// No move was due.
    Still,
    /// This call moved the clock to the era.
    Moved { era: u32 },
    /// The clock was seen at a greater era than the one loaded first.
    Other { seen: u32 },
    /// The clock stands at its last era.
    EraSpent { era: u32 },
}

/// What a call answers.
#[derive(Clone, Copy, Debug, PartialEq, Eq)]
pub enum Answer {
    /// The key's value at a version of its bucket.
    Got {
        version: u64,
        value: Option<u64>,
    },
    /// The change is the bucket's at this version.
    Done {
        version: u64,
        clock: ClockMove,
    },
    /// The key has no value at this version.
    Absent {
        version: u64,
    },
    /// No row was free.
    Full,
    /// The row at this version has no room for another key.
    BucketFull {
        version: u64,
    },
    /// The bucket's version, or the queue's number, is the last.
    Spent {
        number: u64,
    },
    /// The item's number in the queue.
    Queued {
        number: u64,
    },
    /// The item at the queue's front.
    Taken {
        number: u64,
        value: u64,
        clock: ClockMove,
    },
    Empty,
    /// The row that is held.
    Holding {
        slot: u32,
    },
    Nothing,
    Released,
    Clock {
        outcome: ClockMove,
    },
    /// How many retired rows stay, and how many went back.
    Scanned {
        kept: u32,
        back: u32,
    },
    /// The row that stands at both indexes.
    Copied {
        slot: u32,
    },
    Dropped,
    /// The row that stands at the index, its version, and the key's value there.
    Looked {
        slot: u32,
        version: u64,
        value: Option<u64>,
    },
    /// The bucket's version is another than the call names.
    Stale {
        version: u64,
    },
    /// How many retired rows the seat left.
    Left {
        count: u32,
    },
    /// How many retired rows were taken over.
    Adopted {
        count: u32,
    },
    /// The seat has left no list so far.
    NotLeft,
    /// The seat's list was taken over before.
    AdoptedBefore,
}
