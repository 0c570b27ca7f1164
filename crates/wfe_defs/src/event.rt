// What a step tells of itself.
use crate::{Answer, Call, Interval};

/// A word that publishes a reservation, or a row.
#[derive(Clone, Copy, Debug, PartialEq, Eq)]
pub enum Guard {
    /// The seat's helper word (Nikolaev and Ravindran 2020).
    Helper { seat: u32 },
    /// One of the seat's index words.
    Index { seat: u32, index: u32 },
    /// The seat's interval word (Wen and others 2018).
    Whole { seat: u32 },
}

/// A word that links a row.
#[derive(Clone, Copy, Debug, PartialEq, Eq)]
pub enum Root {
    Bucket(u32),
    Head,
    Tail,
    /// The next link of a row of the queue.
    Next(u32),
}

/// An event of one seat. Slots are row numbers; eras count from 1; steps are atomic steps of the
/// seat.
#[derive(Clone, Copy, Debug, PartialEq, Eq)]
pub enum Event {
    Begin {
        call: Call,
    },
    /// The call ends, after so many steps since its start.
    End {
        steps: u64,
        answer: Answer,
    },
    /// The clock moves to the era.
    Era {
        era: u32,
    },
    /// A guard publishes an interval, or nothing.
    Reserve {
        guard: Guard,
        span: Option<Interval>,
    },
    /// A scan reads a guard.
    Read {
        guard: Guard,
        span: Option<Interval>,
    },
    /// A guard publishes a row, or nothing (Michael 2004).
    Hazard {
        guard: Guard,
        slot: Option<u32>,
    },
    /// A scan reads a guard that publishes rows.
    Saw {
        guard: Guard,
        slot: Option<u32>,
    },
    /// A free row is taken, with its birth era.
    Give {
        slot: u32,
        birth: u32,
    },
    /// A row that was given and not linked is free again.
    Unused {
        slot: u32,
    },
    Link {
        root: Root,
        slot: u32,
    },
    /// A row leaves its root.
    Cut {
        slot: u32,
    },
    /// A cut row gets its retire era.
    Retire {
        slot: u32,
        birth: u32,
        retire: u32,
    },
    /// A retired row is free again.
    Back {
        slot: u32,
    },
    /// A row stands protected at an index, after so many steps of the protection.
    Held {
        index: u32,
        slot: u32,
        steps: u64,
    },
    /// A protection found a null link.
    Null {
        index: u32,
        steps: u64,
    },
    /// What stood at an index stands there no more.
    Clear {
        index: u32,
        slot: u32,
    },
    /// What stands at an index stands at a higher one too.
    Copied {
        from: u32,
        index: u32,
        slot: u32,
    },
    Put {
        bucket: u32,
        version: u64,
        key: u64,
        value: u64,
    },
    Removed {
        bucket: u32,
        version: u64,
        key: u64,
    },
    Got {
        bucket: u32,
        version: u64,
        key: u64,
        value: Option<u64>,
    },
    Queued {
        number: u64,
        value: u64,
    },
    Taken {
        number: u64,
        value: u64,
    },
    /// The seat leaves its list, of so many retired rows, for another seat.
    Left {
        count: u32,
    },
    /// The list that the seat of this number has left, of so many retired rows, is this seat's from
    /// here on.
    Adopted {
        place: u32,
        count: u32,
    },
}
