// How machines end.

/// How a protection ends.
#[derive(Clone, Copy, Debug, PartialEq, Eq)]
pub enum ProtectEnd {
    /// The link leads to the row, and the guard publishes the era. Under 2GE it is the upper end.
    Held { slot: u32, era: u32 },
    /// The link was null.
    Null,
}

/// How the protection of a queue row's next link ends.
#[derive(Clone, Copy, Debug, PartialEq, Eq)]
pub enum FollowEnd {
    /// The next row is held: the head still led to its parent.
    Followed { slot: u32 },
    /// The next link was null.
    NoNext,
    /// The head has another value.
    RootMoved { seen: u64 },
}

/// How a walk over the rows ends.
#[derive(Clone, Copy, Debug, PartialEq, Eq)]
pub enum AllocateEnd {
    /// The row is this seat's, with the birth era in its lifetime word.
    Given { slot: u32, birth: u32 },
    /// Each row was seen taken at a step of the walk.
    Full,
}
