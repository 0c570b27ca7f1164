// What the slot of a seat holds.
use wfe_core::{Call, RetireList};

/// What lies in the slot of a seat; else the slot is empty.
#[derive(Drop)]
pub enum Kept {
    /// A call that has begun and has made no step yet.
    Begun { call: Call },
    /// The list of a seat that leaves or has left. While the seat has the slot, `first` says whether its
    /// leave has made no step yet.
    Left { list: RetireList, first: bool },
}
