//! Checker: map and queue (`contents.rt`), retire lists, and scans (`lists.rt`). That is the changes of each bucket and the
//! values queued, as the laws of the two read them off the entries so far. A key's value at a version is found by the key's own
//! changes, each of which names an earlier one and one further back. They are kept for as long as the record goes on, since a
//! get of a reader that stood still may name any version since its call began: that, and values that wait, is all that grows
//! with a record. Of lists it is which lives each seat's has, what the seat has read of its block of guards, and which life
//! goes back next.
#![tactic(auto)]

mod bucket;
mod contents;
mod guards;
mod lists;
mod queue;
mod seat;

pub use contents::Contents;
pub use lists::Lists;
