//! Watchers that count: `garbage.rt`, `keys.rt`, `lists.rt`. They count how much garbage each seat made and gave back, how
//! often each key was put and removed, and the rows in each seat's retire list. What each shows is a function of the entries
//! that it was told.
#![tactic(auto)]

mod garbage;
mod keys;
mod lists;

pub use garbage::GarbageCounter;
pub use keys::KeyCounter;
pub use lists::ListCounter;
