//! Lines to a sink, events to watchers first (`telling.rt`, `Emits.antt`). No call here takes memory.
#![tactic(auto)]

mod fault;
mod size;
mod telling;
mod write;

pub use fault::Fault;
pub use telling::{tell, tell_all};
pub use write::{put_line, write_all};
