//! Deleters of objects outside the table (`finals.rt`, `watcher.rt`). Such an object belongs to a retired slot. Each deleter is
//! called once, after its slot went back, and is then dropped.
#![tactic(auto)]

mod deleter;
mod finals;
mod ledger;
mod records;
mod watcher;

pub use deleter::Deleter;
pub use finals::Finals;
pub use ledger::Ledger;
pub use records::deleters_are_called_once;
pub use watcher::FinalWatcher;
pub use wfe_outside::{Event, NoMemory, WatchRow, Watcher};
