//! Sources, sinks, watchers (`stream.rt`, `watcher.rt`, `real.rt`). They are where bytes come from, where they go, and who is
//! told of events. Sources and sinks count their faults, so that an answer which names a fault has its cause.
#![tactic(auto)]

mod count;
mod memory;
mod real;
mod stream;
mod watcher;

pub use count::CountSink;
pub use memory::{CleanSource, MemSink, MemSource};
pub use real::{StdSink, StdSource};
pub use stream::{Failed, Sink, Source};
pub use watcher::{WatchRow, Watcher};
pub use wfe_defs::{Call, Command, Event, NoMemory};
