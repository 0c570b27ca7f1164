//! A trace's bytes (`trace_bytes.rt`), its lines on a table (`progress.rt`, `play.rt`). It takes the bytes as they come, and puts the record out.
#![tactic(auto)]

mod play;
mod progress;
mod serve;
mod stop;
mod trace_bytes;
mod watched;

pub use serve::replay;
pub use trace_bytes::TraceBytes;
pub use watched::put_watched;
pub use wfe_drive::{Engine, PlainCells, Rig};
