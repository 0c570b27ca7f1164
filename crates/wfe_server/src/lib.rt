//! A trace's calls on threads (`worker.rt`, `serve.rt`, `report.rt`), with `replay` handed on. A worker makes the calls of each seat
//! of a table that they share; then it prints what each made and what the table holds in the end.
#![tactic(auto)]

mod gate;
mod reader;
mod report;
mod serve;
mod threads;
mod worker;

pub use gate::{Gate, OpenGate};
pub use serve::run;
pub use threads::{RunRecord, run_threads};
pub use wfe_server_replay::{Rig, replay};
