//! Traces from a seed (`generator.rt`, `turn.rt`), with `replay` handed on. A generated trace is played on a table, and what is
//! put out is how often each kind of event came.
#![tactic(auto)]

mod generator;
mod report;
mod summary;
mod table;
mod turn;

pub use generator::generate;
pub use wfe_server_replay::{Rig, replay};
