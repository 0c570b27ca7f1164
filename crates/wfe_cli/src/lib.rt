//! The command as a call: words, source, sink in, status out (`command.rt`), by the job that the words ask for. What it
//! promises is in `Headline.antt` and `Command.antt`.
#![tactic(auto)]

mod command;

pub use command::{exit_number, main_call};
pub use wfe_job::{Job, job_of};
pub use wfe_server::{Gate, OpenGate, RunRecord, run, run_threads};
