//! The job that words ask for (`job.rt`), as `clap` reads them.
#![tactic(auto)]

mod job;

pub use job::{Job, job_of};
