//! A program of calls on the threads' table for the benchmarks. `bench/threads.py` times calls (`calls.rt`), and `bench/stalled.py` counts
//! the steps of readers while a thread that helps them is stopped (`stalled.rt`):
//!
//!     wfe_bench SCHEME WORK THREADS CALLS
//!     wfe_bench SCHEME stalled SECONDS
//!
//! SCHEME is `he`, `ibr`, `wfe` or `hp`, and WORK is `reads`, `mixed`, `puts`, `pairs` or `apart`. Each thread makes
//! CALLS calls. Of these it prints how many there were and were refused, and the sum of the numbers and values that the others answered.
#![tactic(auto)]

mod calls;
mod stalled;

use calls::{Calls, Work, print_calls};
use stalled::print_stalled;
use std::env;
use std::process::ExitCode;
use std::rt::{Clock, Env};
use std::thread::Threads;
use wfe_table::SchemeKind;

const NO_MEMORY: &str = "memory ran out";

const USAGE: &str =
    "usage: wfe_bench he|ibr|wfe|hp reads|mixed|puts|pairs|apart THREADS CALLS, or wfe_bench he|ibr|wfe|hp stalled SECONDS";

/// What is to be run.
#[derive(Clone, Copy)]
enum Job {
    Calls { calls: Calls },
    Stalled { scheme: SchemeKind, seconds: u64 },
}

fn scheme_named(name: &str) -> Option<SchemeKind> {
    match name {
        "he" => Some(SchemeKind::He),
        "ibr" => Some(SchemeKind::Ibr),
        "wfe" => Some(SchemeKind::Wfe),
        "hp" => Some(SchemeKind::Hp),
        _ => None,
    }
}

fn calls_of(words: &[String]) -> Option<Calls> {
    let [scheme, work, threads, calls] = words else {
        return None;
    };
    Some(Calls {
        scheme: scheme_named(scheme.as_str())?,
        work: Work::named(work.as_str())?,
        threads: threads.as_str().parse().ok()?,
        calls: calls.as_str().parse().ok()?,
    })
}

fn stalled_of(words: &[String]) -> Option<(SchemeKind, u64)> {
    let [scheme, work, seconds] = words else {
        return None;
    };
    if work.as_str() != "stalled" {
        return None;
    }
    Some((
        scheme_named(scheme.as_str())?,
        seconds.as_str().parse().ok()?,
    ))
}

fn job_of(words: &[String]) -> Option<Job> {
    if let Some((scheme, seconds)) = stalled_of(words) {
        return Some(Job::Stalled { scheme, seconds });
    }
    let calls = calls_of(words)?;
    Some(Job::Calls { calls })
}

fn run<R: Threads + Clock + Sync + AllocGlobal + Print>(
    rt: &R,
    job: Job,
) -> Result<ExitCode, &'static str> {
    match job {
        Job::Calls { calls } => print_calls(rt, calls),
        Job::Stalled { scheme, seconds } => print_stalled(rt, scheme, seconds),
    }
}

fn main(rt: HostRuntime) -> ExitCode {
    let words = match env::args(&rt) {
        Ok(all) => all.skip(1).collect::<Vec<String>>(rt.alloc()),
        Err(_) => return ExitCode::FAILURE,
    };
    let Ok(words) = words else {
        return ExitCode::FAILURE;
    };
    let Some(job) = job_of(&words) else {
        let _ = eprintln!(&rt; "{USAGE}");
        return ExitCode::FAILURE;
    };
    match run(&rt, job) {
        Ok(code) => code,
        Err(fault) => {
            let _ = eprintln!(&rt; "{fault}");
            ExitCode::FAILURE
        }
    }
}
