//! A program that plays the cases of every command, in its `data`. It plays each case that lies in the folders where it runs,
//! as the program `wfe` would, and prints those whose output or status is not the one that is due. How many there were it says
//! on standard error, so that a case is added without a change of what this program must print.
#![tactic(auto)]

mod case;
mod folder;
mod judge;
mod outcome;

use case::{Case, Kind};
use folder::cases_in;
use judge::complaint;
use std::alloc::AllocError;
use std::io;
use std::process::ExitCode;
use std::rt::Runtime;
use std::thread::Threads;

// A folder for each command, and one for words that are no command.
const KINDS: [Kind; 5] = [
    Kind {
        folder: "replay",
        input: "trace",
        due: "record",
        has_words: false,
    },
    Kind {
        folder: "run",
        input: "trace",
        due: "run",
        has_words: false,
    },
    Kind {
        folder: "gen",
        input: "args",
        due: "summary",
        has_words: true,
    },
    Kind {
        folder: "check",
        input: "record",
        due: "verdict",
        has_words: false,
    },
    Kind {
        folder: "usage",
        input: "args",
        due: "usage",
        has_words: true,
    },
];

// How many cases were played well, and how many not.
#[derive(Clone, Copy)]
struct Counts {
    passed: u64,
    failed: u64,
}

impl Counts {
    fn add(&mut self, is_well: bool) {
        if is_well {
            self.passed = self.passed.saturating_add(1);
        } else {
            self.failed = self.failed.saturating_add(1);
        }
    }
}

// Plays a case, says what is wrong with it, and gives whether nothing is.
fn play_case<R: Threads + Sync + Print + AllocGlobal>(
    rt: &R,
    kind: &Kind,
    case: &Case,
) -> io::Result<bool> {
    match complaint(rt, kind, case)? {
        None => Ok(true),
        Some(text) => {
            let folder = kind.folder;
            println!(rt; "{folder}/{}: {text}", case.name)?;
            Ok(false)
        }
    }
}

fn play_each<R: Threads + Sync + Print + AllocGlobal>(
    rt: &R,
    kind: &Kind,
    cases: &[Case],
    counts: &mut Counts,
) -> io::Result<()> {
    for case in cases {
        let is_well = play_case(rt, kind, case)?;
        counts.add(is_well);
    }
    Ok(())
}

// Plays the cases of a folder. One without any, as where the program runs elsewhere, is wrong.
fn play_folder<R: Runtime + Threads + Sync + AllocGlobal>(
    rt: &R,
    kind: &Kind,
    counts: &mut Counts,
) -> io::Result<()> {
    let cases = cases_in(rt, kind)?;
    let folder = kind.folder;
    eprintln!(rt; "{folder}: {} cases", cases.len())?;
    if cases.is_empty() {
        println!(rt; "{folder}: there is no case")?;
        counts.add(false);
    }
    play_each(rt, kind, &cases, counts)
}

fn play_all<R: Runtime + Threads + Sync + AllocGlobal>(rt: &R) -> io::Result<Counts> {
    let mut counts = Counts {
        passed: 0,
        failed: 0,
    };
    for kind in &KINDS {
        play_folder(rt, kind, &mut counts)?;
    }
    eprintln!(rt; "{} passed, {} failed", counts.passed, counts.failed)?;
    Ok(counts)
}

fn main(rt: HostRuntime) -> ExitCode {
    match play_all(&rt) {
        Ok(counts) if counts.failed == 0 => ExitCode::SUCCESS,
        Ok(_) => ExitCode::FAILURE,
        Err(error) => {
            let _ = println!(&rt; "the cases could not be read: {error}");
            ExitCode::FAILURE
        }
    }
}
