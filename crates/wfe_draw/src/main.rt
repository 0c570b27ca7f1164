//! A program that draws a record: it reads one, and writes a picture of it, an SVG document.
#![tactic(auto)]

mod command;
mod line;
mod part;
mod reader;
mod record;
mod stop;

use command::{Outcome, exit_number, main_call};
use std::alloc::AllocError;
use std::io::BufWriter;
use std::process::ExitCode;
use std::rt::Env;
use std::{env, io, str};
use wfe_outside::{StdSink, StdSource};
use wfe_trace::{Line, print_bad_record};

// Bytes that standard output keeps before it hands them on.
const BUFFER: usize = 65_536;

// The words after the program's name. Where they can't be had as text they ask for nothing.
fn words_given(rt: &(impl Env + AllocGlobal)) -> Result<Vec<String>, AllocError> {
    match env::args(rt) {
        Ok(all) => all.skip(1).collect(rt.alloc()),
        Err(_) => {
            let mut none = Vec::new(rt.alloc());
            none.push(String::new(rt.alloc()))?;
            Ok(none)
        }
    }
}

// Says on standard error why nothing was drawn.
fn say(rt: &impl Eprint, outcome: Outcome) {
    let _ = match outcome {
        Outcome::Usage => eprintln!(rt; "usage: wfe_draw [--from LINE] [--to LINE]"),
        Outcome::TooLarge => {
            eprintln!(rt;
                "a picture has room for 2000 entries and 10000 lanes: choose a part by --from LINE --to LINE"
            )
        }
        Outcome::BadRecord { line: at, reason } => {
            let mut line = Line::new();
            print_bad_record(at, reason, &mut line);
            eprint!(rt; "{}", str::from_utf8(line.bytes()).unwrap_or(""))
        }
        Outcome::Drawn | Outcome::ReadFault | Outcome::WriteFault | Outcome::NoMemory => Ok(()),
    };
}

fn main(rt: HostRuntime) -> ExitCode {
    let alloc = rt.alloc();
    let Ok(words) = words_given(&rt) else {
        return ExitCode::from(exit_number(Outcome::NoMemory));
    };
    let mut source = StdSource::new(rt.reader());
    let Ok(writer) = BufWriter::with_capacity(alloc, BUFFER, io::writer(&rt)) else {
        return ExitCode::from(exit_number(Outcome::NoMemory));
    };
    let mut sink = StdSink::new(writer);
    let outcome = main_call(alloc, &words, &mut source, &mut sink);
    let outcome = match sink.flush() {
        Ok(()) => outcome,
        Err(_) => Outcome::WriteFault,
    };
    say(&rt, outcome);
    ExitCode::from(exit_number(outcome))
}
