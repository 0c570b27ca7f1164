//! The program: what its words ask for, by `main_call`. It replays a trace of calls on a map and a queue, runs it on threads,
//! checks a record, or prints a summary of a generated trace.
#![tactic(auto)]

use std::alloc::AllocError;
use std::io::BufWriter;
use std::process::ExitCode;
use std::rt::Env;
use std::{env, io};
use wfe_cli::{exit_number, main_call};
use wfe_outside::{StdSink, StdSource, Watcher};
use wfe_trace::Status;
use wfe_watch::KeyCounter;

// Bytes that standard output keeps before it hands them on.
const BUFFER: usize = 65_536;

// The words after the program's name. Where they can't be had as text they are no command.
fn words_given(rt: &(impl Env + AllocGlobal)) -> Result<Vec<String>, AllocError> {
    match env::args(rt) {
        Ok(all) => all.skip(1).collect(rt.alloc()),
        Err(error) => match error.kind() {
            io::ErrorKind::OutOfMemory => Err(AllocError),
            _ => Ok(Vec::new(rt.alloc())),
        },
    }
}

fn main(rt: HostRuntime) -> ExitCode {
    let alloc = rt.alloc();
    let Ok(words) = words_given(&rt) else {
        return ExitCode::from(exit_number(Status::NoMemory));
    };
    let mut source = StdSource::new(rt.reader());
    let Ok(writer) = BufWriter::with_capacity(alloc, BUFFER, io::writer(&rt)) else {
        return ExitCode::from(exit_number(Status::NoMemory));
    };
    let mut sink = StdSink::new(writer);
    let mut watchers: Vec<Box<dyn Watcher>> = Vec::new(alloc);
    let Ok(counter) = Box::new(alloc, KeyCounter::new(alloc)) else {
        return ExitCode::from(exit_number(Status::NoMemory));
    };
    if watchers.push(counter).is_err() {
        return ExitCode::from(exit_number(Status::NoMemory));
    }
    let status = main_call(&rt, alloc, &words, &mut source, &mut sink, &mut watchers);
    let status = match sink.flush() {
        Ok(()) => status,
        Err(_) => Status::WriteFault,
    };
    ExitCode::from(exit_number(status))
}
