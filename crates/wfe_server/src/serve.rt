// Runs a trace: reads it whole, makes each seat's calls by a worker, and prints what came of it.
ghost use Rattle.std.specs.Prelude.{◌≡◌, ◌≢◌, ◌≤◌, ◌<◌, ◌⊎◌, Err, List, None, Ok, Option, Some, length, ℕ};
ghost use Rattle.std.specs.Io.KnownBytes.{IsAtEnd};
ghost use Rattle.wfe_outside.specs.Faults.{Rose};
ghost use Rattle.wfe_server_out.specs.Heard.{boxed};
ghost use Rattle.wfe_server_replay.specs.Sunk.{outside};
ghost use Rattle.wfe_server_replay.specs.Trace.{progress_start};
ghost use Rattle.wfe_server_replay.specs.Watched.{watch_text};
ghost use Rattle.wfe_server.specs.Reads.{Ends, Gives, Reads, Turns, came, unread_by};
ghost use Rattle.wfe_server.specs.Runs.{IsComplete, IsPrinted, Refuses, Runs};
ghost use Rattle.wfe_trace.specs.words.Config.{bad_field};

use crate::reader::{Reader, Stop};
use crate::report::print_run;
use crate::{Gate, run_threads};
use std::alloc::Global;
use std::thread::Threads;
use wfe_outside::{Failed, Sink, Source, Watcher};
use wfe_server_lines::Scripts;
use wfe_server_out::put_line;
use wfe_trace::{BadLine, Line, Mode, Status, print_bad};

/// Why no more of the source is read.
#[derive(Clone, Copy)]
pub enum Ending {
    AtEnd,
    NoRead,
    Stopped { stop: Stop },
}

/// Why there are no scripts.
#[derive(Clone, Copy)]
pub enum Unread {
    Bad { bad: BadLine },
    Fault,
    NoMemory,
}

// Reads once, and takes what came.
fn turn<S: Source>(
    alloc: Global,
    source: &mut S,
    piece: &mut [u8],
    reader: &mut Reader,
) -> Option<Ending>
    requires { 0 < length piece.old }
    ensures turned { Turns result (S.left source.old) (S.left source.new) reader.old reader.new }
    ensures source { S.faults source.old ≤ S.faults source.new }
    ensures read { result ≡ Some Ending.NoRead → Rose S.may_stand (S.faults source.old) (S.faults source.new) }
{
    match source.read(piece) {
        Err(_) => Some(Ending::NoRead),
        Ok(0) => Some(Ending::AtEnd),
        Ok(count) => match reader.take_bytes(alloc, &piece[..count]) {
            Ok(()) => None,
            Err(stop) => Some(Ending::Stopped { stop }),
        },
    }
}

// Reads a trace from its start, until no more of it is read.
fn read_all<S: Source>(
    alloc: Global,
    source: &mut S,
    piece: &mut [u8],
    reader: &mut Reader,
) -> Ending
    requires some { 0 < length piece.old }
    requires fresh { reader.old ≡ progress_start Mode.Run }
    ensures ended { Ends result (S.left source.old) (S.left source.new) (progress_start Mode.Run) reader.new }
    ensures source { S.faults source.old ≤ S.faults source.new }
    ensures read { result ≡ Ending.NoRead → Rose S.may_stand (S.faults source.old) (S.faults source.new) }
{
    // Each turn takes a byte, and a trace with a byte more than these is bad.
    for _ in 0..16_777_217u32 {
        if let Some(ending) = turn(alloc, source, piece, reader) {
            return ending;
        }
    }
    unreachable!()
}

// Why a stop leaves no scripts.
fn why_unread(stop: Stop) -> Unread
    ensures { result ≡ unread_by stop }
{
    match stop {
        Stop::Bad { bad } => Unread::Bad { bad },
        Stop::NoMemory => Unread::NoMemory,
    }
}

// The scripts that were read to the input's end, once that is judged.
fn finish(alloc: Global, mut reader: Reader) -> Result<Scripts, Unread>
    requires { (taken : List ℕ) × (came taken ≡ Ok reader) }
    ensures gives { (taken : List ℕ) (left : Option (List ℕ)) → came taken ≡ Ok reader → IsAtEnd left → Gives taken left result }
    ensures fault { result ≢ Err Unread.Fault }
{
    match reader.finish(alloc) {
        Ok(()) => match reader.scripts() {
            Some(scripts) => Ok(scripts),
            None => unreachable!(),
        },
        Err(stop) => Err(why_unread(stop)),
    }
}

// The scripts that were read, or why there are none.
fn conclude(alloc: Global, ending: Ending, reader: Reader) -> Result<Scripts, Unread>
    requires { (before : Option (List ℕ)) × (left : Option (List ℕ)) × Ends ending before left (progress_start Mode.Run) reader }
    ensures reads { (before left : Option (List ℕ)) → Ends ending before left (progress_start Mode.Run) reader → Reads before left result }
    ensures fault { result ≡ Err Unread.Fault → ending ≡ Ending.NoRead }
{
    match ending {
        Ending::NoRead => Err(Unread::Fault),
        Ending::Stopped { stop } => Err(why_unread(stop)),
        Ending::AtEnd => finish(alloc, reader),
    }
}

// The scripts of the trace that the source has.
fn read_trace<S: Source>(alloc: Global, source: &mut S) -> Result<Scripts, Unread>
    ensures reads { Reads (S.left source.old) (S.left source.new) result }
    ensures source { S.faults source.old ≤ S.faults source.new }
    ensures fault { result ≡ Err Unread.Fault → Rose S.may_stand (S.faults source.old) (S.faults source.new) }
{
    let Ok(mut piece) = vec![in alloc; 0u8; 65_536] else {
        return Err(Unread::NoMemory);
    };
    let mut reader = Reader::new();
    let ending = read_all(alloc, source, &mut piece, &mut reader);
    conclude(alloc, ending, reader)
}

// Writes the first bad line of a trace.
fn refuse<K: Sink>(sink: &mut K, bad: BadLine) -> Status
    ensures refused { Refuses result bad (K.written sink.old) (K.written sink.new) }
    ensures later { K.faults sink.old ≤ K.faults sink.new }
    ensures read { result ≢ Status.ReadFault }
    ensures cause { result ≡ Status.WriteFault → Rose K.may_stand (K.faults sink.old) (K.faults sink.new) }
{
    let mut line = Line::new();
    print_bad(&bad, &mut line);
    match put_line(sink, &line) {
        Ok(()) => Status::BadTrace {
            line: bad.line,
            reason: bad.reason,
        },
        Err(_) => Status::WriteFault,
    }
}

// Makes the scripts, each by a worker, and prints what came of it.
fn run_scripts<R: Threads + Sync, G: Gate, K: Sink>(
    rt: &R,
    alloc: Global,
    gate: &G,
    scripts: Scripts,
    sink: &mut K,
    watchers: &mut [Box<dyn Watcher>],
) -> Status
    ensures made { IsPrinted (boxed stands) result (watch_text shown shows watchers.new) scripts (outside (K.written sink.old) watchers.old) (outside (K.written sink.new) watchers.new)
        ⊎ ((result ≡ Status.NoMemory) × (outside (K.written sink.new) watchers.new ≡ outside (K.written sink.old) watchers.old)) }
    ensures config { bad_field scripts.config ≡ None }
    ensures scripts { length scripts.scripts ≡ scripts.config.seats }
    ensures later { K.faults sink.old ≤ K.faults sink.new }
    ensures cause { result ≡ Status.WriteFault → Rose K.may_stand (K.faults sink.old) (K.faults sink.new) }
{
    let (version, config, calls) = scripts.parts();
    let Ok(record) = run_threads(rt, alloc, config, calls, gate) else {
        return Status::NoMemory;
    };
    print_run(sink, watchers, version, &config, &record)
}

// Runs a trace.
fn run_in<R: Threads + Sync, G: Gate, S: Source, K: Sink>(
    rt: &R,
    alloc: Global,
    gate: &G,
    source: &mut S,
    sink: &mut K,
    watchers: &mut [Box<dyn Watcher>],
) -> Status
    ensures said { Runs (boxed stands) result (watch_text shown shows watchers.new) (S.left source.old) (S.left source.new) (outside (K.written sink.old) watchers.old) (outside (K.written sink.new) watchers.new) }
    ensures source { S.faults source.old ≤ S.faults source.new }
    ensures sink { K.faults sink.old ≤ K.faults sink.new }
    ensures read { result ≡ Status.ReadFault → Rose S.may_stand (S.faults source.old) (S.faults source.new) }
    ensures write { result ≡ Status.WriteFault → Rose K.may_stand (K.faults sink.old) (K.faults sink.new) }
{
    match read_trace(alloc, source) {
        Ok(scripts) => run_scripts(rt, alloc, gate, scripts, sink, watchers),
        Err(Unread::Bad { bad }) => refuse(sink, bad),
        Err(Unread::Fault) => Status::ReadFault,
        Err(Unread::NoMemory) => Status::NoMemory,
    }
}

/// Reads a trace to its end, makes the calls of each of its seats by a worker, with a table that they
/// share, and prints what each made and what they left. A bad trace prints its first bad line alone.
/// Each event is told to the watchers before its line is written. The status says what was read, what
/// was made, and what was put out.
pub fn run<R: Threads + Sync, G: Gate, S: Source, K: Sink>(
    rt: &R,
    alloc: Global,
    gate: &G,
    source: &mut S,
    sink: &mut K,
    watchers: &mut Vec<Box<dyn Watcher>>,
) -> Status
    ensures said { Runs (boxed stands) result (watch_text shown shows watchers.new.items) (S.left source.old) (S.left source.new) (outside (K.written sink.old) watchers.old.items) (outside (K.written sink.new) watchers.new.items) }
    // A trace in the grammar is run whole, but for a fault of the source or the sink, and for want of memory.
    ensures complete { IsComplete result (S.left source.old) (Rose S.may_stand (S.faults source.old) (S.faults source.new)) (Rose K.may_stand (K.faults sink.old) (K.faults sink.new)) }

    // A fault is told only where its count rose.
    ensures source { S.faults source.old ≤ S.faults source.new }
    ensures sink { K.faults sink.old ≤ K.faults sink.new }
    ensures read { result ≡ Status.ReadFault → Rose S.may_stand (S.faults source.old) (S.faults source.new) }
    ensures write { result ≡ Status.WriteFault → Rose K.may_stand (K.faults sink.old) (K.faults sink.new) }
{
    run_in(rt, alloc, gate, source, sink, watchers)
}
