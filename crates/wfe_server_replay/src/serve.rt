// Replays a trace: reads it in pieces, and puts out the record of the one history that its lines give.
ghost use Rattle.wfe_server_out.specs.Heard.{boxed};
ghost use Rattle.std.specs.Prelude.{◌≡◌, ◌≢◌, ◌≤◌, ◌<◌, ◌⊎◌, ℕ, List, Option, [], ◌∷◌, codes, length, Some};
ghost use Rattle.wfe_outside.specs.Faults.{Rose};
ghost use Rattle.wfe_server_replay.specs.Ends.{Turns, Ends, Closes, StopCloses};
ghost use Rattle.wfe_server_replay.specs.Replay.{Replays};
ghost use Rattle.wfe_server_replay.specs.Run.{PlayerReplays};
ghost use Rattle.wfe_server_replay.specs.Sunk.{Outside, outside};
ghost use Rattle.wfe_server_replay.specs.Trace.{progress_start};
ghost use Rattle.wfe_server_replay.specs.Watched.{WatchersFit, watch_text};
ghost use Rattle.wfe_server_out.specs.Pieces.{Text};

use crate::progress::Work;
use crate::stop::Stop;
use crate::watched::put_watched;
use std::alloc::Global;
use wfe_drive::Engine;
use wfe_outside::{Sink, Source, Watcher};
use wfe_server_out::{Fault, write_all};
use wfe_trace::{Line, Mode, Status, print_bad};

/// Why no more of the source is read.
#[derive(Clone, Copy)]
pub enum Ending {
    AtEnd,
    NoRead,
    Stopped { stop: Stop },
}

// Reads once, and takes what came.
fn turn<E: Engine, S: Source, K: Sink>(
    alloc: Global,
    source: &mut S,
    sink: &mut K,
    watchers: &mut [Box<dyn Watcher>],
    piece: &mut [u8],
    work: &mut Work<E>,
) -> Option<Ending>
    requires { 0 < length piece.old }
    ensures turned { Turns E.taken (boxed stands) result (S.left source.old) (S.left source.new) (outside (K.written sink.old) watchers.old) (outside (K.written sink.new) watchers.new) work.old work.new }
    ensures source { S.faults source.old ≤ S.faults source.new }
    ensures sink { K.faults sink.old ≤ K.faults sink.new }
    ensures read { result ≡ Some Ending.NoRead → Rose S.may_stand (S.faults source.old) (S.faults source.new) }
    ensures write { result ≡ Some (Ending.Stopped (Stop.Fault Fault.Write)) → Rose K.may_stand (K.faults sink.old) (K.faults sink.new) }
{
    match source.read(piece) {
        Err(_) => Some(Ending::NoRead),
        Ok(0) => Some(Ending::AtEnd),
        Ok(count) => match work.take_bytes(alloc, &piece[..count], sink, watchers) {
            Ok(()) => None,
            Err(stop) => Some(Ending::Stopped { stop }),
        },
    }
}

// Writes a last line, and then the status holds.
fn close<K: Sink>(
    sink: &mut K,
    watchers: &[Box<dyn Watcher>],
    line: &[u8],
    status: Status,
) -> Status
    ensures closed { Closes (boxed stands) result status (outside (K.written sink.old) watchers.now) (outside (K.written sink.new) watchers.now) (Text line.now ∷ []) }
    ensures one { (result ≡ status) ⊎ (result ≡ Status.WriteFault) }
    ensures later { K.faults sink.old ≤ K.faults sink.new }
    ensures cause { result ≡ Status.WriteFault → (status ≡ Status.WriteFault) ⊎ Rose K.may_stand (K.faults sink.old) (K.faults sink.new) }
{
    match write_all(sink, line) {
        Ok(()) => status,
        Err(_) => Status::WriteFault,
    }
}

// Writes the rows of the watchers and that the work is done.
fn close_done<K: Sink>(sink: &mut K, watchers: &[Box<dyn Watcher>]) -> Status
    ensures closed { Closes (boxed stands) result Status.Done (outside (K.written sink.old) watchers.now) (outside (K.written sink.new) watchers.now) (Text (watch_text shown shows watchers.now) ∷ Text (codes "done\n") ∷ []) }
    ensures fits { result ≡ Status.Done → WatchersFit shown shows watchers.now }
    ensures later { K.faults sink.old ≤ K.faults sink.new }
    ensures cause { result ≡ Status.WriteFault → Rose K.may_stand (K.faults sink.old) (K.faults sink.new) }
    ensures read { result ≢ Status.ReadFault }
{
    match put_watched(sink, watchers) {
        Ok(()) => close(sink, watchers, b"done\n", Status::Done),
        Err(_) => Status::WriteFault,
    }
}

// The status after a stop: a bad line is written down.
fn stopped<K: Sink>(sink: &mut K, watchers: &[Box<dyn Watcher>], stop: Stop) -> Status
    ensures closed { StopCloses (boxed stands) stop result (outside (K.written sink.old) watchers.now) (outside (K.written sink.new) watchers.now) }
    ensures undone { result ≢ Status.Done }
    ensures later { K.faults sink.old ≤ K.faults sink.new }
    ensures read { result ≢ Status.ReadFault }
    ensures cause { result ≡ Status.WriteFault → (stop ≡ Stop.Fault Fault.Write) ⊎ Rose K.may_stand (K.faults sink.old) (K.faults sink.new) }
{
    match stop {
        Stop::Bad { bad } => {
            let mut line = Line::new();
            print_bad(&bad, &mut line);
            close(
                sink,
                watchers,
                line.bytes(),
                Status::BadTrace {
                    line: bad.line,
                    reason: bad.reason,
                },
            )
        }
        Stop::Fault {
            fault: Fault::Write,
        } => Status::WriteFault,
        Stop::Fault {
            fault: Fault::Memory,
        } => Status::NoMemory,
    }
}

// The status of a run that ended: the end of the input is judged, and the last lines are written.
fn conclude<E: Engine, K: Sink>(
    alloc: Global,
    ending: Ending,
    work: &mut Work<E>,
    sink: &mut K,
    watchers: &mut [Box<dyn Watcher>],
) -> Status
    ensures said { (before left written : Option (List ℕ)) (ws : List _) → Ends E.taken (boxed stands) ending before left (outside written ws) (outside (K.written sink.old) watchers.old) (progress_start Mode.Replay) work.old
        → PlayerReplays E.taken (boxed stands) result (watch_text shown shows watchers.new) before left (outside written ws) (outside (K.written sink.new) watchers.new) }
    ensures fits { result ≡ Status.Done → WatchersFit shown shows watchers.new }
    ensures later { K.faults sink.old ≤ K.faults sink.new }
    ensures read { result ≡ Status.ReadFault → ending ≡ Ending.NoRead }
    ensures write { result ≡ Status.WriteFault → (ending ≡ Ending.Stopped (Stop.Fault Fault.Write)) ⊎ Rose K.may_stand (K.faults sink.old) (K.faults sink.new) }
{
    match ending {
        Ending::NoRead => Status::ReadFault,
        Ending::Stopped { stop } => stopped(sink, watchers, stop),
        Ending::AtEnd => match work.finish(alloc, sink, watchers) {
            Ok(()) => close_done(sink, watchers),
            Err(stop) => stopped(sink, watchers, stop),
        },
    }
}

// Reads a trace from its start, until no more of it is read.
fn read_all<E: Engine, S: Source, K: Sink>(
    alloc: Global,
    source: &mut S,
    sink: &mut K,
    watchers: &mut [Box<dyn Watcher>],
    piece: &mut [u8],
    work: &mut Work<E>,
) -> Ending
    requires some { 0 < length piece.old }
    requires fresh { work.old ≡ progress_start Mode.Replay }
    ensures ended { Ends E.taken (boxed stands) result (S.left source.old) (S.left source.new) (outside (K.written sink.old) watchers.old) (outside (K.written sink.new) watchers.new) (progress_start Mode.Replay) work.new }
    ensures source { S.faults source.old ≤ S.faults source.new }
    ensures sink { K.faults sink.old ≤ K.faults sink.new }
    ensures read { result ≡ Ending.NoRead → Rose S.may_stand (S.faults source.old) (S.faults source.new) }
    ensures write { result ≡ Ending.Stopped (Stop.Fault Fault.Write) → Rose K.may_stand (K.faults sink.old) (K.faults sink.new) }
{
    // Each turn takes a byte, and a trace with a byte more than these is bad.
    for _ in 0..16_777_217u32 {
        if let Some(ending) = turn(alloc, source, sink, watchers, piece, work) {
            return ending;
        }
    }
    unreachable!()
}

// Replays a trace, which is read in pieces.
fn replay_in<E: Engine, S: Source, K: Sink>(
    alloc: Global,
    source: &mut S,
    sink: &mut K,
    watchers: &mut [Box<dyn Watcher>],
    piece: &mut [u8],
) -> Status
    requires { 0 < length piece.old }
    ensures said { PlayerReplays E.taken (boxed stands) result (watch_text shown shows watchers.new) (S.left source.old) (S.left source.new) (outside (K.written sink.old) watchers.old) (outside (K.written sink.new) watchers.new) }
    ensures fits { result ≡ Status.Done → WatchersFit shown shows watchers.new }
    ensures source { S.faults source.old ≤ S.faults source.new }
    ensures sink { K.faults sink.old ≤ K.faults sink.new }
    ensures read { result ≡ Status.ReadFault → Rose S.may_stand (S.faults source.old) (S.faults source.new) }
    ensures write { result ≡ Status.WriteFault → Rose K.may_stand (K.faults sink.old) (K.faults sink.new) }
{
    let mut work: Work<E> = Work::new();
    let ending = read_all(alloc, source, sink, watchers, piece, &mut work);
    conclude(alloc, ending, &mut work, sink, watchers)
}

/// Reads a trace to its end, and puts out the record of the one history that its lines give: each
/// line to the sink, and each event to the watchers before its line. The status says what was read
/// and what was put out.
pub fn replay<E: Engine, S: Source, K: Sink>(
    alloc: Global,
    source: &mut S,
    sink: &mut K,
    watchers: &mut Vec<Box<dyn Watcher>>,
) -> Status
    ensures said { Replays E.taken (boxed stands) result (watch_text shown shows watchers.new.items) (S.left source.old) (S.left source.new) (outside (K.written sink.old) watchers.old.items) (outside (K.written sink.new) watchers.new.items) }
    ensures fits { result ≡ Status.Done → WatchersFit shown shows watchers.new.items }
    ensures source { S.faults source.old ≤ S.faults source.new }
    ensures sink { K.faults sink.old ≤ K.faults sink.new }
    ensures read { result ≡ Status.ReadFault → Rose S.may_stand (S.faults source.old) (S.faults source.new) }
    ensures write { result ≡ Status.WriteFault → Rose K.may_stand (K.faults sink.old) (K.faults sink.new) }
{
    let Ok(mut piece) = vec![in alloc; 0u8; 65_536] else {
        return Status::NoMemory;
    };
    replay_in::<E, S, K>(alloc, source, sink, watchers, &mut piece)
}
