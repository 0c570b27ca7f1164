// The commands of the program, over any source and sink.
ghost use Rattle.wfe_server_out.specs.Heard.{boxed};
ghost use Rattle.std.specs.Prelude.{◌≡◌, ◌≢◌, ◌≤◌, Bool, ℕ, None, Some, map, string_bytes};
ghost use Rattle.wfe_check.specs.lines.Verdicts.{Checks, IsAnswered};
ghost use Rattle.wfe_cli.specs.Command.{Allowed, Does, IsComplete, IsGenerated, Refuses, made_calls, status_number};
ghost use Rattle.wfe_cli.specs.Headline.{GivenLawful, Keeps, ReadsBack, Summarizes};
ghost use Rattle.wfe_job.specs.Jobs.{asked};
ghost use Rattle.wfe_defs.specs.declared.call.Call.{Call};
ghost use Rattle.wfe_outside.specs.Faults.{Rose};
ghost use Rattle.wfe_server_gen.specs.server_replay.Sunk.{outside};
ghost use Rattle.wfe_server_gen.specs.server_replay.Watched.{WatchersFit, watch_text};
ghost use Rattle.wfe_server.specs.Runs.{IsComplete as IsRunWhole, Runs as RunsTrace};

use std::alloc::Global;
use std::thread::Threads;
use wfe_check::check;
use wfe_drive_cells::TableCells;
use wfe_job::{Job, job_of};
use wfe_leave::LeaveRig;
use wfe_outside::{Sink, Source, Watcher};
use wfe_server::{OpenGate, run};
use wfe_server_gen::{generate, replay};
use wfe_server_out::write_all;
use wfe_trace::Status;

// The table on which traces are played.
type Table = LeaveRig<TableCells>;

// The line that lists the commands.
const USAGE: &[u8] = b"usage: wfe replay | run | gen SEED N | check\n";

// Writes the line that lists the commands.
fn refuse<K: Sink>(sink: &mut K) -> Status
    ensures refused { Refuses result (K.written sink.old) (K.written sink.new) }
    ensures later { K.faults sink.old ≤ K.faults sink.new }
    ensures read { result ≢ Status.ReadFault }
    ensures cause { result ≡ Status.WriteFault → Rose K.may_stand (K.faults sink.old) (K.faults sink.new) }
{
    match write_all(sink, USAGE) {
        Ok(()) => Status::Usage,
        Err(_) => Status::WriteFault,
    }
}

// Does a job.
fn perform<R: Threads + Sync, S: Source, K: Sink>(
    rt: &R,
    alloc: Global,
    job: Job,
    source: &mut S,
    sink: &mut K,
    watchers: &mut Vec<Box<dyn Watcher>>,
) -> Status
    requires { Allowed job }
    ensures does { Does made_calls (boxed stands) job result (watch_text shown shows watchers.new.items) (S.left source.old) (S.left source.new) (outside (K.written sink.old) watchers.old.items) (outside (K.written sink.new) watchers.new.items) }
    ensures fits { job ≡ Job.Replay → result ≡ Status.Done → WatchersFit shown shows watchers.new.items }
    ensures unread { (seed turns : ℕ) → job ≡ Job.Generate seed turns → source.new ≡ source.old }
    ensures unheard { job ≡ Job.Check → watchers.new ≡ watchers.old }
    ensures source { S.faults source.old ≤ S.faults source.new }
    ensures sink { K.faults sink.old ≤ K.faults sink.new }
    ensures read { result ≡ Status.ReadFault → Rose S.may_stand (S.faults source.old) (S.faults source.new) }
    ensures write { result ≡ Status.WriteFault → Rose K.may_stand (K.faults sink.old) (K.faults sink.new) }
{
    match job {
        Job::Check => check(alloc, source, sink),
        Job::Replay => replay::<Table, S, K>(alloc, source, sink, watchers),
        Job::Run => run(rt, alloc, &OpenGate, source, sink, watchers),
        Job::Generate { seed, turns } => generate::<Table, K>(alloc, seed, turns, sink, watchers),
    }
}

/// Does what the words after the program's name say. `replay` reads a trace from the source, and
/// prints its record to the sink. `run` reads a trace, makes each seat's calls on a thread of its own,
/// and prints what came of them. `gen` makes the trace of a seed and a number of turns, and prints its
/// summary. `check` reads a record, and says in one line whether it is lawful, or which line is the first
/// that is bad or is not lawful. Any other words are answered by the line that lists the commands. Nothing
/// is read but by `replay`, `run` and `check`.
pub fn main_call<R: Threads + Sync, S: Source, K: Sink>(
    rt: &R,
    alloc: Global,
    words: &[String],
    source: &mut S,
    sink: &mut K,
    watchers: &mut Vec<Box<dyn Watcher>>,
) -> Status
    // The words are judged first.
    ensures replays { asked (map string_bytes words.now) ≡ Some Job.Replay → Keeps made_calls (boxed stands) result (watch_text shown shows watchers.new.items) (S.left source.old) (S.left source.new) (outside (K.written sink.old) watchers.old.items) (outside (K.written sink.new) watchers.new.items) }
    ensures lawful { (makes : Call → Bool) → GivenLawful makes }
    // What is printed of a trace is read back: a check finds it lawful.
    ensures read_back { asked (map string_bytes words.now) ≡ Some Job.Replay → result ≡ Status.Done → ReadsBack made_calls (S.left source.old) (S.left source.new) (K.written sink.old) (K.written sink.new) }
    ensures runs { asked (map string_bytes words.now) ≡ Some Job.Run → RunsTrace (boxed stands) result (watch_text shown shows watchers.new.items) (S.left source.old) (S.left source.new) (outside (K.written sink.old) watchers.old.items) (outside (K.written sink.new) watchers.new.items) }
    ensures generates { (seed turns : ℕ) → asked (map string_bytes words.now) ≡ Some (Job.Generate seed turns) → Summarizes (boxed stands) result seed turns (watch_text shown shows watchers.new.items) (outside (K.written sink.old) watchers.old.items) (outside (K.written sink.new) watchers.new.items) }
    ensures checks { asked (map string_bytes words.now) ≡ Some Job.Check → Checks result (S.left source.old) (S.left source.new) (K.written sink.old) (K.written sink.new) }
    ensures refuses { asked (map string_bytes words.now) ≡ None → Refuses result (K.written sink.old) (K.written sink.new) }
    ensures unread { asked (map string_bytes words.now) ≢ Some Job.Replay → asked (map string_bytes words.now) ≢ Some Job.Run → asked (map string_bytes words.now) ≢ Some Job.Check → source.new ≡ source.old }
    ensures unheard { asked (map string_bytes words.now) ≡ None → watchers.new ≡ watchers.old }
    ensures untold { asked (map string_bytes words.now) ≡ Some Job.Check → watchers.new ≡ watchers.old }

    // A trace in the grammar is replayed or run whole, a generated one is summarized, and the verdict on a record is written, but for a fault of the source or the sink, and for want of memory.
    ensures complete { asked (map string_bytes words.now) ≡ Some Job.Replay → IsComplete made_calls result (S.left source.old) (Rose S.may_stand (S.faults source.old) (S.faults source.new)) (Rose K.may_stand (K.faults sink.old) (K.faults sink.new)) }
    ensures run_whole { asked (map string_bytes words.now) ≡ Some Job.Run → IsRunWhole result (S.left source.old) (Rose S.may_stand (S.faults source.old) (S.faults source.new)) (Rose K.may_stand (K.faults sink.old) (K.faults sink.new)) }
    ensures generated { (seed turns : ℕ) → asked (map string_bytes words.now) ≡ Some (Job.Generate seed turns) → IsGenerated result (Rose K.may_stand (K.faults sink.old) (K.faults sink.new)) }

    ensures checked { asked (map string_bytes words.now) ≡ Some Job.Check → IsAnswered result (Rose S.may_stand (S.faults source.old) (S.faults source.new)) (Rose K.may_stand (K.faults sink.old) (K.faults sink.new)) }

    // A fault is told only where its count rose.
    ensures read { result ≡ Status.ReadFault → Rose S.may_stand (S.faults source.old) (S.faults source.new) }
    ensures write { result ≡ Status.WriteFault → Rose K.may_stand (K.faults sink.old) (K.faults sink.new) }
    ensures source { S.faults source.old ≤ S.faults source.new }
    ensures sink { K.faults sink.old ≤ K.faults sink.new }
{
    match job_of(alloc, words) {
        Ok(Some(job)) => perform(rt, alloc, job, source, sink, watchers),
        Ok(None) => refuse(sink),
        Err(_) => Status::NoMemory,
    }
}

/// The number with which the program ends.
pub fn exit_number(status: Status) -> u8
    ensures { result ≡ status_number status }
{
    match status {
        Status::Done => 0,
        Status::Unlawful { .. } => 1,
        Status::Usage => 2,
        Status::BadTrace { .. } => 3,
        Status::ReadFault => 4,
        Status::WriteFault => 5,
        Status::NoMemory => 6,
        Status::BadRecord { .. } => 7,
    }
}
