// A generated trace, from its seed to its summary.
ghost use Rattle.std.specs.Prelude.{◌≡◌, ◌≤◌, IfOk, OnErr, OnOk};
ghost use Rattle.wfe_server_out.specs.Heard.{Hears, HearsSome, boxed};
ghost use Rattle.wfe_server_out.specs.Pieces.{heard_of};
ghost use Rattle.wfe_server_replay.specs.drive.Reached.{first_table};
ghost use Rattle.wfe_server_gen.specs.Summary.{summary_of};
ghost use Rattle.wfe_server_gen.specs.Tally.{bare, lines_told};
ghost use Rattle.wfe_server_gen.specs.Turns.{generated, trace_of};
ghost use Rattle.wfe_core.specs.Locals.{stays};
ghost use Rattle.wfe_server_replay.specs.Given.{IsTaken};
ghost use Rattle.wfe_server_gen.specs.Generated.{Generates, entries_of};
ghost use Rattle.wfe_outside.specs.Faults.{Rose};
ghost use Rattle.wfe_server_replay.specs.Sunk.{outside};
ghost use Rattle.wfe_server_replay.specs.Watched.{watch_text};

use crate::report::put_report;
use crate::summary::Summary;
use crate::table::Table;
use std::alloc::Global;
use wfe_outside::{CountSink, NoMemory, Sink, Watcher};
use wfe_server_replay::Engine;
use wfe_trace::Status;

// Plays a generated trace, and counts its events. Its lines go to a sink that keeps none and never
// fails.
fn summarize<E: Engine>(
    alloc: Global,
    seed: u64,
    turns: u64,
    watchers: &mut [Box<dyn Watcher>],
) -> Result<Summary, NoMemory>
    ensures taken { IsTaken stays (trace_of (generated seed turns)) }
    ensures counted { IfOk result (λ summary. summary ≡ summary_of (entries_of (generated seed turns))) }
    ensures heard { OnOk result (Hears (boxed stands) watchers.old watchers.new (entries_of (generated seed turns))) }
    ensures some { OnErr result (HearsSome (boxed stands) watchers.old watchers.new (entries_of (generated seed turns))) }
{
    let mut table = Table::<E>::open(alloc)?;
    let mut sink = CountSink::new();
    match table.play(seed, turns, &mut sink, watchers) {
        Ok(()) => Ok(table.summary()),
        Err(_) => Err(NoMemory),
    }
}

/// Makes the trace of so many turns from a seed, plays it on a table, and puts its summary out.
pub fn generate<E: Engine, K: Sink>(
    alloc: Global,
    seed: u64,
    turns: u64,
    sink: &mut K,
    watchers: &mut Vec<Box<dyn Watcher>>,
) -> Status
    ensures generates { Generates (boxed stands) result seed turns (watch_text shown shows watchers.new.items) (outside (K.written sink.old) watchers.old.items) (outside (K.written sink.new) watchers.new.items) }
    ensures later { K.faults sink.old ≤ K.faults sink.new }
    ensures cause { result ≡ Status.WriteFault → Rose K.may_stand (K.faults sink.old) (K.faults sink.new) }
{
    let Ok(summary) = summarize::<E>(alloc, seed, turns, watchers) else {
        return Status::NoMemory;
    };
    match put_report(&summary, watchers, sink) {
        Ok(()) => Status::Done,
        Err(_) => Status::WriteFault,
    }
}
