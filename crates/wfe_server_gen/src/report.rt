// The lines of a summary, to a sink.
ghost use Rattle.std.specs.Prelude.{◌≡◌, ◌<◌, ◌≤◌, [], get_or, length};
ghost use Rattle.wfe_server_gen.specs.Report.{summary_lines, named, report};
ghost use Rattle.wfe_server_replay.specs.Watched.{watch_text};
ghost use Rattle.wfe_server_out.specs.Emits.{Writes};
ghost use Rattle.wfe_trace.specs.Record.{count_line};

use crate::summary::Summary;
use wfe_outside::{Failed, Sink, Watcher};
use wfe_server_out::{put_line, write_all};
use wfe_server_replay::put_watched;
use wfe_trace::{Line, print_count};

// A name and its number, by the place of its line.
fn count_at(summary: &Summary, place: usize) -> (&'static [u8], u64)
    requires { place < 10 }
    ensures value { (result.0.now, result.1) ≡ get_or (named summary.now) place ([], 0) }
    ensures short { length result.0.now ≤ 20 }
{
    match place {
        0 => (b"units", summary.units),
        1 => (b"calls", summary.calls),
        2 => (b"puts", summary.puts),
        3 => (b"removed", summary.removed),
        4 => (b"gots", summary.gots),
        5 => (b"queued", summary.queued),
        6 => (b"taken", summary.taken),
        7 => (b"retired", summary.retired),
        8 => (b"back", summary.back),
        _ => (b"clock", summary.clock),
    }
}

// Writes the line of a number.
fn put_count<K: Sink>(name: &[u8], number: u64, sink: &mut K) -> Result<(), Failed>
    requires { length name.now ≤ 20 }
    ensures { Writes K.written K.faults K.may_stand result sink.old sink.new (count_line name.now number) }
{
    let mut line = Line::new();
    print_count(name, number, &mut line);
    put_line(sink, &line)
}

// Writes the lines of the numbers.
fn put_counts<K: Sink>(summary: &Summary, sink: &mut K) -> Result<(), Failed>
    ensures { Writes K.written K.faults K.may_stand result sink.old sink.new (summary_lines summary.now) }
{
    for place in 0..10 {
        let (name, number) = count_at(summary, place);
        put_count(name, number, sink)?;
    }
    Ok(())
}

/// Writes the numbers, the watchers' rows, and the last line.
pub fn put_report<K: Sink>(
    summary: &Summary,
    watchers: &[Box<dyn Watcher>],
    sink: &mut K,
) -> Result<(), Failed>
    ensures { Writes K.written K.faults K.may_stand result sink.old sink.new (report summary.now (watch_text shown shows watchers.now)) }
{
    put_counts(summary, sink)?;
    put_watched(sink, watchers)?;
    write_all(sink, b"done\n")
}
