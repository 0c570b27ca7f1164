// The text of a run: the events of its seats, told to the watchers and written, and the table that
// was left.
ghost use Rattle.std.specs.Prelude.{◌≡◌, ◌<◌, ◌≤◌, ◌++◌, ◌^◌, [], All, codes, length, slice_index_or};
ghost use Rattle.wfe_server_out.specs.Emits.{Emits, Writes};
ghost use Rattle.wfe_server_out.specs.Heard.{boxed};
ghost use Rattle.wfe_server_out.specs.Pieces.{told_pieces};
ghost use Rattle.wfe_outside.specs.Faults.{Rose};
ghost use Rattle.wfe_server_replay.specs.Sunk.{outside};
ghost use Rattle.wfe_server_replay.specs.Watched.{watch_text};
ghost use Rattle.wfe_table.specs.Closing.{closing_of};
ghost use Rattle.wfe_server_lines.specs.Scripted.{lists_in};
ghost use Rattle.wfe_server.specs.Prints.{Prints};
ghost use Rattle.wfe_server.specs.Text.{run_pieces, seat_pieces};
ghost use Rattle.wfe_trace.specs.Record.{header_line};

use crate::RunRecord;
use wfe_core::Event;
use wfe_outside::{Failed, Sink, Watcher};
use wfe_server_lines::put_closed;
use wfe_server_out::{Fault, put_line, tell, write_all};
use wfe_server_replay::put_watched;
use wfe_trace::{Config, Line, Status, print_header};

// Tells the events of one of the seats, each before the next.
fn tell_seat<K: Sink>(
    sink: &mut K,
    watchers: &mut [Box<dyn Watcher>],
    seats: &[Vec<Event>],
    seat: u32,
) -> Result<(), Fault>
    requires { seat < length seats.now }
    ensures { Emits (boxed stands) K.written K.faults K.may_stand result sink.old sink.new watchers.old watchers.new (told_pieces seat (slice_index_or (lists_in seats.now) seat [])) }
{
    let events = seats[seat as usize].as_slice();
    let mut line = Line::new();
    for place in 0..events.len() {
        tell(sink, &mut line, watchers, seat, &events[place])?;
    }
    Ok(())
}

// Tells the events of the seats, one seat after the other.
fn tell_seats<K: Sink>(
    sink: &mut K,
    watchers: &mut [Box<dyn Watcher>],
    seats: &[Vec<Event>],
) -> Result<(), Fault>
    requires { length seats.now < 2 ^ 32 }
    ensures { Emits (boxed stands) K.written K.faults K.may_stand result sink.old sink.new watchers.old watchers.new (seat_pieces 0 (lists_in seats.now)) }
{
    for seat in 0..seats.len() as u32 {
        tell_seat(sink, watchers, seats, seat)?;
    }
    Ok(())
}

// Writes the setting of a run.
fn put_setting<K: Sink>(sink: &mut K, version: u32, config: &Config) -> Result<(), Failed>
    ensures { Writes K.written K.faults K.may_stand result sink.old sink.new (header_line version config.now) }
{
    let mut line = Line::new();
    print_header(version, config, &mut line);
    put_line(sink, &line)
}

// Puts a run out, but for its last lines.
fn put_run<K: Sink>(
    sink: &mut K,
    watchers: &mut [Box<dyn Watcher>],
    version: u32,
    config: &Config,
    made: &RunRecord,
) -> Result<(), Fault>
    requires few { length made.now.seats.items < 2 ^ 32 }
    requires fits { All (λ row. length row.pairs.items ≤ 14) made.now.closed.buckets.items }
    ensures { Emits (boxed stands) K.written K.faults K.may_stand result sink.old sink.new watchers.old watchers.new
        (run_pieces version config.now (lists_in made.now.seats.items) (closing_of made.now.closed)) }
{
    put_setting(sink, version, config)?;
    tell_seats(sink, watchers, made.seats.as_slice())?;
    put_closed(sink, &made.closed)?;
    Ok(())
}

// Writes the last lines: the rows of the watchers, and that the work is done.
fn put_end<K: Sink>(sink: &mut K, watchers: &[Box<dyn Watcher>]) -> Result<(), Failed>
    ensures { Writes K.written K.faults K.may_stand result sink.old sink.new (watch_text shown shows watchers.now ++ codes "done\n") }
{
    put_watched(sink, watchers)?;
    write_all(sink, b"done\n")
}

/// Puts a run out, and says how that went.
pub fn print_run<K: Sink>(
    sink: &mut K,
    watchers: &mut [Box<dyn Watcher>],
    version: u32,
    config: &Config,
    made: &RunRecord,
) -> Status
    requires few { length made.now.seats.items < 2 ^ 32 }
    requires fits { All (λ row. length row.pairs.items ≤ 14) made.now.closed.buckets.items }
    ensures prints { Prints (boxed stands) result (watch_text shown shows watchers.new) (outside (K.written sink.old) watchers.old) (outside (K.written sink.new) watchers.new)
        (run_pieces version config.now (lists_in made.now.seats.items) (closing_of made.now.closed)) }
    ensures later { K.faults sink.old ≤ K.faults sink.new }
    ensures cause { result ≡ Status.WriteFault → Rose K.may_stand (K.faults sink.old) (K.faults sink.new) }
{
    match put_run(sink, watchers, version, config, made) {
        Ok(()) => match put_end(sink, watchers) {
            Ok(()) => Status::Done,
            Err(_) => Status::WriteFault,
        },
        Err(Fault::Write) => Status::WriteFault,
        Err(Fault::Memory) => Status::NoMemory,
    }
}
