// The rows of the watchers, as the last lines of a record print them.
ghost use Rattle.std.specs.Prelude.{◌≡◌, ◌<◌, OnOk};
ghost use Rattle.wfe_server_replay.specs.Watched.{RowFits, RowsFit, WatchersFit, rows_of, rows_text, watch_text};
ghost use Rattle.wfe_server_out.specs.Emits.{Writes};
ghost use Rattle.wfe_trace.specs.Fits.{NumberFits};
ghost use Rattle.wfe_trace.specs.Record.{watch_line};

use wfe_outside::{Failed, Sink, WatchRow, Watcher};
use wfe_server_out::put_line;
use wfe_trace::{Line, print_watch};

// Writes the line of a row.
fn put_row<K: Sink>(sink: &mut K, place: u64, row: WatchRow) -> Result<(), Failed>
    ensures writes { Writes K.written K.faults K.may_stand result sink.old sink.new (watch_line place row.a row.b row.c) }
    ensures fits { NumberFits place × RowFits row }
{
    let mut line = Line::new();
    print_watch(place, row.a, row.b, row.c, &mut line);
    put_line(sink, &line)
}

// How many rows a watcher shows.
fn count_in(watcher: &Box<dyn Watcher>) -> u64
    ensures { result ≡ shown watcher.now }
{
    watcher.rows()
}

// One of its rows.
fn row_in(watcher: &Box<dyn Watcher>, place: u64) -> WatchRow
    requires { place < shown watcher.now }
    ensures { result ≡ shows watcher.now place }
{
    watcher.row(place)
}

// Writes the rows of a watcher.
fn put_rows<K: Sink>(sink: &mut K, place: u64, watcher: &Box<dyn Watcher>) -> Result<(), Failed>
    ensures writes { Writes K.written K.faults K.may_stand result sink.old sink.new (rows_text place (rows_of shown shows watcher.now)) }
    ensures fits { OnOk result (NumberFits place × RowsFit shown shows watcher.now) }
{
    for row in 0..count_in(watcher) {
        put_row(sink, place, row_in(watcher, row))?;
    }
    Ok(())
}

/// Writes the rows of all watchers, each with the watcher's place in the list.
pub fn put_watched<K: Sink>(sink: &mut K, watchers: &[Box<dyn Watcher>]) -> Result<(), Failed>
    ensures writes { Writes K.written K.faults K.may_stand result sink.old sink.new (watch_text shown shows watchers.now) }
    ensures fits { OnOk result (WatchersFit shown shows watchers.now) }
{
    for place in 0..watchers.len() {
        put_rows(sink, place as u64, &watchers[place])?;
    }
    Ok(())
}
