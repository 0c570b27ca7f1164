// A counter of garbage: how many rows each seat retired, and how many it gave back. All its memory
// is taken when it is made, so that telling it an event never fails.
ghost use Rattle.std.specs.Prelude.{◌≡◌, ◌<◌, ◌≤◌, [], length, OnOk, OnErr, IfOk, IsOk};
ghost use Rattle.wfe_defs.specs.Entry.{entry};
ghost use Rattle.wfe_outside.specs.Watched.{Grows};
ghost use Rattle.wfe_watch.specs.Counts.{row_at};
ghost use Rattle.wfe_watch.specs.Garbage.{garbage_after, with_garbage, CountsGarbage};

use std::alloc::Global;
use std::marker::Model;
use wfe_defs::{Event, NoMemory};
use wfe_outside::{WatchRow, Watcher};

/// For each seat the rows it retired and the rows it gave back, each 0 to the greatest u64, at
/// which a count stands still. It is seen as its rows (seat, retired, given back), one for each
/// seat from 0.
#[derive(Drop)]
pub struct GarbageCounter {
    rows: Vec<WatchRow>,
}

impl Model for GarbageCounter {
    ghost use Rattle.std.specs.Prelude.{List};
    ghost use Rattle.wfe_outside.specs.declared.watcher.WatchRow.{WatchRow};

    ghost Value = { List WatchRow };

    ghost view = { λ g. g.rows.items };
}

impl GarbageCounter {
    /// A counter for the seats below `seats`, to which nothing was told.
    pub fn new(alloc: Global, seats: u32) -> Result<GarbageCounter, NoMemory>
        ensures seats { IfOk result (λ rows. length rows ≡ seats) }
        ensures counted { IfOk result (λ rows. CountsGarbage rows []) }
    {
        let Ok(mut rows) = Vec::with_capacity(alloc, seats as usize) else {
            return Err(NoMemory);
        };
        for seat in 0..seats {
            let row = WatchRow {
                a: seat.into(),
                b: 0,
                c: 0,
            };
            if rows.push(row).is_err() {
                return Err(NoMemory);
            }
        }
        Ok(GarbageCounter { rows })
    }

    /// Counts one more event, without memory. A seat that is not below the number of seats changes
    /// nothing.
    pub fn count(&mut self, seat: u32, event: &Event)
        ensures seats { length self.new ≡ length self.old }
        ensures counted { Grows CountsGarbage self.old self.new (entry seat event.now) }
        ensures past { length self.old ≤ seat → self.new ≡ self.old }
        ensures rows { self.new ≡ garbage_after self.old seat event.now }
    {
        if let Some(row) = self.rows.get_mut(seat as usize) {
            count_in(row, event);
        }
    }
}

// Counts an event in the row of its seat.
fn count_in(row: &mut WatchRow, event: &Event)
    ensures { row.new ≡ with_garbage event.now row.old }
{
    match event {
        Event::Retire { .. } => row.b = row.b.saturating_add(1),
        Event::Back { .. } => row.c = row.c.saturating_add(1),
        _ => {}
    }
}

impl Watcher for GarbageCounter {
    ghost stands = { CountsGarbage };

    ghost shown = { λ rows. length rows };

    ghost shows = { λ rows place. row_at rows place };

    fn note(&mut self, seat: u32, event: &Event) -> Result<(), NoMemory>
        ensures ok { OnOk result (Grows CountsGarbage self.old self.new (entry seat event.now)) }
        ensures err { OnErr result (self.new ≡ self.old) }
        ensures never_fails { IsOk result }
        ensures seats { length self.new ≡ length self.old }
    {
        self.count(seat, event);
        Ok(())
    }

    fn rows(&self) -> u64 {
        self.rows.len() as u64
    }

    fn row(&self, place: u64) -> WatchRow {
        self.rows[place as usize]
    }
}
