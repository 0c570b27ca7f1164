// What the roots of calls have had since these began.
ghost use Rattle.std.specs.Prelude.{◌≡◌, ◌<◌, ◌≤◌, ◌+◌, ◌==◌, ◌&&◌, ℕ, None, Some, if◌then◌else◌, length};
ghost use Rattle.laws.specs.Ranges.{EventIn};
ghost use Rattle.wfe_check_held.specs.Grids.{IsGrid, cell_at};
ghost use Rattle.wfe_check_held.specs.Roots.{RowIn, looks_at as does_look_at, place_of as place};
ghost use Rattle.wfe_check_held.specs.Steps.{had_after};
ghost use Rattle.wfe_check_held.specs.Times.{seat_at};

use crate::grid::Grid;
use crate::seats::{Seat, looks_at};
use wfe_defs::{Event, Root};
use wfe_words::Config;

/// The place of what a root may have: first that it has none, and then the rows in order.
pub(crate) fn place_of(found: Option<u32>) -> usize
    ensures { result ≡ place found }
{
    match found {
        None => 0,
        Some(row) => row as usize + 1,
    }
}

/// Tells the grid an event of a seat, at the position after it. `seats` are those before it, and
/// `found` is what the call's root has, where it begins one.
#[inline(always)]
pub(crate) fn tell_had(
    had: &mut Grid,
    seats: &[Seat],
    config: &Config,
    seat: u32,
    event: &Event,
    found: Option<u32>,
    position: u64,
)
    requires grid { IsGrid (length seats.now) (config.now.slots + 2) had.old }
    requires buckets { 0 < config.now.buckets }
    requires seat { seat < length seats.now }
    requires found { RowIn config.now.slots found }
    requires range { EventIn config.now event.now }
    ensures width { had.new.width ≡ had.old.width }
    ensures count { length had.new.cells.items ≡ length had.old.cells.items }
    ensures each { (i q : ℕ) → i < length seats.now → q < had.old.width →
        cell_at had.new i q
        ≡ had_after config.now.buckets i (seat_at seats.now i) q seat event.now found position (cell_at had.old i q) }
{
    match *event {
        Event::Begin { .. } => had.set(seat as usize, place_of(found), position),
        Event::Link { root, slot } => tell_link(had, seats, config.buckets, root, slot),
        _ => {}
    }
}

// A root has a new row: so it is with each call that looks at it.
fn tell_link(had: &mut Grid, seats: &[Seat], buckets: u32, root: Root, slot: u32)
    requires grid { IsGrid (length seats.now) had.old.width had.old }
    requires buckets { 0 < buckets }
    requires slot { slot + 1 < had.old.width }
    ensures width { had.new.width ≡ had.old.width }
    ensures count { length had.new.cells.items ≡ length had.old.cells.items }
    ensures each { (i q : ℕ) → i < length seats.now → q < had.old.width →
        cell_at had.new i q
        ≡ (if does_look_at buckets (seat_at seats.now i).call root && q == slot + 1
        then (seat_at seats.now i).begun else cell_at had.old i q) }
{
    for i in 0..seats.len() {
        let cell = seats[i];
        if looks_at(cell.call, buckets, root) {
            had.set(i, slot as usize + 1, cell.begun);
        }
    }
}
