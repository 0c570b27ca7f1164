// The shared table at its start and at its end.
ghost use Rattle.std.specs.Prelude.{[], ◌≡◌, ◌≤◌, length, IfOk, IsTrue};
ghost use Rattle.std.specs.Slots.{IsFull, slots_items, slots_len};
ghost use Rattle.wfe_core.specs.words.Place.{is_valid};
ghost use Rattle.wfe_drive_rule.specs.Ended.{Ended};
ghost use Rattle.wfe_drive_rule.specs.Handles.{IsBare, IsGathered, IsSized};
ghost use Rattle.wfe_drive_rule.specs.Spots.{shown};
ghost use Rattle.wfe_drive_rule.specs.Views.{first_view};

use crate::block::start_block;
use crate::kept::Kept;
use crate::rule::{Handle, OwnedLedger};
use atomic_table::{Closed, Table};
use std::alloc::Global;
use wfe_core::{Layout, NoMemory};

/// A table with the start words of a layout, and the handle of seat 0, which counts the seats that
/// are made. Where there is no memory for the words and slots it gives `NoMemory`.
pub fn open(alloc: Global, layout: Layout) -> Result<(OwnedLedger, Handle), NoMemory>
    requires valid { IsTrue (is_valid layout) }
    ensures key { IfOk result (λ r. r.0.shared.key ≡ layout) }
    ensures sized { IfOk result (λ r. IsSized r.0.shared.table_id layout) }
    ensures handle { IfOk result (λ r. (r.1.table_id ≡ r.0.shared.table_id) × (r.1.me ≡ (first_view layout, []))) }
    ensures bare { IfOk result (λ r. IsBare layout r.1.me) }
{
    let block = start_block(alloc, layout)?;
    let slots = 8 * layout.config().seats as usize;
    match Table::vacant(alloc, block.as_slice(), slots, &layout) {
        Ok((table, handle)) => Ok((table, handle)),
        Err(_) => Err(NoMemory),
    }
}

/// The words at the end, by spot, once one handle has as many seats as the table has, all between calls. Each
/// slot comes back too.
pub fn close(table: OwnedLedger, handle: Handle) -> Closed<Option<Kept>, Global>
    requires ids { handle.table_id ≡ table.shared.table_id }
    requires gathered { IsGathered handle.me }
    requires all { table.shared.key.config.seats ≤ length handle.me.0.tracks }
    ensures counts { (slots_len result.words ≡ table.shared.table_id.words) × (slots_len result.slots ≡ table.shared.table_id.slots) }
    ensures full { IsFull result.words × IsFull result.slots }
    ensures ended { Ended table.shared.key (shown table.shared.key (slots_items result.words)) handle.me.0.tracks }
{
    table.close_with(handle)
}

/// Gives back the memory of a table that was closed, whose words are done with.
pub fn finish(mut closed: Closed<Option<Kept>, Global>)
    requires { IsFull closed.slots }
{
    for slot in 0..closed.slot_count() {
        closed.take(slot);
    }
    closed.free();
}
