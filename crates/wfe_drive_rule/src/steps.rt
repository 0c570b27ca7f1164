// A seat's steps on the shared table, and the beginning of its calls. What an exchange takes out of the seat's slot is nothing or a
// call, which hold nothing to give back, so it is let go without a look.
ghost use Rattle.std.specs.Prelude.{◌∷◌, ◌≡◌, ◌≢◌, None, false, true};
ghost use Rattle.atomic_table.specs.Table.{rest};
ghost use Rattle.wfe_core.specs.defs.declared.call.Call.TheVariants as calls;
ghost use Rattle.wfe_core.specs.Locals.{after, asks, begun, busy_in, may_begin};
ghost use Rattle.wfe_drive_rule.specs.Handles.{IsAdopting, IsBare, IsResting, IsSeated, IsSized, MovesNone};
ghost use Rattle.wfe_drive_cells.specs.Operations.{word_in};
ghost use Rattle.wfe_drive_cells.specs.Unit.{may_adopt};
ghost use Rattle.wfe_drive_rule.specs.Moves.{Told, keeping};
ghost use Rattle.wfe_drive_cells.specs.Spots.{spot as spot_of};
ghost use Rattle.wfe_drive_rule.specs.Spots.{slot_at};
ghost use Rattle.wfe_drive_rule.specs.Views.{call_in, own, seat_of, standing};

use crate::kept::Kept;
use crate::rule::{AdoptList, HandList, Handle, Ledger, MarkPlace, OneStep};
use std::mem::forget;
use wfe_core::{Call, Op};

/// A call of the handle's seat begins, one that may begin, where none is under way and the last was no leave. No word changes: the seat's slot
/// holds the call until its first step.
pub fn begin(table: &Ledger, handle: &mut Handle, seat: u32, call: Call)
    requires ids { handle.old.table_id ≡ table.now.table_id }
    requires seated { IsSeated table.now.key seat handle.old.me }
    requires resting { IsResting handle.old.me }
    requires there { (standing handle.old.me).call ≢ calls.Leave }
    requires may { may_begin table.now.key.config call ≡ true }
    ensures ids { (handle.new.table_id ≡ handle.old.table_id) × (handle.new.id ≡ handle.old.id) }
    ensures seated { IsSeated table.now.key seat handle.new.me }
    ensures view { handle.new.me.0 ≡ handle.old.me.0 }
    ensures begins { standing handle.new.me ≡ begun (standing handle.old.me) call }
{
    forget(table.exchange(handle, 8 * seat as usize, Some(Kept::Begun { call })));
}

/// The next step of the handle's seat, whose call is under way, one that moves no list: one atomic step on one word, which
/// lies at this spot. It answers the word before, and 0 for a store. At the call's first step the slot is emptied too; at
/// the others nothing else is written.
#[inline(always)]
pub fn step(table: &Ledger, handle: &mut Handle, seat: u32, op: Op, spot: usize, first: bool) -> u64
    requires ids { handle.old.table_id ≡ table.now.table_id }
    requires sized { IsSized table.now.table_id table.now.key }
    requires seated { IsSeated table.now.key seat handle.old.me }
    requires busy { busy_in (standing handle.old.me).phase ≡ true }
    requires asks { op ≡ asks (standing handle.old.me) }
    requires spot { spot ≡ spot_of table.now.key (word_in op) }
    requires later { first ≡ false → call_in handle.old.me.1 ≡ None }
    requires moves { MovesNone (standing handle.old.me) }
    ensures ids { (handle.new.table_id ≡ handle.old.table_id) × (handle.new.id ≡ handle.old.id) }
    ensures seated { IsSeated table.now.key seat handle.new.me }
    ensures slot { call_in handle.new.me.1 ≡ None }
    ensures stands { may_adopt (standing handle.old.me).phase ≡ false → standing handle.new.me ≡ after (keeping (standing handle.old.me)) result }
    ensures told { Told table.now.key handle.old.me result handle.new.me.0 }
{
    let found = perform(table, handle, &op, spot);
    if first {
        empty(table, handle, seat);
    }
    found
}

// Empties the slot. It is code of its own, so that the empty slot is made after the step: a compiler takes the step for one
// that may change all memory, and reads again what was made before it.
#[inline(always)]
fn empty(table: &Ledger, handle: &mut Handle, seat: u32)
    requires ids { handle.old.table_id ≡ table.now.table_id }
    requires there { (kept : _) × (handle.old.me.1 ≡ (slot_at seat, kept) ∷ rest handle.old.me.1) }
    ensures ids { (handle.new.table_id ≡ handle.old.table_id) × (handle.new.id ≡ handle.old.id) }
    ensures me { handle.new.me ≡ (handle.old.me.0, (slot_at seat, None) ∷ rest handle.old.me.1) }
{
    forget(table.exchange(handle, 8 * seat as usize, None));
}

/// The same at a step that is not the call's first: the slot is empty, and stays so.
#[inline(always)]
pub fn step_on(table: &Ledger, handle: &mut Handle, _seat: u32, op: &Op, spot: usize) -> u64
    requires ids { handle.old.table_id ≡ table.now.table_id }
    requires sized { IsSized table.now.table_id table.now.key }
    requires seated { IsSeated table.now.key _seat handle.old.me }
    requires busy { busy_in (standing handle.old.me).phase ≡ true }
    requires asks { op.now ≡ asks (standing handle.old.me) }
    requires spot { spot ≡ spot_of table.now.key (word_in op.now) }
    requires later { call_in handle.old.me.1 ≡ None }
    requires moves { MovesNone (standing handle.old.me) }
    ensures ids { (handle.new.table_id ≡ handle.old.table_id) × (handle.new.id ≡ handle.old.id) }
    ensures seated { IsSeated table.now.key _seat handle.new.me }
    ensures slot { call_in handle.new.me.1 ≡ None }
    ensures stands { may_adopt (standing handle.old.me).phase ≡ false → standing handle.new.me ≡ after (keeping (standing handle.old.me)) result }
    ensures told { Told table.now.key handle.old.me result handle.new.me.0 }
{
    perform(table, handle, op, spot)
}

// The atomic step alone: the slot is as it was.
#[inline(always)]
fn perform(table: &Ledger, handle: &mut Handle, op: &Op, spot: usize) -> u64
    requires ids { handle.old.table_id ≡ table.now.table_id }
    requires sized { IsSized table.now.table_id table.now.key }
    requires seated { IsSeated table.now.key (seat_of (own handle.old.me.0)) handle.old.me }
    requires busy { busy_in (standing handle.old.me).phase ≡ true }
    requires asks { op.now ≡ asks (standing handle.old.me) }
    requires spot { spot ≡ spot_of table.now.key (word_in op.now) }
    requires moves { MovesNone (standing handle.old.me) }
    ensures ids { (handle.new.table_id ≡ handle.old.table_id) × (handle.new.id ≡ handle.old.id) }
    ensures slots { handle.new.me.1 ≡ handle.old.me.1 }
    ensures told { Told table.now.key handle.old.me result handle.new.me.0 }
{
    match *op {
        Op::Load { word: _ } => table.load::<OneStep>(handle, spot),
        Op::Store { word: _, value } => {
            table.store::<OneStep>(handle, spot, value);
            0
        }
        Op::Cas { word: _, old, new } => {
            table.compare_exchange::<OneStep>(handle, spot, old, new)
        }
        Op::Or { word: _, bits } => table.fetch_or::<OneStep>(handle, spot, bits),
        Op::And { word: _, bits } => table.fetch_and::<OneStep>(handle, spot, bits),
    }
}
