// The steps by which a seat leaves its list, and by which another takes that over.
ghost use Rattle.std.specs.Prelude.{◌≡◌, ◌≢◌, IfErr, IfOk, None};
ghost use Rattle.wfe_core.specs.Calls.{Keeping, MarkLeft, TakeList, Works};
ghost use Rattle.wfe_core.specs.Locals.{asks};
ghost use Rattle.law_reuse.specs.history.History.{world_of};
ghost use Rattle.wfe_core.specs.World.{offered};
ghost use Rattle.wfe_core.specs.declared.op.Op.TheVariants as ops;
ghost use Rattle.wfe_drive_rule.specs.Handles.{IsAdopting, IsBare, IsIdle, IsResting, IsSeated, IsSized};
ghost use Rattle.wfe_drive_rule.specs.Moves.{Told, slotted};
ghost use Rattle.wfe_drive_cells.specs.Spots.{spot as spot_of};
ghost use Rattle.wfe_drive_rule.specs.Views.{call_in, leave_if, own, seat_of, standing};

use crate::kept::Kept;
use crate::rule::{AdoptList, HandList, Handle, Ledger, MarkPlace};
use wfe_core::RetireList;

/// The last step of a leave, a store of 1 into the seat's place word, which lies at this spot: the slot
/// goes home with the seat's list in it, and the handle is bare. `first` says whether it is the leave's
/// only step.
pub fn hand_list(
    table: &Ledger,
    handle: &mut Handle,
    seat: u32,
    word: u32,
    spot: usize,
    list: RetireList,
    first: bool,
)
    requires ids { handle.old.table_id ≡ table.now.table_id }
    requires sized { IsSized table.now.table_id table.now.key }
    requires seated { IsSeated table.now.key seat handle.old.me }
    requires leaves { (standing handle.old.me).phase ≡ Works (Keeping MarkLeft) }
    requires spot { spot ≡ spot_of table.now.key word }
    requires asks { ops.Store word 1 ≡ asks (standing handle.old.me) }
    requires first { call_in handle.old.me.1 ≡ leave_if first }
    requires list { list ≡ record { lives = (standing handle.old.me).desk.list; slots = table.now.key.config.slots } }
    ensures ids { (handle.new.table_id ≡ handle.old.table_id) × (handle.new.id ≡ handle.old.id) }
    ensures bare { IsBare table.now.key handle.new.me }
    ensures idle { IsIdle (own handle.new.me.0) }
    ensures told { Told table.now.key handle.old.me 0 (slotted handle.new.me.0) }
{
    table.exchange(handle, 8 * seat as usize, Some(Kept::Left { list, first }));
    table.store::<HandList>(handle, spot, 1);
}

/// The first step of an adoption, an exchange of a seat's place word from 1 to 2. Where a list was left
/// there, it is taken out of that place's slot, and the handle has that slot, empty, beside its own. Else
/// the word found is answered.
pub fn adopt_list(
    table: &Ledger,
    handle: &mut Handle,
    seat: u32,
    word: u32,
    spot: usize,
    place: u32,
) -> Result<RetireList, u64>
    requires ids { handle.old.table_id ≡ table.now.table_id }
    requires sized { IsSized table.now.table_id table.now.key }
    requires seated { IsSeated table.now.key seat handle.old.me }
    requires takes { (standing handle.old.me).phase ≡ Works (Keeping (TakeList place)) }
    requires spot { spot ≡ spot_of table.now.key word }
    requires asks { ops.Cas word 1 2 ≡ asks (standing handle.old.me) }
    ensures ids { (handle.new.table_id ≡ handle.old.table_id) × (handle.new.id ≡ handle.old.id) }
    ensures taken { IfOk result (λ list. IsAdopting table.now.key seat place handle.new.me × (told : Told table.now.key handle.old.me 1 handle.new.me.0)
        × (list ≡ record { lives = (offered (world_of table.now.key told.items) (seat_of (own handle.old.me.0))).desk.gift; slots = table.now.key.config.slots })) }
    ensures missed { IfErr result (λ found. (found ≢ 1) × IsSeated table.now.key seat handle.new.me × (call_in handle.new.me.1 ≡ None) × Told table.now.key handle.old.me found handle.new.me.0) }
{
    let found = table.compare_exchange::<AdoptList>(handle, spot, 1, 2);
    if found != 1 {
        table.exchange(handle, 8 * seat as usize, None);
        return Err(found);
    }
    let kept = table.exchange(handle, 8 * place as usize, None);
    handle.turn();
    table.exchange(handle, 8 * seat as usize, None);
    handle.turn();
    match kept {
        Some(Kept::Left { list, first: _ }) => Ok(list),
        _ => unreachable!(),
    }
}

/// The last step of an adoption, a store of 3 into the place word: that place's slot goes home.
pub fn mark_place(
    table: &Ledger,
    handle: &mut Handle,
    seat: u32,
    word: u32,
    spot: usize,
    place: u32,
)
    requires ids { handle.old.table_id ≡ table.now.table_id }
    requires sized { IsSized table.now.table_id table.now.key }
    requires adopting { IsAdopting table.now.key seat place handle.old.me }
    requires spot { spot ≡ spot_of table.now.key word }
    requires asks { ops.Store word 3 ≡ asks (standing handle.old.me) }
    ensures ids { (handle.new.table_id ≡ handle.old.table_id) × (handle.new.id ≡ handle.old.id) }
    ensures seated { IsSeated table.now.key seat handle.new.me }
    ensures resting { IsResting handle.new.me }
    ensures told { Told table.now.key handle.old.me 0 handle.new.me.0 }
{
    table.store::<MarkPlace>(handle, spot, 3);
}
