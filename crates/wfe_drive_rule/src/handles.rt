// How handles of the shared table are made, take and give their slots, tell and hear how far a history is known, and are joined.
ghost use Rattle.std.specs.Prelude.{[], ◌∷◌, ◌≡◌, ◌≢◌, ◌≤◌, ◌<◌, None};
ghost use Rattle.wfe_core.specs.defs.declared.call.Call.TheVariants as calls;
ghost use Rattle.wfe_drive_rule.specs.Handles.{IsBare, IsGathered, IsIdle, IsResting, IsSeated, IsSized, IsTracked};
ghost use Rattle.wfe_drive_rule.specs.Moves.{Learns, bared, hearing, one_more, slotted, taken_in};
ghost use Rattle.wfe_drive_rule.specs.Spots.{slot_at};
ghost use Rattle.wfe_drive_rule.specs.Views.{bare_view, fresh_track, own, seat_of, tidings};

use crate::rule::{
    GiveSlot, Handle, HearNews, Ledger, OneMore, TakeIn, TakeNews, TakeSlot, TellNews,
};

/// A handle of one seat more, out of the handle that counts them. The new seat's number is the count so
/// far, which is below the number of seats of the table, and it has made no call.
pub fn split(table: &Ledger, handle: &mut Handle) -> Handle
    requires ids { handle.old.table_id ≡ table.now.table_id }
    requires sized { IsSized table.now.table_id table.now.key }
    requires tracked { IsTracked table.now.key (own handle.old.me.0) }
    requires counts { 1 ≤ handle.old.me.0.made }
    requires room { handle.old.me.0.made < table.now.key.config.seats }
    ensures ids { (handle.new.table_id ≡ handle.old.table_id) × (handle.new.id ≡ handle.old.id) × (result.table_id ≡ handle.old.table_id) }
    ensures handle { handle.new.me ≡ (one_more handle.old.me.0, handle.old.me.1) }
    ensures made { result.me ≡ (bare_view 0 (fresh_track table.now.key handle.old.me.0.made), []) }
    ensures bare { IsBare table.now.key result.me }
{
    table.split_seat::<OneMore>(handle)
}

/// A handle takes its seat's slot, where the seat is between calls and has not
/// left. The slot is empty.
pub fn take_slot(table: &Ledger, handle: &mut Handle, seat: u32)
    requires ids { handle.old.table_id ≡ table.now.table_id }
    requires sized { IsSized table.now.table_id table.now.key }
    requires bare { IsBare table.now.key handle.old.me }
    requires number { seat ≡ seat_of (own handle.old.me.0) }
    requires idle { IsIdle (own handle.old.me.0) }
    requires there { (own handle.old.me.0).local.call ≢ calls.Leave }
    ensures ids { (handle.new.table_id ≡ handle.old.table_id) × (handle.new.id ≡ handle.old.id) }
    ensures taken { handle.new.me ≡ (slotted handle.old.me.0, (slot_at seat, None) ∷ []) }
    ensures seated { IsSeated table.now.key seat handle.new.me }
    ensures resting { IsResting handle.new.me }
{
    table.load::<TakeSlot>(handle, 0);
}

/// A handle gives its slot back, where its seat is between calls.
pub fn give_slot(table: &Ledger, handle: &mut Handle, seat: u32)
    requires ids { handle.old.table_id ≡ table.now.table_id }
    requires sized { IsSized table.now.table_id table.now.key }
    requires seated { IsSeated table.now.key seat handle.old.me }
    requires resting { IsResting handle.old.me }
    ensures ids { (handle.new.table_id ≡ handle.old.table_id) × (handle.new.id ≡ handle.old.id) }
    ensures given { handle.new.me ≡ (bared handle.old.me.0, []) }
    ensures gathered { IsGathered handle.new.me }
{
    table.load::<GiveSlot>(handle, 0);
}

/// A handle takes in another, where the seats of both are between calls. The other's seats come after
/// its own, in their order.
pub fn take_in(table: &Ledger, handle: &mut Handle, other: Handle)
    requires ids { (handle.old.table_id ≡ table.now.table_id) × (other.table_id ≡ table.now.table_id) }
    requires sized { IsSized table.now.table_id table.now.key }
    requires gathered { IsGathered handle.old.me × IsGathered other.me }
    ensures ids { (handle.new.table_id ≡ handle.old.table_id) × (handle.new.id ≡ handle.old.id) }
    ensures joined { handle.new.me ≡ (taken_in handle.old.me.0 other.me.0, []) }
    ensures gathered { IsGathered handle.new.me }
{
    table.join_seat::<TakeIn>(handle, other);
}

/// A handle without a seat, which tells how far the history of this one's seat is known.
pub fn tell_news(table: &Ledger, handle: &mut Handle, seat: u32) -> Handle
    requires ids { handle.old.table_id ≡ table.now.table_id }
    requires sized { IsSized table.now.table_id table.now.key }
    requires seated { IsSeated table.now.key seat handle.old.me }
    ensures ids { (handle.new.table_id ≡ handle.old.table_id) × (handle.new.id ≡ handle.old.id) × (result.table_id ≡ handle.old.table_id) }
    ensures same { handle.new.me ≡ handle.old.me }
    ensures told { result.me ≡ (tidings (own handle.old.me.0).past, []) }
{
    table.split_seat::<TellNews>(handle)
}

/// A handle hears what another tells, by a load of one word: its seat's past becomes a history that begins with what it was, and
/// with what is told. The other is spent.
pub fn hear_news(table: &Ledger, handle: &mut Handle, seat: u32, news: Handle)
    requires ids { (handle.old.table_id ≡ table.now.table_id) × (news.table_id ≡ table.now.table_id) }
    requires sized { IsSized table.now.table_id table.now.key }
    requires seated { IsSeated table.now.key seat handle.old.me }
    requires told { news.me ≡ (tidings news.me.0.heard, []) }
    ensures ids { (handle.new.table_id ≡ handle.old.table_id) × (handle.new.id ≡ handle.old.id) }
    ensures learns { Learns table.now.key (hearing handle.old.me.0 news.me.0, handle.old.me.1) handle.new.me }
    ensures seated { IsSeated table.now.key seat handle.new.me }
{
    take_news(table, handle, seat, news);
    table.load::<HearNews>(handle, 0);
}

// The handle has what the other tells.
fn take_news(table: &Ledger, handle: &mut Handle, seat: u32, news: Handle)
    requires ids { (handle.old.table_id ≡ table.now.table_id) × (news.table_id ≡ table.now.table_id) }
    requires sized { IsSized table.now.table_id table.now.key }
    requires seated { IsSeated table.now.key seat handle.old.me }
    requires told { news.me ≡ (tidings news.me.0.heard, []) }
    ensures ids { (handle.new.table_id ≡ handle.old.table_id) × (handle.new.id ≡ handle.old.id) }
    ensures taken { handle.new.me ≡ (hearing handle.old.me.0 news.me.0, handle.old.me.1) }
    ensures seated { IsSeated table.now.key seat handle.new.me }
{
    table.join_seat::<TakeNews>(handle, news);
}
