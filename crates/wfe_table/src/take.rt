// The steps by which a seat takes over the list that another has left.
ghost use Rattle.std.specs.Prelude.{◌≡◌, ◌≢◌, ◌<◌, ◌≤◌, ◌++◌, IfErr, IfOk, MatchResult, false};
ghost use Rattle.wfe_core.specs.Calls.{Idle};
ghost use Rattle.wfe_core.specs.DeskHeld.{HasRoom};
ghost use Rattle.wfe_core.specs.Held.{notes_of};
ghost use Rattle.wfe_core.specs.defs.declared.call.Answer.TheVariants as answers;
ghost use Rattle.wfe_core.specs.defs.declared.call.Call.TheVariants as calls;
ghost use Rattle.wfe_core.specs.words.Place.Place.{PlaceOf};
ghost use Rattle.wfe_core.specs.words.Place.{number};
ghost use Rattle.wfe_drive_call.specs.drive_words.Called.{at_phase};
ghost use Rattle.wfe_drive_call.specs.drive_words.Comes.{departs};
ghost use Rattle.wfe_drive_rule.specs.drive_cells.Unit.{shown};
ghost use Rattle.wfe_drive_rule.specs.Handles.{IsResting, IsSeated, IsSized};
ghost use Rattle.wfe_drive_rule.specs.drive_cells.Spots.{spot as spot_of};
ghost use Rattle.wfe_drive_rule.specs.Views.{own};
ghost use Rattle.wfe_drive_rule.specs.inv.rows.Facts.{Listing};
ghost use Rattle.wfe_table.specs.Places.{Adoption, Found, Missed, Took, notes_over, post_over};

use wfe_core::{Call, Desk, Post, RetireList};
use wfe_drive_cells::spot_at;
use wfe_drive_rule::{Handle, Ledger, adopt_list, begin, mark_place};

// An adoption of a seat, whose handle, post and desk go through it together: how many rows are in the list
// that was left, or the place word where none was.
pub(crate) fn take_list(
    ledger: &Ledger,
    handle: &mut Handle,
    post: &mut Post,
    desk: &mut Desk,
    place: u32,
) -> Result<u32, u64>
    requires ids { handle.old.table_id ≡ ledger.now.table_id }
    requires sized { IsSized ledger.now.table_id ledger.now.key }
    requires key { post.old.layout ≡ ledger.now.key }
    requires seated { IsSeated post.old.layout post.old.seat handle.old.me }
    requires resting { IsResting handle.old.me }
    requires there { departs (own handle.old.me.0).local.call ≡ false }
    requires here { shown (own handle.old.me.0).local ≡ at_phase Idle post.old desk.old }
    requires room { HasRoom desk.old post.old.layout }
    requires place { place < ledger.now.key.config.seats }
    ensures ids { handle.new.table_id ≡ handle.old.table_id }
    ensures key { post.new.layout ≡ post.old.layout }
    ensures seated { IsSeated post.new.layout post.new.seat handle.new.me }
    ensures resting { IsResting handle.new.me }
    ensures here { shown (own handle.new.me.0).local ≡ at_phase Idle post.new desk.new }
    ensures room { HasRoom desk.new post.new.layout }
    ensures made { MatchResult result
        (λ count. Adoption place (answers.Adopted count) (own handle.old.me.0) (own handle.new.me.0))
        (λ found. Found place found (own handle.old.me.0) (own handle.new.me.0)) }
{
    let word = post.layout.place(place);
    let spot = spot_at(&post.layout, word);
    match take_on(ledger, handle, post.seat, word, spot, place) {
        Ok(list) => {
            append(&mut desk.list, &list);
            end_call(post, desk, 2);
            Ok(list.len() as u32)
        }
        Err(found) => {
            end_call(post, desk, 1);
            Err(found)
        }
    }
}

// A call is over after so many steps, and has noted nothing.
fn end_call(post: &mut Post, desk: &mut Desk, steps: u64)
    ensures post { post.new ≡ post_over post.old steps }
    ensures list { desk.new.list ≡ desk.old.list }
    ensures report { desk.new.report ≡ desk.old.report }
    ensures notes { notes_of desk.new.notes ≡ notes_over steps }
    ensures room { desk.old.notes.room ≤ desk.new.notes.room }
{
    post.steps = steps;
    desk.notes.clear();
    desk.notes.steps = steps;
}

// An exchange of the place word, and where a list was left there a store into it: that list, or the word
// found.
fn take_on(
    ledger: &Ledger,
    handle: &mut Handle,
    seat: u32,
    word: u32,
    spot: usize,
    place: u32,
) -> Result<RetireList, u64>
    requires ids { handle.old.table_id ≡ ledger.now.table_id }
    requires sized { IsSized ledger.now.table_id ledger.now.key }
    requires seated { IsSeated ledger.now.key seat handle.old.me }
    requires resting { IsResting handle.old.me }
    requires there { (own handle.old.me.0).local.call ≢ calls.Leave }
    requires place { place < ledger.now.key.config.seats }
    requires word { word ≡ number ledger.now.key (PlaceOf place) }
    requires spot { spot ≡ spot_of ledger.now.key word }
    ensures ids { handle.new.table_id ≡ handle.old.table_id }
    ensures seated { IsSeated ledger.now.key seat handle.new.me }
    ensures resting { IsResting handle.new.me }
    ensures taken { IfOk result (λ list. (list.slots ≡ ledger.now.key.config.slots) × Took place (own handle.old.me.0) list.lives handle.new.me) }
    ensures missed { IfErr result (λ found. (found ≢ 1) × Missed place found (own handle.old.me.0) handle.new.me) }
{
    begin(ledger, handle, seat, Call::Adopt { place });
    match adopt_list(ledger, handle, seat, word, spot, place) {
        Ok(list) => {
            mark_place(ledger, handle, seat, word, spot, place);
            Ok(list)
        }
        Err(found) => Err(found),
    }
}

// The lives of a list go to the end of another.
fn append(list: &mut RetireList, other: &RetireList)
    requires fits { Listing list.old.slots (list.old.lives ++ other.now.lives) }
    ensures lives { list.new.lives ≡ list.old.lives ++ other.now.lives }
    ensures slots { list.new.slots ≡ list.old.slots }
{
    for place in 0..other.len() {
        list.add(other.get(place));
    }
}
