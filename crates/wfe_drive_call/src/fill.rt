// A row for the change: the one that it has taken, or a new one, written and linked.
ghost use Rattle.std.specs.Prelude.{◌≡◌, ◌<◌, ◌≤◌, Some, MatchOption};
ghost use Rattle.wfe_core.specs.Change.{filling, no_room as room_sought, with_change};
ghost use Rattle.wfe_core.specs.DeskHeld.{HasRoom, desk_of};
ghost use Rattle.wfe_drive_runs.specs.call_rounds.Endings.{next_of};
ghost use Rattle.wfe_drive_runs.specs.drive_words.Called.{Here};
ghost use Rattle.wfe_drive_runs.specs.drive_words.Path.{Leads};
ghost use Rattle.wfe_drive_runs.specs.Pieces.{IsFree};
ghost use Rattle.wfe_drive_call.specs.Changing.{clears_at, fills_at, kept_of, writes_at};

use crate::exchange::exchange;
use crate::kept::Kept;
use crate::write::write_row;
use wfe_core::{AllocateEnd, Desk, Post};
use wfe_drive_runs::{RoundEnd, Words, no_room, take_row};

// Takes a row, unless one is taken. Where none was free the walk is noted.
#[inline(always)]
fn row_for<W: Words>(
    words: &mut W,
    post: &mut Post,
    desk: &mut Desk,
    kept: &mut Kept,
) -> Option<u32>
    requires valid { W.valid words.old }
    requires later { W.later words.old }
    requires room { HasRoom desk.old post.old.layout }
    requires free { IsFree post.old }
    requires here { Here (W.at words.old) (fills_at (kept_of kept.old) (filling (kept_of kept.old)) post.old (desk_of desk.old)) }
    ensures valid { W.valid words.new }
    ensures later { W.later words.new }
    ensures same { W.same words.old words.new }
    ensures rest { W.rest words.new ≤ W.rest words.old }
    ensures room { HasRoom desk.new post.new.layout }
    ensures layout { post.new.layout ≡ post.old.layout }
    ensures free { IsFree post.new }
    ensures taken { MatchOption result
        (Leads (W.at words.old) (W.at words.new) (W.stands words.old) (W.stands words.new)
        (fills_at (kept_of kept.old) (filling (kept_of kept.old)) post.old (desk_of desk.old)) (clears_at (kept_of kept.new) (room_sought (kept_of kept.old).walked) post.new (desk_of desk.new)))
        (λ slot. ((kept_of kept.new).taken ≡ Some slot)
        × Leads (W.at words.old) (W.at words.new) (W.stands words.old) (W.stands words.new)
        (fills_at (kept_of kept.old) (filling (kept_of kept.old)) post.old (desk_of desk.old)) (writes_at (kept_of kept.new) slot 1 post.new (desk_of desk.new))) }
{
    match kept.taken {
        Some(slot) => Some(slot),
        None => match take_row(words, post, desk) {
            AllocateEnd::Given { slot, .. } => {
                kept.taken = Some(slot);
                Some(slot)
            }
            AllocateEnd::Full => {
                kept.walked = true;
                None
            }
        },
    }
}

// Writes the row that is taken, and exchanges the root for it.
#[inline(always)]
fn link_row<W: Words>(
    words: &mut W,
    post: &mut Post,
    _desk: &Desk,
    kept: &mut Kept,
    slot: u32,
) -> RoundEnd
    requires valid { W.valid words.old }
    requires later { W.later words.old }
    requires taken { (kept_of kept.old).taken ≡ Some slot }
    requires free { IsFree post.old }
    requires here { Here (W.at words.old) (writes_at (kept_of kept.old) slot 1 post.old (desk_of _desk.now)) }
    ensures valid { W.valid words.new }
    ensures later { W.later words.new }
    ensures same { W.same words.old words.new }
    ensures rest { W.rest words.new < W.rest words.old }
    ensures layout { post.new.layout ≡ post.old.layout }
    ensures free { IsFree post.new }
    ensures leads { Leads (W.at words.old) (W.at words.new) (W.stands words.old) (W.stands words.new)
        (writes_at (kept_of kept.old) slot 1 post.old (desk_of _desk.now)) (clears_at (kept_of kept.new) (next_of result) post.new (desk_of _desk.now)) }
{
    let desk = _desk;
    let steps = write_row(words, post, desk, kept, slot, post.steps);
    post.steps = steps;
    exchange(words, post, desk, kept, slot)
}

// The change is made in the pairs, and a row is filled with them and linked.
#[inline(always)]
pub fn fill_row<W: Words>(
    words: &mut W,
    post: &mut Post,
    desk: &mut Desk,
    kept: &mut Kept,
) -> RoundEnd
    requires valid { W.valid words.old }
    requires later { W.later words.old }
    requires room { HasRoom desk.old post.old.layout }
    requires free { IsFree post.old }
    requires here { Here (W.at words.old) (fills_at (with_change (kept_of kept.old)) (filling (with_change (kept_of kept.old))) post.old (desk_of desk.old)) }
    ensures valid { W.valid words.new }
    ensures later { W.later words.new }
    ensures same { W.same words.old words.new }
    ensures rest { W.rest words.new ≤ W.rest words.old }
    ensures room { HasRoom desk.new post.new.layout }
    ensures layout { post.new.layout ≡ post.old.layout }
    ensures free { IsFree post.new }
    ensures leads { Leads (W.at words.old) (W.at words.new) (W.stands words.old) (W.stands words.new)
        (fills_at (with_change (kept_of kept.old)) (filling (with_change (kept_of kept.old))) post.old (desk_of desk.old)) (clears_at (kept_of kept.new) (next_of result) post.new (desk_of desk.new)) }
{
    kept.change();
    let walked = kept.walked;
    match row_for(words, post, desk, kept) {
        Some(slot) => link_row(words, post, desk, kept, slot),
        None => no_room(walked),
    }
}
