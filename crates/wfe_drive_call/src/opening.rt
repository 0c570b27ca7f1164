// The beginning of a round: the bucket's root is protected, and its row is read.
ghost use Rattle.std.specs.Prelude.{◌≡◌, ◌<◌, ◌≤◌, ◌+◌};
ghost use Rattle.wfe_core.specs.Calls.{Changes, LoadVersion};
ghost use Rattle.wfe_core.specs.Change.{at_link};
ghost use Rattle.wfe_core.specs.DeskHeld.{HasRoom, desk_of};
ghost use Rattle.wfe_core.specs.Rounds.{round};
ghost use Rattle.wfe_drive_runs.specs.drive_words.Called.{Here, at_phase};
ghost use Rattle.wfe_drive_runs.specs.drive_words.Path.{Leads};
ghost use Rattle.wfe_drive_runs.specs.Pieces.{IsFree};
ghost use Rattle.wfe_drive_call.specs.Changing.{kept_of, read_at, works_at};

use crate::kept::Kept;
use crate::read::read_row;
use wfe_core::{Desk, Post};
use wfe_drive_runs::{Words, open_round};

// Reads a row that is held.
#[inline(always)]
fn read_held<W: Words>(words: &mut W, post: &mut Post, _desk: &Desk, kept: &mut Kept, slot: u32)
    requires valid { W.valid words.old }
    requires later { W.later words.old }
    requires slot { slot ≤ post.old.layout.config.slots }
    requires free { IsFree post.old }
    requires here { Here (W.at words.old) (works_at (at_link (kept_of kept.old) (slot + 1)) (LoadVersion slot) post.old (desk_of _desk.now)) }
    ensures valid { W.valid words.new }
    ensures later { W.later words.new }
    ensures same { W.same words.old words.new }
    ensures rest { W.rest words.new ≤ W.rest words.old }
    ensures layout { post.new.layout ≡ post.old.layout }
    ensures free { IsFree post.new }
    ensures leads { Leads (W.at words.old) (W.at words.new) (W.stands words.old) (W.stands words.new)
        (works_at (at_link (kept_of kept.old) (slot + 1)) (LoadVersion slot) post.old (desk_of _desk.now)) (read_at (kept_of kept.new) post.new (desk_of _desk.now)) }
{
    kept.protected(slot + 1);
    let desk = _desk;
    let steps = read_row(words, post, desk, kept, slot, post.steps);
    post.steps = steps;
}

// Begins a round. The code is one that the type names.
#[inline(always)]
pub fn begin_round<W: Words, C>(words: &mut W, post: &mut Post, desk: &mut Desk, kept: &mut Kept)
    requires valid { W.valid words.old }
    requires free { IsFree post.old }
    requires room { HasRoom desk.old post.old.layout }
    requires here { Here (W.at words.old) (at_phase (round (Changes (kept_of kept.old)) post.old) post.old desk.old) }
    ensures valid { W.valid words.new }
    ensures later { W.later words.new }
    ensures same { W.same words.old words.new }
    ensures rest { W.rest words.new < W.rest words.old }
    ensures room { HasRoom desk.new post.new.layout }
    ensures layout { post.new.layout ≡ post.old.layout }
    ensures free { IsFree post.new }
    ensures leads { Leads (W.at words.old) (W.at words.new) (W.stands words.old) (W.stands words.new)
        (at_phase (round (Changes (kept_of kept.old)) post.old) post.old desk.old) (read_at (kept_of kept.new) post.new (desk_of desk.new)) }
{
    let root = kept.root(post);
    match open_round::<W, C>(words, post, desk, root) {
        Some(slot) => read_held(words, post, desk, kept, slot),
        None => kept.protected(0),
    }
}
