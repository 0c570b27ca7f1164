// The exchange of the root, and what the round ends with.
ghost use Rattle.std.specs.Prelude.{◌≡◌, ◌<◌, ◌≤◌, ◌+◌};
ghost use Rattle.wfe_core.specs.Calls.{ExchangeRoot};
ghost use Rattle.wfe_core.specs.Change.{change_move};
ghost use Rattle.wfe_core.specs.DeskHeld.{desk_of};
ghost use Rattle.wfe_core.specs.Valid.{IsValid};
ghost use Rattle.wfe_drive_runs.specs.drive_words.drive_cells.Spots.{spotted};
ghost use Rattle.wfe_drive_runs.specs.call_rounds.Endings.{next_of};
ghost use Rattle.wfe_drive_runs.specs.drive_words.Called.{Here};
ghost use Rattle.wfe_drive_runs.specs.drive_words.Path.{Leads};
ghost use Rattle.wfe_drive_call.specs.Changing.{clears_at, kept_of, works_at};

use crate::kept::Kept;
use wfe_core::{Answer, ClockMove, Desk, Op, Post};
use wfe_drive_runs::{Located, RoundEnd, Words, step};

// An exchange of the bucket's root: the link that was loaded for this row.
#[inline(always)]
fn swap_root(post: &Post, kept: &Kept, slot: u32) -> Located
    requires own { IsValid post.now }
    requires slot { slot ≤ post.now.layout.config.slots }
    ensures { result ≡ spotted post.now.layout (change_move (kept_of kept.now) (ExchangeRoot slot) post.now) }
{
    let word = post.layout.bucket(kept.bucket(post));
    let op = Op::Cas {
        word,
        old: kept.link as u64,
        new: slot as u64 + 1,
    };
    Located::root(&post.layout, op)
}

// Exchanges the root. Where it has moved, another round comes; else the row that was cut is to be
// retired.
#[inline(always)]
pub fn exchange<W: Words>(
    words: &mut W,
    post: &mut Post,
    _desk: &Desk,
    kept: &mut Kept,
    slot: u32,
) -> RoundEnd
    requires valid { W.valid words.old }
    requires later { W.later words.old }
    requires own { IsValid post.old }
    requires slot { slot ≤ post.old.layout.config.slots }
    requires here { Here (W.at words.old) (works_at (kept_of kept.old) (ExchangeRoot slot) post.old (desk_of _desk.now)) }
    ensures valid { W.valid words.new }
    ensures later { W.later words.new }
    ensures same { W.same words.old words.new }
    ensures rest { W.rest words.new < W.rest words.old }
    ensures post { post.new ≡ record post.old { steps = post.old.steps + 1 } }
    ensures leads { Leads (W.at words.old) (W.at words.new) (W.stands words.old) (W.stands words.new)
        (works_at (kept_of kept.old) (ExchangeRoot slot) post.old (desk_of _desk.now)) (clears_at (kept_of kept.new) (next_of result) post.new (desk_of _desk.now)) }
{
    let found = step(words, swap_root(post, kept, slot));
    post.steps += 1;
    if found != kept.link as u64 {
        return RoundEnd::Again;
    }
    kept.taken = None;
    let answer = Answer::Done {
        version: kept.version + 1,
        clock: ClockMove::Still,
    };
    if kept.link == 0 {
        return RoundEnd::Answers(answer);
    }
    RoundEnd::Retires {
        slot: kept.link - 1,
        answer,
    }
}
