// Rounds, until the call is answered.
ghost use Rattle.std.specs.Prelude.{◌≡◌, ◌<◌};
ghost use Rattle.wfe_core.specs.Calls.{Changes, Idle};
ghost use Rattle.wfe_core.specs.DeskHeld.{HasRoom, desk_of};
ghost use Rattle.wfe_core.specs.Rounds.{round};
ghost use Rattle.wfe_drive_runs.specs.call_rounds.Endings.{next_of};
ghost use Rattle.wfe_drive_runs.specs.drive_words.Called.{Here, at_phase};
ghost use Rattle.wfe_drive_runs.specs.drive_words.Path.{Closes, Leads};
ghost use Rattle.wfe_drive_runs.specs.Pieces.{IsFree};
ghost use Rattle.wfe_drive_call.specs.Changing.{clears_at, first_kept, kept_of};

use crate::ending::end_round;
use crate::fill::fill_row;
use crate::kept::Kept;
use crate::opening::begin_round;
use wfe_core::{Answer, Change, Desk, Post};
use wfe_drive_runs::{RoundEnd, Words};

// Makes a round, up to where the index is to be cleared. (It has no hint: with one it would count as a part of its caller, which
// is compiled into its own only while it is small.)
fn make_round<W: Words, C>(
    words: &mut W,
    post: &mut Post,
    desk: &mut Desk,
    kept: &mut Kept,
) -> RoundEnd
    requires valid { W.valid words.old }
    requires free { IsFree post.old }
    requires room { HasRoom desk.old post.old.layout }
    requires here { Here (W.at words.old) (at_phase (round (Changes (kept_of kept.old)) post.old) post.old desk.old) }
    ensures valid { W.valid words.new }
    ensures later { W.later words.new }
    ensures same { W.same words.old words.new }
    ensures rest { W.rest words.new < W.rest words.old }
    ensures room { HasRoom desk.new post.new.layout }
    ensures layout { post.new.layout ≡ post.old.layout }
    ensures free { IsFree post.new }
    ensures leads { Leads (W.at words.old) (W.at words.new) (W.stands words.old) (W.stands words.new)
        (at_phase (round (Changes (kept_of kept.old)) post.old) post.old desk.old) (clears_at (kept_of kept.new) (next_of result) post.new (desk_of desk.new)) }
{
    begin_round::<W, C>(words, post, desk, kept);
    match kept.refused(post) {
        Some(answer) => RoundEnd::Answers(answer),
        None => fill_row(words, post, desk, kept),
    }
}

/// Makes a put or a remove from its first step to its answer, and a put that names a version. Under 2GE
/// its seat keeps no row. The type names the code that it is part of, which has a copy of its own: too large a
/// function is compiled into its caller only where it has no other.
#[inline(always)]
pub fn change_bucket<W: Words, C>(
    words: &mut W,
    post: &mut Post,
    desk: &mut Desk,
    change: Change,
    wanted: Option<u64>,
) -> Answer
    requires valid { W.valid words.old }
    requires free { IsFree post.old }
    requires here { Here (W.at words.old) (at_phase (round (Changes (first_kept change wanted)) post.old) post.old desk.old) }
    requires room { HasRoom desk.old post.old.layout }
    ensures valid { W.valid words.new }
    ensures same { W.same words.old words.new }
    ensures room { HasRoom desk.new post.new.layout }
    ensures made { Closes result (W.at words.old) (W.at words.new) (W.stands words.old) (W.stands words.new)
        (at_phase (round (Changes (first_kept change wanted)) post.old) post.old desk.old) (at_phase Idle post.new desk.new) }
{
    let mut kept = Kept::new(change, wanted);
    loop {
        let ending = make_round::<W, C>(words, post, desk, &mut kept);
        match end_round(words, post, desk, kept.taken, ending) {
            Some(answer) => return answer,
            None => {}
        }
    }
}
