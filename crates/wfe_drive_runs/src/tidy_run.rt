// The clock is moved, where retirements move it, and the retire list scanned, whatever the call does after it.
ghost use Rattle.std.specs.Prelude.{◌≡◌, ◌<◌};
ghost use Rattle.wfe_core.specs.defs.declared.call.ClockMove.TheVariants.{Still as StillMove};
ghost use Rattle.wfe_core.specs.Calls.{AfterScan};
ghost use Rattle.wfe_core.specs.DeskHeld.{HasRoom};
ghost use Rattle.wfe_core.specs.Rounds.{first_tidy};
ghost use Rattle.wfe_core.specs.Steps.{after_move};
ghost use Rattle.wfe_drive_words.specs.Called.{Here, at_phase};
ghost use Rattle.wfe_drive_runs.specs.Pieces.{ScansSo};

use crate::clock_run::move_clock;
use crate::scan_run::scan;
use wfe_core::{ClockMove, Desk, Post};
use wfe_drive_words::Words;

/// Moves the clock, where the scheme has retirements move it, and then scans. It answers the outcome of the
/// move, in eras; `Still` where there is none.
pub fn tidy<W: Words>(words: &mut W, post: &mut Post, desk: &mut Desk) -> ClockMove
    requires valid { W.valid words.old }
    requires later { W.later words.old }
    requires here { (later : AfterScan) × (after_move later StillMove ≡ later) × Here (W.at words.old) (at_phase (first_tidy later post.old) post.old desk.old) }
    requires room { HasRoom desk.old post.old.layout }
    ensures valid { W.valid words.new }
    ensures later { W.later words.new }
    ensures same { W.same words.old words.new }
    ensures rest { W.rest words.new < W.rest words.old }
    ensures room { HasRoom desk.new post.new.layout }
    ensures layout { post.new.layout ≡ post.old.layout }
    ensures standing { post.new.standing ≡ post.old.standing }
    ensures ends { (later : AfterScan) → after_move later StillMove ≡ later → Here (W.at words.old) (at_phase (first_tidy later post.old) post.old desk.old)
        → ScansSo (W.at words.old) (W.at words.new) (W.stands words.old) (W.stands words.new)
        (at_phase (first_tidy later post.old) post.old desk.old) later result post.new desk.new }
{
    let clock = move_clock(words, post, desk);
    scan(words, post, desk);
    clock
}
