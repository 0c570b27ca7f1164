// A machine of a call in a loop of its own, whatever the call does after it.
ghost use Rattle.std.specs.Prelude.{◌≡◌, ◌<◌};
ghost use Rattle.wfe_core.specs.Calls.{Runs, Why};
ghost use Rattle.wfe_core.specs.DeskHeld.{HasRoom};
ghost use Rattle.wfe_core.specs.Ready.{Within};
ghost use Rattle.wfe_drive_words.specs.Called.{Here, at_phase};
ghost use Rattle.wfe_drive_runs.specs.Pieces.{EndsSo, IsWalk};

use wfe_core::{Desk, Machine, Post, Told};
use wfe_drive_words::{Located, Words, step};

/// Makes the steps of a machine until it ends, and notes what they tell.
pub fn run<W: Words, M: Machine>(
    words: &mut W,
    mut machine: M,
    post: &mut Post,
    desk: &mut Desk,
) -> M::End
    requires valid { W.valid words.old }
    requires later { W.later words.old }
    requires here { (why : Why) × Here (W.at words.old) (at_phase (Runs why (M.phase machine)) post.old desk.old) }
    requires room { HasRoom desk.old post.old.layout }
    ensures valid { W.valid words.new }
    ensures later { W.later words.new }
    ensures same { W.same words.old words.new }
    ensures rest { W.rest words.new < W.rest words.old }
    ensures room { HasRoom desk.new post.new.layout }
    ensures layout { post.new.layout ≡ post.old.layout }
    ensures within { Within (M.ending result) post.new }
    ensures walks { IsWalk (M.phase machine) → post.new.standing ≡ post.old.standing }
    ensures ends { (why : Why) → Here (W.at words.old) (at_phase (Runs why (M.phase machine)) post.old desk.old)
        → EndsSo (W.at words.old) (W.at words.new) (W.stands words.old) (W.stands words.new)
        (at_phase (Runs why (M.phase machine)) post.old desk.old) why (M.ending result) post.new desk.new }
{
    let mut told = Told::new();
    loop {
        let op = machine.next_op(post);
        let at = Located::of(&post.layout, op);
        let found = step(words, at);
        post.steps += 1;
        told.clear();
        let ended = machine.take(post, found, &mut told);
        desk.notes.note_all(&told);
        if let Some(end) = ended {
            return end;
        }
    }
}
