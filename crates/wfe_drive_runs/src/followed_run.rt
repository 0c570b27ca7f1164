// The protection of a next link that asks for help, in a loop of its own.
ghost use Rattle.std.specs.Prelude.{◌≡◌, ◌<◌, ℕ};
ghost use Rattle.wfe_core.specs.Calls.{Runs, Why};
ghost use Rattle.wfe_core.specs.DeskHeld.{HasRoom};
ghost use Rattle.wfe_core.specs.Follow.{following};
ghost use Rattle.wfe_core.specs.Ready.{protect_within};
ghost use Rattle.wfe_drive_words.specs.Called.{Here, at_phase};
ghost use Rattle.wfe_drive_runs.specs.Following.{FollowsSo, IsNextAlone};
ghost use Rattle.wfe_drive_words.specs.fast.Phases.{protect_phase};

use wfe_core::{Desk, Machine, Post, ProtectEnd, Told};
use wfe_drive_words::{Located, WfeProtect, Words, step};

/// Makes the steps of a protection of the parent's next link at index 1 until it ends, and notes what they
/// tell. The row to which the link leads is not held before the head was loaded again.
pub fn run_followed<W: Words>(
    words: &mut W,
    mut machine: WfeProtect,
    post: &mut Post,
    desk: &mut Desk,
    _parent: u32,
) -> ProtectEnd
    requires valid { W.valid words.old }
    requires later { W.later words.old }
    requires of { IsNextAlone _parent (protect_phase machine) }
    requires here { (why : Why) × Here (W.at words.old) (at_phase (Runs why (following (protect_phase machine))) post.old desk.old) }
    requires room { HasRoom desk.old post.old.layout }
    ensures valid { W.valid words.new }
    ensures later { W.later words.new }
    ensures same { W.same words.old words.new }
    ensures rest { W.rest words.new < W.rest words.old }
    ensures room { HasRoom desk.new post.new.layout }
    ensures layout { post.new.layout ≡ post.old.layout }
    ensures within { protect_within result post.new }
    ensures follows { (why : Why) → Here (W.at words.old) (at_phase (Runs why (following (protect_phase machine))) post.old desk.old)
        → FollowsSo (W.at words.old) (W.at words.new) (W.stands words.old) (W.stands words.new)
        (at_phase (Runs why (following (protect_phase machine))) post.old desk.old) why _parent result post.new desk.new }
{
    let mut told = Told::new();
    loop {
        let op = machine.next_op(post);
        let at = Located::of(&post.layout, op);
        let found = step(words, at);
        post.steps += 1;
        told.clear();
        let ended = machine.take(post, found, &mut told);
        desk.notes.note_all(&told);
        if let Some(end) = ended {
            return end;
        }
    }
}
