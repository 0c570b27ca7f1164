// Calls that a seat makes.
ghost use Rattle.std.specs.Prelude.{◌≡◌, []};
ghost use Rattle.wfe_words.specs.declared.config.SchemeKind.{SchemeKind as Kind};
ghost use Rattle.wfe_core.specs.CallReady.{IsCallReady, IsCallPlausible, NotesFit};
ghost use Rattle.wfe_core.specs.Calls.{Phase};
ghost use Rattle.wfe_core.specs.DeskHeld.{HasRoom, Took, desk_of};
ghost use Rattle.wfe_core.specs.Posts.{counted};
ghost use Rattle.wfe_core.specs.Steps.{call_op, phase_turn};
ghost use Rattle.wfe_core.specs.Valid.{IsValid};

use crate::{Desk, Op, Post, Told};
use wfe_defs::Answer;

/// A call that makes one operation after another on the words of a table, until it answers. It takes
/// at least one step, and no memory.
pub trait CallMachine: Drop {
    ghost use Rattle.wfe_core.specs.declared.post.Post.{Post};

    /// The tables' schemes for which the call is.
    ghost suits: { Kind → Type 0 };

    /// Where it stands. A call that has made no step yet knows it from the post alone.
    ghost phase: { Self → Post → Phase };

    /// The operation that the call asks for.
    fn next_op(&self, post: &Post, desk: &Desk) -> Op
        requires valid { IsValid post.now }
        requires scheme { suits post.now.layout.config.scheme }
        requires ready { IsCallReady (phase self.now post.now) post.now (desk_of desk.now) }
        ensures { result ≡ call_op (phase self.now post.now) post.now };

    /// Takes what that operation found, and tells its events, End last where the call answers.
    fn take(
        &mut self,
        post: &mut Post,
        desk: &mut Desk,
        found: u64,
        told: &mut Told,
    ) -> Option<Answer>
        requires valid { IsValid post.old }
        requires scheme { suits post.old.layout.config.scheme }
        requires room { HasRoom desk.old post.old.layout }
        requires ready { IsCallReady (phase self.old post.old) post.old (desk_of desk.old) }
        requires noted { NotesFit post.old (desk_of desk.old) }
        requires plausible { IsCallPlausible (phase self.old post.old) post.old found }
        requires empty { told.old ≡ [] }
        ensures valid { IsValid post.new }
        ensures layout { post.new.layout ≡ post.old.layout }
        ensures seat { post.new.seat ≡ post.old.seat }
        ensures room { HasRoom desk.new post.new.layout }
        ensures took { Took (phase_turn (phase self.old post.old) (counted post.old) (desk_of desk.old) found)
            post.new desk.new told.new result (phase self.new post.new) };
}
