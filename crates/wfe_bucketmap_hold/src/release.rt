// The call that lets go of what is held.
ghost use Rattle.std.specs.Prelude.{◌≡◌};
ghost use Rattle.wfe_core.specs.Calls.{Released};
ghost use Rattle.wfe_core.specs.Rounds.{letting};
ghost use Rattle.wfe_core.specs.declared.post.Post.{Post as ModelPost};

use crate::letting::{LetGo, Letting};
use wfe_call_rounds::Scheme;
use wfe_core::{Answer, CallMachine, Desk, Op, Post, Told};

/// Lets go of the row that the seat holds, if it holds one.
#[derive(Drop)]
pub struct Release<S: Scheme> {
    letting: Letting<S>,
}

impl<S: Scheme> Release<S> {
    /// A release that has made no step.
    pub fn new() -> Release<S>
        ensures { (post : ModelPost) → ⟦<Release<S> as CallMachine>⟧.phase result post ≡ letting Released post }
    {
        Release {
            letting: Letting::new(LetGo::Held),
        }
    }
}

impl<S: Scheme> CallMachine for Release<S> {
    ghost suits = { ⟦<Letting<S> as CallMachine>⟧.suits };

    ghost phase = { λ m post. ⟦<Letting<S> as CallMachine>⟧.phase m.letting post };

    fn next_op(&self, post: &Post, desk: &Desk) -> Op {
        self.letting.next_op(post, desk)
    }

    fn take(
        &mut self,
        post: &mut Post,
        desk: &mut Desk,
        found: u64,
        told: &mut Told,
    ) -> Option<Answer> {
        self.letting.take(post, desk, found, told)
    }
}
