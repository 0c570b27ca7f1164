// The call that lets go of what stands at an index from 2 on.
ghost use Rattle.std.specs.Prelude.{◌≡◌};
ghost use Rattle.wfe_core.specs.defs.declared.call.Call.TheVariants as calls;
ghost use Rattle.wfe_core.specs.Steps.{first_phase};
ghost use Rattle.wfe_core.specs.declared.post.Post.{Post as ModelPost};

use crate::letting::{LetGo, Letting};
use wfe_call_rounds::Scheme;
use wfe_core::{Answer, CallMachine, Desk, Op, Post, Told};

/// Lets go of the row that stands at an index from 2 on, if one does.
#[derive(Drop)]
pub struct DropIndex<S: Scheme> {
    letting: Letting<S>,
}

impl<S: Scheme> DropIndex<S> {
    /// A drop of this index that has made no step.
    pub fn new(index: u32) -> DropIndex<S>
        ensures { (post : ModelPost) → ⟦<DropIndex<S> as CallMachine>⟧.phase result post ≡ first_phase (calls.DropIndex index) post }
    {
        DropIndex {
            letting: Letting::new(LetGo::At { index }),
        }
    }
}

impl<S: Scheme> CallMachine for DropIndex<S> {
    ghost suits = { ⟦<Letting<S> as CallMachine>⟧.suits };

    ghost phase = { λ m post. ⟦<Letting<S> as CallMachine>⟧.phase m.letting post };

    fn next_op(&self, post: &Post, desk: &Desk) -> Op {
        self.letting.next_op(post, desk)
    }

    fn take(
        &mut self,
        post: &mut Post,
        desk: &mut Desk,
        found: u64,
        told: &mut Told,
    ) -> Option<Answer> {
        self.letting.take(post, desk, found, told)
    }
}
