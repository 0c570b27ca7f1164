// The call that removes a key and its value.
ghost use Rattle.std.specs.Prelude.{◌≡◌};
ghost use Rattle.wfe_core.specs.defs.declared.call.Call.TheVariants as calls;
ghost use Rattle.wfe_core.specs.Steps.{first_phase};
ghost use Rattle.wfe_core.specs.declared.post.Post.{Post as ModelPost};

use super::change::ChangeBucket;
use wfe_bucketmap_read::Scheme;
use wfe_core::{Answer, CallMachine, Change, Desk, Op, Post, Told};

/// Removes a key and its value.
#[derive(Drop)]
pub struct Remove<S: Scheme> {
    change: ChangeBucket<S>,
}

impl<S: Scheme> Remove<S> {
    /// A remove of this key that has made no step.
    #[inline(always)]
    pub fn new(key: u64) -> Remove<S>
        ensures { (post : ModelPost) → ⟦<Remove<S> as CallMachine>⟧.phase result post ≡ first_phase (calls.Remove key) post }
    {
        Remove {
            change: ChangeBucket::new(Change::Removed { key }, None),
        }
    }
}

impl<S: Scheme> CallMachine for Remove<S> {
    ghost suits = { ⟦<ChangeBucket<S> as CallMachine>⟧.suits };

    ghost phase = { λ m post. ⟦<ChangeBucket<S> as CallMachine>⟧.phase m.change post };

    #[inline(always)]
    fn next_op(&self, post: &Post, desk: &Desk) -> Op {
        self.change.next_op(post, desk)
    }

    #[inline(always)]
    fn take(
        &mut self,
        post: &mut Post,
        desk: &mut Desk,
        found: u64,
        told: &mut Told,
    ) -> Option<Answer> {
        self.change.take(post, desk, found, told)
    }
}
