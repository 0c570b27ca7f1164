// The call that puts a value under a key.
ghost use Rattle.std.specs.Prelude.{◌≡◌};
ghost use Rattle.wfe_core.specs.defs.declared.call.Call.TheVariants as calls;
ghost use Rattle.wfe_core.specs.Steps.{first_phase};
ghost use Rattle.wfe_core.specs.declared.post.Post.{Post as ModelPost};

use super::change::ChangeBucket;
use wfe_bucketmap_read::Scheme;
use wfe_core::{Answer, CallMachine, Change, Desk, Op, Post, Told};

/// Puts a value under a key.
#[derive(Drop)]
pub struct Put<S: Scheme> {
    change: ChangeBucket<S>,
}

impl<S: Scheme> Put<S> {
    /// A put of this value under this key that has made no step.
    #[inline(always)]
    pub fn new(key: u64, value: u64) -> Put<S>
        ensures { (post : ModelPost) → ⟦<Put<S> as CallMachine>⟧.phase result post ≡ first_phase (calls.Put key value) post }
    {
        Put {
            change: ChangeBucket::new(Change::Put { key, value }, None),
        }
    }
}

impl<S: Scheme> CallMachine for Put<S> {
    ghost suits = { ⟦<ChangeBucket<S> as CallMachine>⟧.suits };

    ghost phase = { λ m post. ⟦<ChangeBucket<S> as CallMachine>⟧.phase m.change post };

    #[inline(always)]
    fn next_op(&self, post: &Post, desk: &Desk) -> Op {
        self.change.next_op(post, desk)
    }

    #[inline(always)]
    fn take(
        &mut self,
        post: &mut Post,
        desk: &mut Desk,
        found: u64,
        told: &mut Told,
    ) -> Option<Answer> {
        self.change.take(post, desk, found, told)
    }
}
