// The call that puts a value under a key where the bucket is at a version.
ghost use Rattle.std.specs.Prelude.{◌≡◌};
ghost use Rattle.wfe_core.specs.defs.declared.call.Call.TheVariants as calls;
ghost use Rattle.wfe_core.specs.Steps.{first_phase};
ghost use Rattle.wfe_core.specs.declared.post.Post.{Post as ModelPost};

use super::change::ChangeBucket;
use wfe_bucketmap_read::Scheme;
use wfe_core::{Answer, CallMachine, Change, Desk, Op, Post, Told};

/// Puts a value under a key where the bucket is at a version, and else changes nothing.
#[derive(Drop)]
pub struct PutIf<S: Scheme> {
    change: ChangeBucket<S>,
}

impl<S: Scheme> PutIf<S> {
    /// A put of this value under this key at this version that has made no step.
    #[inline(always)]
    pub fn new(key: u64, value: u64, version: u64) -> PutIf<S>
        ensures { (post : ModelPost) → ⟦<PutIf<S> as CallMachine>⟧.phase result post ≡ first_phase (calls.PutIf key value version) post }
    {
        PutIf {
            change: ChangeBucket::new(Change::Put { key, value }, Some(version)),
        }
    }
}

impl<S: Scheme> CallMachine for PutIf<S> {
    ghost suits = { ⟦<ChangeBucket<S> as CallMachine>⟧.suits };

    ghost phase = { λ m post. ⟦<ChangeBucket<S> as CallMachine>⟧.phase m.change post };

    #[inline(always)]
    fn next_op(&self, post: &Post, desk: &Desk) -> Op {
        self.change.next_op(post, desk)
    }

    #[inline(always)]
    fn take(
        &mut self,
        post: &mut Post,
        desk: &mut Desk,
        found: u64,
        told: &mut Told,
    ) -> Option<Answer> {
        self.change.take(post, desk, found, told)
    }
}
