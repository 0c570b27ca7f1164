// A call that changes a bucket, under one scheme.
ghost use Rattle.std.specs.Prelude.{◌≡◌};
ghost use Rattle.wfe_call_any.specs.Changes.{changing_phase};

use wfe_bucketmap::{Put, PutIf, Remove, Scheme};
use wfe_core::{Answer, CallMachine, Desk, Op, Post, Told};

/// A call that changes a bucket, whichever it is.
#[derive(Drop)]
pub enum Changing<S: Scheme> {
    Puts(Put<S>),
    PutsIf(PutIf<S>),
    Removes(Remove<S>),
}

impl<S: Scheme> CallMachine for Changing<S> {
    ghost suits = { λ kind. kind ≡ S.kind };

    ghost phase = { changing_phase ⟦<Put<S> as CallMachine>⟧.phase ⟦<PutIf<S> as CallMachine>⟧.phase ⟦<Remove<S> as CallMachine>⟧.phase };

    #[inline(always)]
    fn next_op(&self, post: &Post, desk: &Desk) -> Op {
        match self {
            Changing::Puts(machine) => machine.next_op(post, desk),
            Changing::PutsIf(machine) => machine.next_op(post, desk),
            Changing::Removes(machine) => machine.next_op(post, desk),
        }
    }

    #[inline(always)]
    fn take(
        &mut self,
        post: &mut Post,
        desk: &mut Desk,
        found: u64,
        told: &mut Told,
    ) -> Option<Answer> {
        match self {
            Changing::Puts(machine) => machine.take(post, desk, found, told),
            Changing::PutsIf(machine) => machine.take(post, desk, found, told),
            Changing::Removes(machine) => machine.take(post, desk, found, told),
        }
    }
}
