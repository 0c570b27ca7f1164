// A call on what stands at indexes from 2 on, under one scheme.
ghost use Rattle.std.specs.Prelude.{◌≡◌};
ghost use Rattle.wfe_call_any.specs.Keeps.{keeping_phase};

use wfe_bucketmap::{CopyIndex, DropIndex, Hold, Look, Release, Scheme};
use wfe_core::{Answer, CallMachine, Desk, Op, Post, Told};

/// A call on what stands at indexes from 2 on, whichever it is.
#[derive(Drop)]
pub enum Keeping<S: Scheme> {
    Holds(Hold<S>),
    Releases(Release<S>),
    Copies(CopyIndex<S>),
    Looks(Look<S>),
    Drops(DropIndex<S>),
}

impl<S: Scheme> CallMachine for Keeping<S> {
    ghost suits = { λ kind. kind ≡ S.kind };

    ghost phase = { keeping_phase ⟦<Hold<S> as CallMachine>⟧.phase ⟦<Release<S> as CallMachine>⟧.phase ⟦<CopyIndex<S> as CallMachine>⟧.phase ⟦<Look<S> as CallMachine>⟧.phase ⟦<DropIndex<S> as CallMachine>⟧.phase };

    #[inline(always)]
    fn next_op(&self, post: &Post, desk: &Desk) -> Op {
        match self {
            Keeping::Holds(machine) => machine.next_op(post, desk),
            Keeping::Releases(machine) => machine.next_op(post, desk),
            Keeping::Copies(machine) => machine.next_op(post, desk),
            Keeping::Looks(machine) => machine.next_op(post, desk),
            Keeping::Drops(machine) => machine.next_op(post, desk),
        }
    }

    #[inline(always)]
    fn take(
        &mut self,
        post: &mut Post,
        desk: &mut Desk,
        found: u64,
        told: &mut Told,
    ) -> Option<Answer> {
        match self {
            Keeping::Holds(machine) => machine.take(post, desk, found, told),
            Keeping::Releases(machine) => machine.take(post, desk, found, told),
            Keeping::Copies(machine) => machine.take(post, desk, found, told),
            Keeping::Looks(machine) => machine.take(post, desk, found, told),
            Keeping::Drops(machine) => machine.take(post, desk, found, told),
        }
    }
}
