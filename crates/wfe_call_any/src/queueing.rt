// A call on the queue, under one scheme.
ghost use Rattle.std.specs.Prelude.{◌≡◌};
ghost use Rattle.wfe_call_any.specs.Queues.{queueing_phase};

use wfe_bucketmap::Scheme;
use wfe_core::{Answer, CallMachine, Desk, Op, Post, Told};
use wfe_msqueue::{Dequeue, Enqueue};

/// A call on the queue, whichever it is.
#[derive(Drop)]
pub enum Queueing<S: Scheme> {
    Enqueues(Enqueue<S>),
    Dequeues(Dequeue<S>),
}

impl<S: Scheme> CallMachine for Queueing<S> {
    ghost suits = { λ kind. kind ≡ S.kind };

    ghost phase = { queueing_phase ⟦<Enqueue<S> as CallMachine>⟧.phase ⟦<Dequeue<S> as CallMachine>⟧.phase };

    #[inline(always)]
    fn next_op(&self, post: &Post, desk: &Desk) -> Op {
        match self {
            Queueing::Enqueues(machine) => machine.next_op(post, desk),
            Queueing::Dequeues(machine) => machine.next_op(post, desk),
        }
    }

    #[inline(always)]
    fn take(
        &mut self,
        post: &mut Post,
        desk: &mut Desk,
        found: u64,
        told: &mut Told,
    ) -> Option<Answer> {
        match self {
            Queueing::Enqueues(machine) => machine.take(post, desk, found, told),
            Queueing::Dequeues(machine) => machine.take(post, desk, found, told),
        }
    }
}
