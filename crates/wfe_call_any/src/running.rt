// One of the calls, by name, and how it begins.
ghost use Rattle.std.specs.Prelude.{◌≡◌, true};
ghost use Rattle.wfe_call_any.specs.Runs.{running_phase};
ghost use Rattle.wfe_core.specs.Locals.{stays};
ghost use Rattle.wfe_core.specs.Steps.{first_phase};
ghost use Rattle.wfe_core.specs.declared.post.Post.{Post};

use crate::changing::Changing;
use crate::keeping::Keeping;
use crate::queueing::Queueing;
use wfe_bucketmap::{
    Advance, CopyIndex, DropIndex, Get, Hold, Look, Put, PutIf, Release, Remove, Scheme,
};
use wfe_core::{Answer, Call, CallMachine, Desk, Layout, Op, Post, Told};
use wfe_msqueue::{Dequeue, Enqueue};
use wfe_scan::Scan;

/// A call under way, whichever it is.
#[derive(Drop)]
pub enum Running<S: Scheme> {
    Gets(Get<S>),
    Changes(Changing<S>),
    Queues(Queueing<S>),
    Keeps(Keeping<S>),
    Advances(Advance<S>),
    Scans(Scan),
}

impl<S: Scheme> CallMachine for Running<S> {
    ghost suits = { λ kind. kind ≡ S.kind };

    ghost phase = { running_phase ⟦<Get<S> as CallMachine>⟧.phase ⟦<Changing<S> as CallMachine>⟧.phase ⟦<Queueing<S> as CallMachine>⟧.phase ⟦<Keeping<S> as CallMachine>⟧.phase ⟦<Advance<S> as CallMachine>⟧.phase ⟦<Scan as CallMachine>⟧.phase };

    #[inline(always)]
    fn next_op(&self, post: &Post, desk: &Desk) -> Op {
        match self {
            Running::Gets(machine) => machine.next_op(post, desk),
            Running::Changes(machine) => machine.next_op(post, desk),
            Running::Queues(machine) => machine.next_op(post, desk),
            Running::Keeps(machine) => machine.next_op(post, desk),
            Running::Advances(machine) => machine.next_op(post, desk),
            Running::Scans(machine) => machine.next_op(post, desk),
        }
    }

    #[inline(always)]
    fn take(
        &mut self,
        post: &mut Post,
        desk: &mut Desk,
        found: u64,
        told: &mut Told,
    ) -> Option<Answer> {
        match self {
            Running::Gets(machine) => machine.take(post, desk, found, told),
            Running::Changes(machine) => machine.take(post, desk, found, told),
            Running::Queues(machine) => machine.take(post, desk, found, told),
            Running::Keeps(machine) => machine.take(post, desk, found, told),
            Running::Advances(machine) => machine.take(post, desk, found, told),
            Running::Scans(machine) => machine.take(post, desk, found, told),
        }
    }
}

/// The machine of a call of a seat that stays, on a table of this layout, at its first step.
pub fn begin_call<S: Scheme>(layout: Layout, call: Call) -> Running<S>
    requires { stays call ≡ true }
    ensures { (post : Post) → post.layout.config.scheme ≡ S.kind → ⟦<Running<S> as CallMachine>⟧.phase result post ≡ first_phase call post }
{
    match call {
        Call::Get { key } => Running::Gets(Get::new(key)),
        Call::Put { key, value } => Running::Changes(Changing::Puts(Put::new(key, value))),
        Call::Remove { key } => Running::Changes(Changing::Removes(Remove::new(key))),
        Call::Enqueue { value } => Running::Queues(Queueing::Enqueues(Enqueue::new(value))),
        Call::Dequeue => Running::Queues(Queueing::Dequeues(Dequeue::new())),
        Call::Hold { key } => Running::Keeps(Keeping::Holds(Hold::new(key))),
        Call::Release => Running::Keeps(Keeping::Releases(Release::new())),
        Call::Advance => Running::Advances(Advance::new()),
        Call::Scan => Running::Scans(Scan::new(layout)),
        Call::Copy { from, index } => {
            Running::Keeps(Keeping::Copies(CopyIndex::new(from, index)))
        }
        Call::DropIndex { index } => Running::Keeps(Keeping::Drops(DropIndex::new(index))),
        Call::Look { index, key } => Running::Keeps(Keeping::Looks(Look::new(index, key))),
        Call::PutIf {
            key,
            value,
            version,
        } => Running::Changes(Changing::PutsIf(PutIf::new(key, value, version))),
        Call::Leave | Call::Adopt { .. } => unreachable!(),
    }
}
