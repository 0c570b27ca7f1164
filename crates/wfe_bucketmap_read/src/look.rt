// The call that reads a key's value in the row that stands at an index from 2 on.
ghost use Rattle.std.specs.Prelude.{◌≡◌, [], length};
ghost use Rattle.wfe_core.specs.defs.declared.call.Call.TheVariants as calls;
ghost use Rattle.wfe_core.specs.CallReady.{IsCallPlausible, IsCallReady, get_plausible, get_ready};
ghost use Rattle.wfe_core.specs.DeskHeld.{desk_of};
ghost use Rattle.wfe_core.specs.Keep.{look_turn};
ghost use Rattle.wfe_core.specs.Steps.{first_phase, phase_turn};
ghost use Rattle.wfe_core.specs.Valid.{IsValid};
ghost use Rattle.wfe_core.specs.declared.post.Post.{Post as ModelPost};
ghost use Rattle.wfe_call_rounds.specs.Steps.{SameSeat, Steps};
ghost use Rattle.wfe_bucketmap_read.specs.Finds.{find_of};
ghost use Rattle.wfe_bucketmap_read.specs.Looks.{look_phase};

use crate::find::{Find, Found};
use crate::guard::load_guard;
use std::marker::PhantomData;
use wfe_call_rounds::Scheme;
use wfe_core::{Answer, CallMachine, Desk, Op, Post, Told};

// The step to come: the first one, or a read of the row.
#[derive(Clone, Copy)]
pub enum LookAt {
    Starts,
    Finds(Find),
}

/// Looks a key's value up in the row that stands at an index from 2 on: it reads the version, the count
/// and the keys up to its own.
#[derive(Drop)]
pub struct Look<S: Scheme> {
    index: u32,
    key: u64,
    at: LookAt,
    scheme: PhantomData<S>,
}

impl<S: Scheme> Look<S> {
    /// A look for this key at this index that has made no step.
    #[inline(always)]
    pub fn new(index: u32, key: u64) -> Look<S>
        ensures { (post : ModelPost) → ⟦<Look<S> as CallMachine>⟧.phase result post ≡ first_phase (calls.Look index key) post }
    {
        Look {
            index,
            key,
            at: LookAt::Starts,
            scheme: PhantomData,
        }
    }

    // A read of the row.
    #[inline(always)]
    fn read(&mut self, find: Find, post: &Post, desk: &Desk, found: u64) -> Option<Answer>
        requires valid { IsValid post.now }
        requires ready { get_ready (find_of find) post.now }
        requires plausible { get_plausible (find_of find) post.now found }
        ensures { Steps (look_turn self.old.index self.old.key (find_of find) post.now (desk_of desk.now) found) post.now (desk_of desk.now) [] result (look_phase self.new.index self.new.key self.new.at post.now) }
    {
        match find.take(post, self.key, found) {
            Found::Goes(next) => {
                self.at = LookAt::Finds(next);
                None
            }
            Found::Got { version, value } => Some(Answer::Looked {
                slot: find.slot(),
                version,
                value,
            }),
        }
    }

    // A step, with its events besides End. The post and the desk are what they were.
    #[inline(always)]
    fn step(&mut self, post: &Post, desk: &Desk, found: u64) -> Option<Answer>
        requires valid { IsValid post.now }
        requires ready { IsCallReady (look_phase self.old.index self.old.key self.old.at post.now) post.now (desk_of desk.now) }
        requires plausible { IsCallPlausible (look_phase self.old.index self.old.key self.old.at post.now) post.now found }
        ensures { Steps (phase_turn (look_phase self.old.index self.old.key self.old.at post.now) post.now (desk_of desk.now) found) post.now (desk_of desk.now) [] result (look_phase self.new.index self.new.key self.new.at post.now) }
    {
        match self.at {
            LookAt::Starts => match post.standing[self.index as usize] {
                Some(slot) => self.read(Find::Version { slot }, post, desk, found),
                None => Some(Answer::Nothing),
            },
            LookAt::Finds(find) => self.read(find, post, desk, found),
        }
    }
}

impl<S: Scheme> CallMachine for Look<S> {
    ghost use Rattle.wfe_bucketmap_read.specs.Looks.{look_phase};

    ghost suits = { λ kind. kind ≡ S.kind };

    ghost phase = { λ m post. look_phase m.index m.key m.at post };

    #[inline(always)]
    fn next_op(&self, post: &Post, _desk: &Desk) -> Op {
        match &self.at {
            LookAt::Starts => match post.standing[self.index as usize] {
                Some(slot) => Find::Version { slot }.next_op(post),
                None => load_guard(self.index, post),
            },
            LookAt::Finds(find) => find.next_op(post),
        }
    }

    // It stands apart, so that which call it is is asked once a step.
    #[inline(never)]
    fn take(
        &mut self,
        post: &mut Post,
        desk: &mut Desk,
        found: u64,
        told: &mut Told,
    ) -> Option<Answer> {
        post.steps = post.steps.saturating_add(1);
        let answer = self.step(post, desk, found);
        desk.settle(post, told, answer);
        answer
    }
}
