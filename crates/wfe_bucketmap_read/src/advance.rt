// The call that tries to move the clock.
ghost use Rattle.std.specs.Prelude.{◌≡◌};
ghost use Rattle.wfe_core.specs.Calls.{Advances, Runs};
ghost use Rattle.wfe_core.specs.Rounds.{move_base};
ghost use Rattle.wfe_core.specs.declared.post.Post.{Post};

use std::marker::PhantomData;
use wfe_call_rounds::Scheme;
use wfe_core::{Answer, CallMachine, Desk, Machine, Op, Post, Told};
use wfe_help::MoveClock;

/// Tries once to move the clock to the next era.
#[derive(Drop)]
pub struct Advance<S: Scheme> {
    steps: MoveClock,
    scheme: PhantomData<S>,
}

impl<S: Scheme> Advance<S> {
    /// An advance that has made no step.
    pub fn new() -> Advance<S>
        ensures { (post : Post) → ⟦<Advance<S> as CallMachine>⟧.phase result post ≡ Runs Advances (move_base S.kind) }
    {
        Advance {
            steps: MoveClock::new(S::HELPS),
            scheme: PhantomData,
        }
    }
}

impl<S: Scheme> CallMachine for Advance<S> {
    ghost use Rattle.wfe_help.specs.Phases.{move_phase};

    ghost suits = { λ kind. kind ≡ S.kind };

    ghost phase = { λ m post. Runs Advances (move_phase m.steps) };

    fn next_op(&self, post: &Post, _desk: &Desk) -> Op {
        self.steps.next_op(post)
    }

    fn take(
        &mut self,
        post: &mut Post,
        desk: &mut Desk,
        found: u64,
        told: &mut Told,
    ) -> Option<Answer> {
        post.steps = post.steps.saturating_add(1);
        match self.steps.take(post, found, told) {
            Some(outcome) => {
                let answer = Answer::Clock { outcome };
                desk.settle(post, told, Some(answer));
                Some(answer)
            }
            None => {
                desk.settle(post, told, None);
                None
            }
        }
    }
}
