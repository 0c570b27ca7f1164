// What comes after a call's round, until another one or the answer.
ghost use Rattle.std.specs.Prelude.{◌≡◌, []};
ghost use Rattle.wfe_core.specs.words.Schemes.{moves as do_move};
ghost use Rattle.wfe_core.specs.Calls.{Task};
ghost use Rattle.wfe_core.specs.DeskHeld.{HasRoom, desk_of};
ghost use Rattle.wfe_core.specs.Rounds.{helps as do_help};
ghost use Rattle.wfe_core.specs.Steps.{call_op, phase_turn};
ghost use Rattle.wfe_core.specs.Valid.{IsValid};
ghost use Rattle.wfe_call_rounds.specs.Leavings.{IsLastPlausible, IsLastReady, last_phase, left};
ghost use Rattle.wfe_call_rounds.specs.Turns.{Keeps};

use crate::ending::{RoundEnd, with_clock};
use crate::{Reclaim, Tidy};
use wfe_core::{Answer, Desk, Machine, Op, Post, Told};
use wfe_slots::GiveUp;

/// A row that was not linked is given up, before the answer; the clock is moved and the list scanned,
/// before another round; or the row that was cut is retired, before the answer.
#[derive(Drop)]
pub enum Last {
    GivesUp(Answer, GiveUp),
    Tidies(Tidy),
    Reclaims(Answer, Reclaim),
}

/// What is over: a round, which ends so, or the call, with its answer.
pub enum Over {
    Round(RoundEnd),
    Call(Answer),
}

impl Last {
    /// The operation that it asks for.
    #[inline(always)]
    pub fn next_op(&self, post: &Post, _desk: &Desk) -> Op
        requires valid { IsValid post.now }
        requires ready { IsLastReady self.now post.now (desk_of _desk.now) }
        ensures { (task : Task) → result ≡ call_op (last_phase task self.now) post.now }
    {
        match self {
            Last::GivesUp(_, machine) => machine.next_op(post),
            Last::Tidies(tidy) => tidy.next_op(post),
            Last::Reclaims(_, reclaim) => reclaim.next_op(post),
        }
    }

    /// Takes what that operation found. `moves` is whether the scheme has the clock moved, and `helps`
    /// whether its movers answer pending requests.
    #[inline(always)]
    pub fn take(
        &mut self,
        moves: bool,
        helps: bool,
        post: &mut Post,
        desk: &mut Desk,
        found: u64,
        told: &mut Told,
    ) -> Option<Over>
        requires valid { IsValid post.old }
        requires moves { moves ≡ do_move post.old.layout.config.scheme }
        requires helps { helps ≡ do_help post.old.layout.config.scheme }
        requires room { HasRoom desk.old post.old.layout }
        requires ready { IsLastReady self.old post.old (desk_of desk.old) }
        requires plausible { IsLastPlausible self.old post.old found }
        requires empty { told.old ≡ [] }
        ensures turn { (task : Task) → phase_turn (last_phase task self.old) post.old (desk_of desk.old) found ≡ left task result post.new (desk_of desk.new) told.new (last_phase task self.new) }
        ensures kept { Keeps post.old post.new desk.old desk.new told.new 2 }
    {
        match self {
            Last::GivesUp(answer, machine) => match machine.take(post, found, told) {
                Some(()) => Some(Over::Call(*answer)),
                None => None,
            },
            Last::Tidies(tidy) => match tidy.take(post, desk, found, told) {
                Some(_) => Some(Over::Round(RoundEnd::Again)),
                None => None,
            },
            Last::Reclaims(answer, reclaim) => {
                match reclaim.take(moves, helps, post, desk, found, told) {
                    Some(clock) => Some(Over::Call(with_clock(*answer, clock))),
                    None => None,
                }
            }
        }
    }
}
