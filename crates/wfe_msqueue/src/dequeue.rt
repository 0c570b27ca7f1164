// The call that takes the item at the queue's front.
ghost use Rattle.std.specs.Prelude.{◌≡◌, ◌≤◌, ◌+◌, [], length, List, IfSome};
ghost use Rattle.wfe_core.specs.defs.declared.event.Event.{Event};
ghost use Rattle.wfe_core.specs.CallReady.{IsCallPlausible, IsCallReady};
ghost use Rattle.wfe_core.specs.Calls.{Dequeues};
ghost use Rattle.wfe_core.specs.DeskHeld.{HasRoom, desk_of};
ghost use Rattle.wfe_core.specs.Desks.{Desk as ModelDesk};
ghost use Rattle.wfe_core.specs.Rounds.{clearing_next, round};
ghost use Rattle.wfe_core.specs.Steps.{phase_turn};
ghost use Rattle.wfe_core.specs.Valid.{IsValid};
ghost use Rattle.wfe_core.specs.declared.post.Post.{Post as ModelPost};
ghost use Rattle.wfe_call_rounds.specs.Endings.{next_of};
ghost use Rattle.wfe_call_rounds.specs.Leavings.{leave_at};
ghost use Rattle.wfe_call_rounds.specs.Steps.{SameSeat, Steps};
ghost use Rattle.wfe_call_rounds.specs.Turns.{Keeps, stood};
ghost use Rattle.wfe_msqueue.specs.Dequeues.{LedWithin, led, ran};
ghost use Rattle.wfe_msqueue.specs.declared.dequeue_at.Kept.{Kept as Keeping};
ghost use Rattle.wfe_msqueue.specs.DequeueStates.{dequeue_phase};

use super::dequeue_at::{Dequeued, Kept, cleared, followed, left, reached};
use super::dequeue_state::State;
use wfe_call_rounds::{
    Follow, Leave, RoundEnd, Rounds, Scheme, Then, clear, open, pass, take_leave, take_open,
};
use wfe_core::{Answer, CallMachine, Desk, Machine, Op, Post, Root, Told};

/// Takes the item at the queue's front (Michael and Scott 1996): it protects the head's row and the
/// row after it, reads the item there, and exchanges the head. The row that the head left is retired. It
/// answers the item's number and value with the outcome of the move that followed; and Empty where the
/// head's row had no next row.
#[derive(Drop)]
pub struct Dequeue<S: Scheme> {
    kept: Kept,
    at: StateOf<S>,
}

// Where a dequeue stands under one scheme.
type StateOf<S> = State<
    <S as Scheme>::Begin,
    <S as Scheme>::Protect,
    Follow<S>,
    <S as Scheme>::Clear,
    <S as Scheme>::Finish,
>;

// It stands where a round of its ends.
#[inline(always)]
fn leaves<S: Scheme>(then: Then<Leave<S::Clear, S::Finish>>) -> Then<StateOf<S>>
    ensures { (kept : Keeping) (post : ModelPost) (desk : ModelDesk) (told : List Event) → stood (leave_at ⟦<S as Rounds>⟧.all_phases Dequeues) Dequeues then post desk told ≡ stood (dequeue_phase ⟦<S as Rounds>⟧.all_phases ⟦<Follow<S> as Machine>⟧.phase kept) Dequeues result post desk told }
{
    match then {
        Then::Stands(at) => Then::Stands(State::Leaves(at)),
        Then::Begins => Then::Begins,
        Then::Answers(answer) => Then::Answers(answer),
    }
}

// A round ends: index 1 is cleared first.
#[inline(always)]
fn clear_next<S: Scheme>(ending: RoundEnd, post: &mut Post, told: &mut Told) -> Then<StateOf<S>>
    requires valid { IsValid post.old }
    requires scheme { post.old.layout.config.scheme ≡ S.kind }
    requires few { length told.old ≤ 5 }
    ensures turn { (kept : Keeping) (desk : ModelDesk) → clearing_next (next_of ending) post.old desk told.old ≡ stood (dequeue_phase ⟦<S as Rounds>⟧.all_phases ⟦<Follow<S> as Machine>⟧.phase kept) Dequeues result post.new desk told.new }
    ensures seat { SameSeat post.old post.new told.new (length told.old + 2) }
{
    match S::clear(post, 1, told) {
        Some(machine) => Then::Stands(State::ClearsNext(ending, machine)),
        None => leaves::<S>(clear::<S>(None, ending, post, told)),
    }
}

// A step leads on.
#[inline(always)]
fn lead<S: Scheme>(
    kept: &mut Kept,
    step: Dequeued,
    post: &mut Post,
    told: &mut Told,
) -> Then<StateOf<S>>
    requires valid { IsValid post.old }
    requires scheme { post.old.layout.config.scheme ≡ S.kind }
    requires few { length told.old ≤ 3 }
    requires within { LedWithin step post.old }
    ensures turn { (desk : ModelDesk) → led step post.old desk told.old ≡ stood (dequeue_phase ⟦<S as Rounds>⟧.all_phases ⟦<Follow<S> as Machine>⟧.phase kept.new) Dequeues result post.new desk told.new }
    ensures seat { SameSeat post.old post.new told.new 5 }
{
    match step {
        Dequeued::Goes(at) => Then::Stands(State::Works(at)),
        Dequeued::Follows { head, tail } => {
            kept.head = head;
            kept.tail = tail;
            Then::Stands(State::Follows(Follow::new(post, post.layout.head(), head, 1)))
        }
        Dequeued::Ends(ending) => clear_next::<S>(ending, post, told),
        Dequeued::Clears(ending) => leaves::<S>(clear::<S>(None, ending, post, told)),
        Dequeued::Passes(over) => leaves::<S>(pass::<S>(None, over)),
    }
}

impl<S: Scheme> Dequeue<S> {
    /// A dequeue that has made no step.
    #[inline(always)]
    pub fn new() -> Dequeue<S>
        ensures { (post : ModelPost) → ⟦<Dequeue<S> as CallMachine>⟧.phase result post ≡ round Dequeues post }
    {
        Dequeue {
            kept: Kept { head: 0, tail: 0 },
            at: State::Starts,
        }
    }

    #[inline(always)]
    fn stand(&mut self, at: StateOf<S>)
        ensures at { self.new.at ≡ at }
        ensures kept { self.new.kept ≡ self.old.kept }
    {
        self.at = at;
    }

    // What runs makes a step.
    #[inline(always)]
    fn run(
        &mut self,
        post: &mut Post,
        desk: &mut Desk,
        found: u64,
        told: &mut Told,
    ) -> Option<Dequeued>
        requires valid { IsValid post.old }
        requires scheme { post.old.layout.config.scheme ≡ S.kind }
        requires room { HasRoom desk.old post.old.layout }
        requires ready { IsCallReady (dequeue_phase ⟦<S as Rounds>⟧.all_phases ⟦<Follow<S> as Machine>⟧.phase self.old.kept self.old.at post.old) post.old (desk_of desk.old) }
        requires plausible { IsCallPlausible (dequeue_phase ⟦<S as Rounds>⟧.all_phases ⟦<Follow<S> as Machine>⟧.phase self.old.kept self.old.at post.old) post.old found }
        requires empty { told.old ≡ [] }
        ensures turn { phase_turn (dequeue_phase ⟦<S as Rounds>⟧.all_phases ⟦<Follow<S> as Machine>⟧.phase self.old.kept self.old.at post.old) post.old (desk_of desk.old) found ≡ ran result post.new (desk_of desk.new) told.new (dequeue_phase ⟦<S as Rounds>⟧.all_phases ⟦<Follow<S> as Machine>⟧.phase self.new.kept self.new.at post.new) }
        ensures within { IfSome result (λ step. LedWithin step post.new) }
        ensures kept { Keeps post.old post.new desk.old desk.new told.new 3 }
    {
        match &mut self.at {
            State::Starts => {
                let mut opening = open::<S>(post, 0, Root::Head);
                let end = take_open::<S>(&mut opening, 0, Root::Head, post, found, told);
                self.stand(State::Opens(opening));
                reached(end)
            }
            State::Opens(opening) => {
                reached(take_open::<S>(opening, 0, Root::Head, post, found, told))
            }
            State::Works(at) => Some(at.take(post, found, told)),
            State::Follows(follow) => {
                let end = follow.take(post, found, told);
                followed(self.kept.head, self.kept.tail, end)
            }
            State::ClearsNext(ending, machine) => {
                let end = machine.take(post, found, told);
                cleared(*ending, end)
            }
            State::Leaves(at) => left(take_leave::<S>(at, post, desk, found, told)),
        }
    }

    // A step, with its events besides End.
    #[inline(always)]
    fn step(
        &mut self,
        post: &mut Post,
        desk: &mut Desk,
        found: u64,
        told: &mut Told,
    ) -> Option<Answer>
        requires valid { IsValid post.old }
        requires scheme { post.old.layout.config.scheme ≡ S.kind }
        requires room { HasRoom desk.old post.old.layout }
        requires ready { IsCallReady (dequeue_phase ⟦<S as Rounds>⟧.all_phases ⟦<Follow<S> as Machine>⟧.phase self.old.kept self.old.at post.old) post.old (desk_of desk.old) }
        requires plausible { IsCallPlausible (dequeue_phase ⟦<S as Rounds>⟧.all_phases ⟦<Follow<S> as Machine>⟧.phase self.old.kept self.old.at post.old) post.old found }
        requires empty { told.old ≡ [] }
        ensures steps { Steps (phase_turn (dequeue_phase ⟦<S as Rounds>⟧.all_phases ⟦<Follow<S> as Machine>⟧.phase self.old.kept self.old.at post.old) post.old (desk_of desk.old) found) post.new (desk_of desk.new) told.new result (dequeue_phase ⟦<S as Rounds>⟧.all_phases ⟦<Follow<S> as Machine>⟧.phase self.new.kept self.new.at post.new) }
        ensures kept { Keeps post.old post.new desk.old desk.new told.new 5 }
    {
        match self.run(post, desk, found, told) {
            Some(step) => match lead::<S>(&mut self.kept, step, post, told) {
                Then::Stands(at) => {
                    self.stand(at);
                    None
                }
                Then::Begins => {
                    self.stand(State::Starts);
                    None
                }
                Then::Answers(answer) => Some(answer),
            },
            None => None,
        }
    }
}

impl<S: Scheme> CallMachine for Dequeue<S> {
    ghost use Rattle.wfe_msqueue.specs.DequeueStates.{dequeue_phase};

    ghost suits = { λ kind. kind ≡ S.kind };

    ghost phase = { λ m post. dequeue_phase ⟦<S as Rounds>⟧.all_phases ⟦<Follow<S> as Machine>⟧.phase m.kept m.at post };

    #[inline(always)]
    fn next_op(&self, post: &Post, desk: &Desk) -> Op {
        match &self.at {
            State::Starts => open::<S>(post, 0, Root::Head).next_op(post),
            State::Opens(opening) => opening.next_op(post),
            State::Works(at) => at.next_op(post),
            State::Follows(follow) => follow.next_op(post),
            State::ClearsNext(_, machine) => machine.next_op(post),
            State::Leaves(at) => at.next_op(post, desk),
        }
    }

    // It stands apart, so that which call it is is asked once a step.
    #[inline(never)]
    fn take(
        &mut self,
        post: &mut Post,
        desk: &mut Desk,
        found: u64,
        told: &mut Told,
    ) -> Option<Answer> {
        post.steps = post.steps.saturating_add(1);
        let answer = self.step(post, desk, found, told);
        desk.settle(post, told, answer);
        answer
    }
}
