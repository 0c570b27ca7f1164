// The call that puts an item at the queue's end.
ghost use Rattle.std.specs.Prelude.{◌≡◌, ◌<◌, ◌≤◌, ◌+◌, [], length, List, None, false, IfSome};
ghost use Rattle.wfe_core.specs.defs.declared.event.Event.{Event};
ghost use Rattle.wfe_core.specs.CallReady.{IsCallPlausible, IsCallReady};
ghost use Rattle.wfe_core.specs.Calls.{EnqueueKept, Enqueues, Fills, Runs};
ghost use Rattle.wfe_core.specs.DeskHeld.{HasRoom, desk_of};
ghost use Rattle.wfe_core.specs.Desks.{Desk as ModelDesk};
ghost use Rattle.wfe_core.specs.Ready.{IsReady, Plausible};
ghost use Rattle.wfe_core.specs.Rounds.{round};
ghost use Rattle.wfe_core.specs.Steps.{phase_turn};
ghost use Rattle.wfe_core.specs.Valid.{IsValid};
ghost use Rattle.wfe_core.specs.declared.post.Post.{Post as ModelPost};
ghost use Rattle.wfe_call_rounds.specs.Leavings.{leave_at};
ghost use Rattle.wfe_call_rounds.specs.Steps.{SameSeat, Steps};
ghost use Rattle.wfe_call_rounds.specs.Turns.{Keeps, stood};
ghost use Rattle.wfe_msqueue.specs.Enqueues.{LedWithin, kept_of, led, ran};
ghost use Rattle.wfe_msqueue.specs.EnqueueStates.{enqueue_phase, fill_base};

use super::enqueue_at::{Enqueued, Kept, left};
use super::enqueue_state::{Fill, State};
use wfe_call_rounds::{Leave, Rounds, Scheme, Then, clear, open, pass, take_leave, take_open};
use wfe_core::{Answer, CallMachine, Desk, Machine, Op, Post, Root, Told};
use wfe_slots::Allocate;

/// Puts an item at the queue's end (Michael and Scott 1996): it protects the tail's row, writes a row of
/// its own with the next number, links it after the tail's row, and moves the tail. It answers the
/// item's number, from 1; Spent where the last number is given; and Full where a second walk of the call,
/// after a scan, found no free row.
#[derive(Drop)]
pub struct Enqueue<S: Scheme> {
    kept: Kept,
    at: StateOf<S>,
}

// Where an enqueue stands under one scheme.
type StateOf<S> = State<
    <S as Scheme>::Begin,
    <S as Scheme>::Protect,
    <S as Scheme>::Clear,
    <S as Scheme>::Finish,
>;

// It stands where a round of its ends.
#[inline(always)]
fn leaves<S: Scheme>(then: Then<Leave<S::Clear, S::Finish>>) -> Then<StateOf<S>>
    ensures { (kept : EnqueueKept) (post : ModelPost) (desk : ModelDesk) (told : List Event) → stood (leave_at ⟦<S as Rounds>⟧.all_phases (Enqueues kept)) (Enqueues kept) then post desk told ≡ stood (enqueue_phase ⟦<S as Rounds>⟧.all_phases kept) (Enqueues kept) result post desk told }
{
    match then {
        Then::Stands(at) => Then::Stands(State::Leaves(at)),
        Then::Begins => Then::Begins,
        Then::Answers(answer) => Then::Answers(answer),
    }
}

// A step leads on.
#[inline(always)]
fn lead<S: Scheme>(
    kept: &Kept,
    step: Enqueued,
    post: &mut Post,
    told: &mut Told,
) -> Then<StateOf<S>>
    requires valid { IsValid post.old }
    requires scheme { post.old.layout.config.scheme ≡ S.kind }
    requires few { length told.old ≤ 2 }
    requires within { LedWithin (kept_of kept.now) step }
    ensures turn { (desk : ModelDesk) → led (kept_of kept.now) step post.old desk told.old ≡ stood (enqueue_phase ⟦<S as Rounds>⟧.all_phases (kept_of kept.now)) (Enqueues (kept_of kept.now)) result post.new desk told.new }
    ensures seat { SameSeat post.old post.new told.new 3 }
{
    match step {
        Enqueued::Goes(at) => Then::Stands(State::Works(at)),
        Enqueued::Fills => match kept.taken {
            Some(slot) => Then::Stands(State::Fills(Fill::Writes(kept.write(slot)))),
            None => Then::Stands(State::Fills(Fill::Allocates(Allocate::new(post)))),
        },
        Enqueued::Ends(ending) => leaves::<S>(clear::<S>(kept.taken, ending, post, told)),
        Enqueued::Passes(over) => leaves::<S>(pass::<S>(kept.taken, over)),
    }
}

// The machine of a row of its own makes a step.
#[inline(always)]
fn fill(
    at: &mut Fill,
    kept: &mut Kept,
    post: &mut Post,
    found: u64,
    told: &mut Told,
) -> Option<Enqueued>
    requires valid { IsValid post.old }
    requires number { kept.old.number + 1 < 18446744073709551616 }
    requires ready { IsReady (fill_base at.old) post.old }
    requires plausible { Plausible (fill_base at.old) post.old found }
    requires empty { told.old ≡ [] }
    ensures turn { (desk : ModelDesk) → phase_turn (Runs (Fills (Enqueues (kept_of kept.old))) (fill_base at.old)) post.old desk found ≡ ran (kept_of kept.new) result post.new desk told.new (Runs (Fills (Enqueues (kept_of kept.new))) (fill_base at.new)) }
    ensures within { IfSome result (λ step. LedWithin (kept_of kept.new) step) }
    ensures seat { SameSeat post.old post.new told.new 2 }
{
    match at {
        Fill::Allocates(machine) => {
            let end = machine.take(post, found, told);
            kept.allocated(end)
        }
        Fill::Writes(machine) => match machine.take(post, found, told) {
            Some(()) => Some(kept.written()),
            None => None,
        },
    }
}

impl<S: Scheme> Enqueue<S> {
    /// An enqueue of the value that has made no step.
    #[inline(always)]
    pub fn new(value: u64) -> Enqueue<S>
        ensures { (post : ModelPost) → ⟦<Enqueue<S> as CallMachine>⟧.phase result post ≡ round (Enqueues (record { value = value; taken = None; walked = false; tail = 0; number = 0 })) post }
    {
        Enqueue {
            kept: Kept {
                value,
                taken: None,
                walked: false,
                tail: 0,
                number: 0,
            },
            at: State::Starts,
        }
    }

    #[inline(always)]
    fn stand(&mut self, at: StateOf<S>)
        ensures at { self.new.at ≡ at }
        ensures kept { self.new.kept ≡ self.old.kept }
    {
        self.at = at;
    }

    // What runs makes a step.
    #[inline(always)]
    fn run(
        &mut self,
        post: &mut Post,
        desk: &mut Desk,
        found: u64,
        told: &mut Told,
    ) -> Option<Enqueued>
        requires valid { IsValid post.old }
        requires scheme { post.old.layout.config.scheme ≡ S.kind }
        requires room { HasRoom desk.old post.old.layout }
        requires ready { IsCallReady (enqueue_phase ⟦<S as Rounds>⟧.all_phases (kept_of self.old.kept) self.old.at post.old) post.old (desk_of desk.old) }
        requires plausible { IsCallPlausible (enqueue_phase ⟦<S as Rounds>⟧.all_phases (kept_of self.old.kept) self.old.at post.old) post.old found }
        requires empty { told.old ≡ [] }
        ensures turn { phase_turn (enqueue_phase ⟦<S as Rounds>⟧.all_phases (kept_of self.old.kept) self.old.at post.old) post.old (desk_of desk.old) found ≡ ran (kept_of self.new.kept) result post.new (desk_of desk.new) told.new (enqueue_phase ⟦<S as Rounds>⟧.all_phases (kept_of self.new.kept) self.new.at post.new) }
        ensures within { IfSome result (λ step. LedWithin (kept_of self.new.kept) step) }
        ensures kept { Keeps post.old post.new desk.old desk.new told.new 2 }
    {
        match &mut self.at {
            State::Starts => {
                let mut opening = open::<S>(post, 0, Root::Tail);
                let end = take_open::<S>(&mut opening, 0, Root::Tail, post, found, told);
                self.stand(State::Opens(opening));
                self.kept.reached(end)
            }
            State::Opens(opening) => {
                let end = take_open::<S>(opening, 0, Root::Tail, post, found, told);
                self.kept.reached(end)
            }
            State::Works(at) => Some(at.take(&mut self.kept, post, found, told)),
            State::Fills(at) => fill(at, &mut self.kept, post, found, told),
            State::Leaves(at) => left(take_leave::<S>(at, post, desk, found, told)),
        }
    }

    // A step, with its events besides End.
    #[inline(always)]
    fn step(
        &mut self,
        post: &mut Post,
        desk: &mut Desk,
        found: u64,
        told: &mut Told,
    ) -> Option<Answer>
        requires valid { IsValid post.old }
        requires scheme { post.old.layout.config.scheme ≡ S.kind }
        requires room { HasRoom desk.old post.old.layout }
        requires ready { IsCallReady (enqueue_phase ⟦<S as Rounds>⟧.all_phases (kept_of self.old.kept) self.old.at post.old) post.old (desk_of desk.old) }
        requires plausible { IsCallPlausible (enqueue_phase ⟦<S as Rounds>⟧.all_phases (kept_of self.old.kept) self.old.at post.old) post.old found }
        requires empty { told.old ≡ [] }
        ensures steps { Steps (phase_turn (enqueue_phase ⟦<S as Rounds>⟧.all_phases (kept_of self.old.kept) self.old.at post.old) post.old (desk_of desk.old) found) post.new (desk_of desk.new) told.new result (enqueue_phase ⟦<S as Rounds>⟧.all_phases (kept_of self.new.kept) self.new.at post.new) }
        ensures kept { Keeps post.old post.new desk.old desk.new told.new 3 }
    {
        match self.run(post, desk, found, told) {
            Some(step) => match lead::<S>(&self.kept, step, post, told) {
                Then::Stands(at) => {
                    self.stand(at);
                    None
                }
                Then::Begins => {
                    self.stand(State::Starts);
                    None
                }
                Then::Answers(answer) => Some(answer),
            },
            None => None,
        }
    }
}

impl<S: Scheme> CallMachine for Enqueue<S> {
    ghost use Rattle.wfe_msqueue.specs.Enqueues.{kept_of};
    ghost use Rattle.wfe_msqueue.specs.EnqueueStates.{enqueue_phase};

    ghost suits = { λ kind. kind ≡ S.kind };

    ghost phase = { λ m post. enqueue_phase ⟦<S as Rounds>⟧.all_phases (kept_of m.kept) m.at post };

    #[inline(always)]
    fn next_op(&self, post: &Post, desk: &Desk) -> Op {
        match &self.at {
            State::Starts => open::<S>(post, 0, Root::Tail).next_op(post),
            State::Opens(opening) => opening.next_op(post),
            State::Works(at) => at.next_op(&self.kept, post),
            State::Fills(Fill::Allocates(machine)) => machine.next_op(post),
            State::Fills(Fill::Writes(machine)) => machine.next_op(post),
            State::Leaves(at) => at.next_op(post, desk),
        }
    }

    // It stands apart, so that which call it is is asked once a step.
    #[inline(never)]
    fn take(
        &mut self,
        post: &mut Post,
        desk: &mut Desk,
        found: u64,
        told: &mut Told,
    ) -> Option<Answer> {
        post.steps = post.steps.saturating_add(1);
        let answer = self.step(post, desk, found, told);
        desk.settle(post, told, answer);
        answer
    }
}
