// The call that changes a bucket: a put, at any version or at one, or a remove.
ghost use Rattle.std.specs.Prelude.{◌≡◌, ◌<◌, ◌≤◌, ◌+◌, [], length, List, IfSome};
ghost use Rattle.wfe_core.specs.defs.declared.event.Event.{Event};
ghost use Rattle.wfe_core.specs.CallReady.{ChangeFits, IsCallPlausible, IsCallReady, change_plausible, change_ready};
ghost use Rattle.wfe_core.specs.Calls.{ChangeKept, Changes, Changing, Fills, Opens, Runs, Works as WorksAt};
ghost use Rattle.wfe_core.specs.Change.{change_turn, filling};
ghost use Rattle.wfe_core.specs.DeskHeld.{HasRoom, desk_of};
ghost use Rattle.wfe_core.specs.Desks.{Desk as ModelDesk};
ghost use Rattle.wfe_core.specs.Ready.{IsReady, Plausible, RootFits};
ghost use Rattle.wfe_core.specs.Rounds.{root_of, round};
ghost use Rattle.wfe_core.specs.Steps.{changing, phase_turn};
ghost use Rattle.wfe_core.specs.Valid.{IsValid};
ghost use Rattle.wfe_core.specs.declared.post.Post.{Post as ModelPost};
ghost use Rattle.wfe_call_rounds.specs.Leavings.{IsLeavePlausible, IsLeaveReady, leave_at, leave_of};
ghost use Rattle.wfe_call_rounds.specs.Rounds.{opening_of};
ghost use Rattle.wfe_call_rounds.specs.Steps.{SameSeat, Steps};
ghost use Rattle.wfe_call_rounds.specs.Turns.{Keeps, stood};
ghost use Rattle.wfe_bucketmap.specs.Changes.{LedWithin, at_of, kept_of, led, ran};
ghost use Rattle.wfe_bucketmap.specs.ChangeStates.{change_phase, fill_base};
ghost use Rattle.wfe_bucketmap.specs.declared.change_state.State.TheVariants.{Works};

use super::change_at::{ChangeAt, Changed, Kept};
use super::change_ends::{allocated, left, reached, write, written};
use super::change_state::{Fill, State};
use wfe_call_rounds::{
    Leave, Opening, Rounds, Scheme, Then, clear, open, pass, take_leave, take_open,
};
use wfe_core::{Answer, CallMachine, Change, Desk, Machine, Op, Post, Root, Told};
use wfe_slots::{Allocate, Pairs};

/// Changes a bucket: it protects the bucket's row, reads it, writes the pairs with the change into a row
/// of its own, and exchanges the root. The row that was cut is retired before the answer.
#[derive(Drop)]
pub struct ChangeBucket<S: Scheme> {
    kept: Kept,
    at: StateOf<S>,
}

// Where a change stands under one scheme.
type StateOf<S> = State<
    <S as Scheme>::Begin,
    <S as Scheme>::Protect,
    <S as Scheme>::Clear,
    <S as Scheme>::Finish,
>;

// The root of the bucket.
#[inline(always)]
fn root(kept: &Kept, post: &Post) -> Root
    requires { IsValid post.now }
    ensures root { result ≡ root_of (Changes (kept_of kept.now)) post.now }
    ensures there { RootFits post.now.layout result }
{
    Root::Bucket(kept.bucket(post))
}

// The machine of a row of its own makes a step.
#[inline(always)]
fn fill(
    at: &mut Fill,
    kept: &mut Kept,
    post: &mut Post,
    found: u64,
    told: &mut Told,
) -> Option<Changed>
    requires valid { IsValid post.old }
    requires version { (kept_of kept.old).version + 1 < 18446744073709551616 }
    requires ready { IsReady (fill_base at.old) post.old }
    requires plausible { Plausible (fill_base at.old) post.old found }
    requires empty { told.old ≡ [] }
    ensures turn { (desk : ModelDesk) → phase_turn (Runs (Fills (Changes (kept_of kept.old))) (fill_base at.old)) post.old desk found ≡ ran (kept_of kept.new) result post.new desk told.new (Runs (Fills (Changes (kept_of kept.new))) (fill_base at.new)) }
    ensures within { IfSome result (λ step. LedWithin (kept_of kept.new) step) }
    ensures seat { SameSeat post.old post.new told.new 2 }
{
    match at {
        Fill::Allocates(machine) => {
            let end = machine.take(post, found, told);
            allocated(kept, end)
        }
        Fill::Writes(machine) => match machine.take(post, found, told) {
            Some(()) => Some(written(kept)),
            None => None,
        },
    }
}

// The work on the row makes a step, and goes on where it stands.
#[inline(always)]
fn work(
    at: &mut ChangeAt,
    kept: &mut Kept,
    post: &Post,
    found: u64,
    told: &mut Told,
) -> Option<Changed>
    requires valid { IsValid post.now }
    requires fits { ChangeFits post.now (kept_of kept.old) }
    requires ready { change_ready (kept_of kept.old) (at_of at.old) post.now }
    requires plausible { change_plausible (at_of at.old) post.now found }
    requires empty { told.old ≡ [] }
    ensures turn { (desk : ModelDesk) → change_turn (kept_of kept.old) (at_of at.old) post.now desk found ≡ ran (kept_of kept.new) result post.now desk told.new (WorksAt (Changing (kept_of kept.new) (at_of at.new))) }
    ensures within { IfSome result (λ step. LedWithin (kept_of kept.new) step) }
    ensures few { length told.new ≤ 3 }
{
    match at.take(kept, post, found, told) {
        Changed::Goes(next) => {
            *at = next;
            None
        }
        step => Some(step),
    }
}

// The beginning of a round makes a step.
#[inline(always)]
fn open_on<S: Scheme>(
    opening: &mut Opening<S::Begin, S::Protect>,
    kept: &mut Kept,
    post: &mut Post,
    desk: &Desk,
    found: u64,
    told: &mut Told,
) -> Option<Changed>
    requires valid { IsValid post.old }
    requires scheme { post.old.layout.config.scheme ≡ S.kind }
    requires ready { IsCallReady (Runs (Opens (Changes (kept_of kept.old))) (opening_of ⟦<S as Rounds>⟧.all_phases opening.old)) post.old (desk_of desk.now) }
    requires plausible { IsCallPlausible (Runs (Opens (Changes (kept_of kept.old))) (opening_of ⟦<S as Rounds>⟧.all_phases opening.old)) post.old found }
    requires empty { told.old ≡ [] }
    ensures turn { phase_turn (Runs (Opens (Changes (kept_of kept.old))) (opening_of ⟦<S as Rounds>⟧.all_phases opening.old)) post.old (desk_of desk.now) found ≡ ran (kept_of kept.new) result post.new (desk_of desk.now) told.new (Runs (Opens (Changes (kept_of kept.new))) (opening_of ⟦<S as Rounds>⟧.all_phases opening.new)) }
    ensures within { IfSome result (λ step. LedWithin (kept_of kept.new) step) }
    ensures seat { SameSeat post.old post.new told.new 3 }
{
    let _ = desk;
    let root = root(kept, post);
    let end = take_open::<S>(opening, 0, root, post, found, told);
    reached(kept, end, post)
}

// The end of a round makes a step.
#[inline(always)]
fn leave_on<S: Scheme>(
    at: &mut Leave<S::Clear, S::Finish>,
    post: &mut Post,
    desk: &mut Desk,
    found: u64,
    told: &mut Told,
) -> Option<Changed>
    requires valid { IsValid post.old }
    requires scheme { post.old.layout.config.scheme ≡ S.kind }
    requires room { HasRoom desk.old post.old.layout }
    requires ready { IsLeaveReady S.Clear.phase S.Finish.phase at.old post.old (desk_of desk.old) }
    requires plausible { IsLeavePlausible S.Clear.phase S.Finish.phase at.old post.old found }
    requires empty { told.old ≡ [] }
    ensures turn { (kept : ChangeKept) → phase_turn (leave_of ⟦<S as Rounds>⟧.all_phases (Changes kept) at.old) post.old (desk_of desk.old) found ≡ ran kept result post.new (desk_of desk.new) told.new (leave_of ⟦<S as Rounds>⟧.all_phases (Changes kept) at.new) }
    ensures within { (kept : ChangeKept) → IfSome result (λ step. LedWithin kept step) }
    ensures kept { Keeps post.old post.new desk.old desk.new told.new 2 }
{
    left(take_leave::<S>(at, post, desk, found, told))
}

impl<S: Scheme> ChangeBucket<S> {
    /// The call that makes this change, where it names a version at that one alone, before its first
    /// step.
    #[inline(always)]
    pub fn new(change: Change, wanted: Option<u64>) -> ChangeBucket<S>
        ensures { (post : ModelPost) → ⟦<ChangeBucket<S> as CallMachine>⟧.phase result post ≡ round (changing change wanted) post }
    {
        ChangeBucket {
            kept: Kept {
                change,
                wanted,
                taken: None,
                walked: false,
                link: 0,
                version: 0,
                pairs: Pairs::new(),
            },
            at: State::Starts,
        }
    }

    #[inline(always)]
    fn stand(&mut self, at: StateOf<S>)
        ensures at { self.new.at ≡ at }
        ensures kept { self.new.kept ≡ self.old.kept }
    {
        self.at = at;
    }

    // The work on the row comes next. It stands apart, so that a step that goes on where it stands makes no room
    // for this.
    #[inline(never)]
    fn works(&mut self, at: ChangeAt)
        ensures at { self.new.at ≡ Works at }
        ensures kept { self.new.kept ≡ self.old.kept }
    {
        self.stand(State::Works(at));
    }

    // A round begins: its first step. It stands apart for the same reason.
    #[inline(never)]
    fn begin(
        &mut self,
        post: &mut Post,
        desk: &Desk,
        found: u64,
        told: &mut Told,
    ) -> Option<Changed>
        requires valid { IsValid post.old }
        requires scheme { post.old.layout.config.scheme ≡ S.kind }
        requires ready { IsCallReady (round (Changes (kept_of self.old.kept)) post.old) post.old (desk_of desk.now) }
        requires plausible { IsCallPlausible (round (Changes (kept_of self.old.kept)) post.old) post.old found }
        requires empty { told.old ≡ [] }
        ensures turn { phase_turn (round (Changes (kept_of self.old.kept)) post.old) post.old (desk_of desk.now) found ≡ ran (kept_of self.new.kept) result post.new (desk_of desk.now) told.new (change_phase ⟦<S as Rounds>⟧.all_phases (kept_of self.new.kept) self.new.at post.new) }
        ensures within { IfSome result (λ step. LedWithin (kept_of self.new.kept) step) }
        ensures seat { SameSeat post.old post.new told.new 3 }
    {
        let _ = desk;
        let root = root(&self.kept, post);
        let mut opening = open::<S>(post, 0, root);
        let end = take_open::<S>(&mut opening, 0, root, post, found, told);
        self.stand(State::Opens(opening));
        reached(&mut self.kept, end, post)
    }

    // What runs makes a step. The work on the row goes on where it stands.
    #[inline(always)]
    fn run(
        &mut self,
        post: &mut Post,
        desk: &mut Desk,
        found: u64,
        told: &mut Told,
    ) -> Option<Changed>
        requires valid { IsValid post.old }
        requires scheme { post.old.layout.config.scheme ≡ S.kind }
        requires room { HasRoom desk.old post.old.layout }
        requires ready { IsCallReady (change_phase ⟦<S as Rounds>⟧.all_phases (kept_of self.old.kept) self.old.at post.old) post.old (desk_of desk.old) }
        requires plausible { IsCallPlausible (change_phase ⟦<S as Rounds>⟧.all_phases (kept_of self.old.kept) self.old.at post.old) post.old found }
        requires empty { told.old ≡ [] }
        ensures turn { phase_turn (change_phase ⟦<S as Rounds>⟧.all_phases (kept_of self.old.kept) self.old.at post.old) post.old (desk_of desk.old) found ≡ ran (kept_of self.new.kept) result post.new (desk_of desk.new) told.new (change_phase ⟦<S as Rounds>⟧.all_phases (kept_of self.new.kept) self.new.at post.new) }
        ensures within { IfSome result (λ step. LedWithin (kept_of self.new.kept) step) }
        ensures kept { Keeps post.old post.new desk.old desk.new told.new 3 }
    {
        match &mut self.at {
            State::Starts => self.begin(post, desk, found, told),
            State::Opens(opening) => {
                open_on::<S>(opening, &mut self.kept, post, desk, found, told)
            }
            State::Works(at) => work(at, &mut self.kept, post, found, told),
            State::Fills(at) => fill(at, &mut self.kept, post, found, told),
            State::Leaves(at) => leave_on::<S>(at, post, desk, found, told),
        }
    }

    // A step, with its events besides End.
    #[inline(always)]
    fn step(
        &mut self,
        post: &mut Post,
        desk: &mut Desk,
        found: u64,
        told: &mut Told,
    ) -> Option<Answer>
        requires valid { IsValid post.old }
        requires scheme { post.old.layout.config.scheme ≡ S.kind }
        requires room { HasRoom desk.old post.old.layout }
        requires ready { IsCallReady (change_phase ⟦<S as Rounds>⟧.all_phases (kept_of self.old.kept) self.old.at post.old) post.old (desk_of desk.old) }
        requires plausible { IsCallPlausible (change_phase ⟦<S as Rounds>⟧.all_phases (kept_of self.old.kept) self.old.at post.old) post.old found }
        requires empty { told.old ≡ [] }
        ensures steps { Steps (phase_turn (change_phase ⟦<S as Rounds>⟧.all_phases (kept_of self.old.kept) self.old.at post.old) post.old (desk_of desk.old) found) post.new (desk_of desk.new) told.new result (change_phase ⟦<S as Rounds>⟧.all_phases (kept_of self.new.kept) self.new.at post.new) }
        ensures kept { Keeps post.old post.new desk.old desk.new told.new 4 }
    {
        match self.run(post, desk, found, told) {
            Some(Changed::Goes(at)) => {
                self.works(at);
                None
            }
            Some(step) => self.lead_on(step, post, told),
            None => None,
        }
    }

    // A row of its own comes next: it is taken, or written where it is.
    #[inline(never)]
    fn fills(&mut self, post: &Post)
        requires valid { IsValid post.now }
        requires version { (kept_of self.old.kept).version + 1 < 18446744073709551616 }
        ensures kept { self.new.kept ≡ self.old.kept }
        ensures at { change_phase ⟦<S as Rounds>⟧.all_phases (kept_of self.old.kept) self.new.at post.now ≡ Runs (Fills (Changes (kept_of self.old.kept))) (filling (kept_of self.old.kept)) }
    {
        match self.kept.taken {
            Some(slot) => {
                let row = write(&self.kept, slot);
                self.stand(State::Fills(Fill::Writes(row)));
            }
            None => self.stand(State::Fills(Fill::Allocates(Allocate::new(post)))),
        }
    }

    // It stands where a round of its ends, or where another one begins, or answers.
    #[inline(never)]
    fn leads(&mut self, then: Then<Leave<S::Clear, S::Finish>>) -> Option<Answer>
        ensures kept { self.new.kept ≡ self.old.kept }
        ensures steps { (post : ModelPost) (desk : ModelDesk) (told : List Event) → Steps (stood (leave_at ⟦<S as Rounds>⟧.all_phases (Changes (kept_of self.old.kept))) (Changes (kept_of self.old.kept)) then post desk told) post desk told result (change_phase ⟦<S as Rounds>⟧.all_phases (kept_of self.old.kept) self.new.at post) }
    {
        match then {
            Then::Stands(at) => {
                self.stand(State::Leaves(at));
                None
            }
            Then::Begins => {
                self.stand(State::Starts);
                None
            }
            Then::Answers(answer) => Some(answer),
        }
    }

    // A step leads on. It stands apart, so that a step that goes on where it stands makes no room for
    // where another one leads.
    #[inline(never)]
    fn lead_on(&mut self, step: Changed, post: &mut Post, told: &mut Told) -> Option<Answer>
        requires valid { IsValid post.old }
        requires scheme { post.old.layout.config.scheme ≡ S.kind }
        requires few { length told.old ≤ 3 }
        requires within { LedWithin (kept_of self.old.kept) step }
        ensures steps { (desk : ModelDesk) → Steps (led (kept_of self.old.kept) step post.old desk told.old) post.new desk told.new result (change_phase ⟦<S as Rounds>⟧.all_phases (kept_of self.new.kept) self.new.at post.new) }
        ensures seat { SameSeat post.old post.new told.new 4 }
    {
        match step {
            Changed::Goes(at) => {
                self.works(at);
                None
            }
            Changed::Fills => {
                self.fills(post);
                None
            }
            Changed::Ends(ending) => {
                let then = clear::<S>(self.kept.taken, ending, post, told);
                self.leads(then)
            }
            Changed::Passes(over) => self.leads(pass::<S>(self.kept.taken, over)),
        }
    }
}

impl<S: Scheme> CallMachine for ChangeBucket<S> {
    ghost use Rattle.wfe_bucketmap.specs.Changes.{kept_of};
    ghost use Rattle.wfe_bucketmap.specs.ChangeStates.{change_phase};

    ghost suits = { λ kind. kind ≡ S.kind };

    ghost phase = { λ m post. change_phase ⟦<S as Rounds>⟧.all_phases (kept_of m.kept) m.at post };

    #[inline(always)]
    fn next_op(&self, post: &Post, desk: &Desk) -> Op {
        match &self.at {
            State::Starts => open::<S>(post, 0, root(&self.kept, post)).next_op(post),
            State::Opens(opening) => opening.next_op(post),
            State::Works(at) => at.next_op(&self.kept, post),
            State::Fills(Fill::Allocates(machine)) => machine.next_op(post),
            State::Fills(Fill::Writes(machine)) => machine.next_op(post),
            State::Leaves(at) => at.next_op(post, desk),
        }
    }

    // It stands apart, so that which call it is is asked once a step.
    #[inline(never)]
    fn take(
        &mut self,
        post: &mut Post,
        desk: &mut Desk,
        found: u64,
        told: &mut Told,
    ) -> Option<Answer> {
        post.steps = post.steps.saturating_add(1);
        let answer = self.step(post, desk, found, told);
        desk.settle(post, told, answer);
        answer
    }
}
