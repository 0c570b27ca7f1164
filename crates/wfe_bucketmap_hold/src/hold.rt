// The call that holds the row of a key.
ghost use Rattle.std.specs.Prelude.{◌≡◌, ◌≤◌, [], length};
ghost use Rattle.wfe_core.specs.CallReady.{IsCallPlausible, IsCallReady};
ghost use Rattle.wfe_core.specs.Calls.{Holds, Rehold};
ghost use Rattle.wfe_core.specs.DeskHeld.{desk_of};
ghost use Rattle.wfe_core.specs.Desks.{Desk as ModelDesk};
ghost use Rattle.wfe_core.specs.Phases.Ending.{Protected};
ghost use Rattle.wfe_core.specs.Posts.{stands};
ghost use Rattle.wfe_core.specs.Ready.{RootFits};
ghost use Rattle.wfe_core.specs.Rounds.{letting, root_of, round};
ghost use Rattle.wfe_core.specs.Steps.{call_op, holding, opened, phase_turn};
ghost use Rattle.wfe_core.specs.Valid.{IsValid};
ghost use Rattle.wfe_core.specs.declared.post.Post.{Post};
ghost use Rattle.wfe_call_rounds.specs.Steps.{SameSeat, Steps};
ghost use Rattle.wfe_bucketmap_hold.specs.Holds.{hold_phase};

use crate::hold_at::HoldAt;
use crate::letting::{let_op, take_let};
use wfe_call_rounds::{Rounds, Scheme, close, open, take_close, take_open};
use wfe_core::{Answer, CallMachine, Desk, Machine, Op, Post, ProtectEnd, Root, Told};

/// Holds the row of a key's bucket until it is released. What the seat held before is let go first.
#[derive(Drop)]
pub struct Hold<S: Scheme> {
    key: u64,
    at: HoldAt<S::Begin, S::Protect, S::Clear, S::Finish, S::Release>,
}

impl<S: Scheme> Hold<S> {
    /// A hold of this key's row that has made no step.
    #[inline(always)]
    pub fn new(key: u64) -> Hold<S>
        ensures { (post : Post) → ⟦<Hold<S> as CallMachine>⟧.phase result post ≡ holding key post (stands post 2) }
    {
        Hold {
            key,
            at: HoldAt::Starts,
        }
    }

    // The operation of the round's first step.
    #[inline(always)]
    fn round_op(&self, post: &Post, desk: &Desk) -> Op
        requires valid { IsValid post.now }
        requires scheme { post.now.layout.config.scheme ≡ S.kind }
        requires ready { IsCallReady (round (Holds self.now.key) post.now) post.now (desk_of desk.now) }
        ensures { result ≡ call_op (round (Holds self.now.key) post.now) post.now }
    {
        open::<S>(post, 2, root_for(self.key, post)).next_op(post)
    }

    // It stands there from now on.
    #[inline(always)]
    fn stand(&mut self, at: HoldAt<S::Begin, S::Protect, S::Clear, S::Finish, S::Release>)
        ensures key { self.new.key ≡ self.old.key }
        ensures at { self.new.at ≡ at }
    {
        self.at = at;
    }

    // The protection has ended: the row is held, or there is none, and the round ends.
    #[inline(always)]
    fn reach(&mut self, end: ProtectEnd, post: &mut Post, told: &mut Told) -> Option<Answer>
        requires valid { IsValid post.old }
        requires scheme { post.old.layout.config.scheme ≡ S.kind }
        requires few { length told.old ≤ 2 }
        ensures steps { (desk : ModelDesk) → Steps (opened (Holds self.old.key) (Protected end) post.old desk told.old) post.new desk told.new result (hold_phase ⟦<S as Rounds>⟧.all_phases S.Release.phase self.new.key self.new.at post.new) }
        ensures seat { SameSeat post.old post.new told.new 4 }
    {
        match end {
            ProtectEnd::Held { slot, .. } => Some(Answer::Holding { slot }),
            ProtectEnd::Null => match close::<S>(post, told, 2, false) {
                Some(closing) => {
                    self.stand(HoldAt::Closes(closing));
                    None
                }
                None => Some(Answer::Nothing),
            },
        }
    }

    // The first step of the round.
    #[inline(always)]
    fn start(&mut self, post: &mut Post, desk: &Desk, found: u64, told: &mut Told) -> Option<Answer>
        requires valid { IsValid post.old }
        requires scheme { post.old.layout.config.scheme ≡ S.kind }
        requires ready { IsCallReady (round (Holds self.old.key) post.old) post.old (desk_of desk.now) }
        requires plausible { IsCallPlausible (round (Holds self.old.key) post.old) post.old found }
        requires empty { told.old ≡ [] }
        ensures steps { Steps (phase_turn (round (Holds self.old.key) post.old) post.old (desk_of desk.now) found) post.new (desk_of desk.now) told.new result (hold_phase ⟦<S as Rounds>⟧.all_phases S.Release.phase self.new.key self.new.at post.new) }
        ensures seat { SameSeat post.old post.new told.new 4 }
    {
        let root = root_for(self.key, post);
        let mut opening = open::<S>(post, 2, root);
        let end = take_open::<S>(&mut opening, 2, root, post, found, told);
        self.stand(HoldAt::Opens(opening));
        match end {
            Some(end) => self.reach(end, post, told),
            None => None,
        }
    }

    // The first step of the release of what was held before.
    #[inline(always)]
    fn release(&mut self, post: &mut Post, found: u64, told: &mut Told) -> Option<Answer>
        requires valid { IsValid post.old }
        requires scheme { post.old.layout.config.scheme ≡ S.kind }
        requires empty { told.old ≡ [] }
        ensures steps { (desk : ModelDesk) → Steps (phase_turn (letting (Rehold self.old.key) post.old) post.old desk found) post.new desk told.new result (hold_phase ⟦<S as Rounds>⟧.all_phases S.Release.phase self.new.key self.new.at post.new) }
        ensures seat { SameSeat post.old post.new told.new 4 }
    {
        match take_let::<S>(2, post, found, told) {
            Some(machine) => {
                self.stand(HoldAt::Releases(machine));
                None
            }
            None => {
                self.stand(HoldAt::Rounds);
                None
            }
        }
    }

    // The first step of the call.
    #[inline(always)]
    fn begin(&mut self, post: &mut Post, desk: &Desk, found: u64, told: &mut Told) -> Option<Answer>
        requires valid { IsValid post.old }
        requires scheme { post.old.layout.config.scheme ≡ S.kind }
        requires ready { IsCallReady (holding self.old.key post.old (stands post.old 2)) post.old (desk_of desk.now) }
        requires plausible { IsCallPlausible (holding self.old.key post.old (stands post.old 2)) post.old found }
        requires empty { told.old ≡ [] }
        ensures steps { Steps (phase_turn (holding self.old.key post.old (stands post.old 2)) post.old (desk_of desk.now) found) post.new (desk_of desk.now) told.new result (hold_phase ⟦<S as Rounds>⟧.all_phases S.Release.phase self.new.key self.new.at post.new) }
        ensures seat { SameSeat post.old post.new told.new 4 }
    {
        match post.standing[2] {
            Some(_) => self.release(post, found, told),
            None => self.start(post, desk, found, told),
        }
    }

    // A step, with its events besides End. The desk is what it was.
    #[inline(always)]
    fn step(&mut self, post: &mut Post, desk: &Desk, found: u64, told: &mut Told) -> Option<Answer>
        requires valid { IsValid post.old }
        requires scheme { post.old.layout.config.scheme ≡ S.kind }
        requires ready { IsCallReady (hold_phase ⟦<S as Rounds>⟧.all_phases S.Release.phase self.old.key self.old.at post.old) post.old (desk_of desk.now) }
        requires plausible { IsCallPlausible (hold_phase ⟦<S as Rounds>⟧.all_phases S.Release.phase self.old.key self.old.at post.old) post.old found }
        requires empty { told.old ≡ [] }
        ensures steps { Steps (phase_turn (hold_phase ⟦<S as Rounds>⟧.all_phases S.Release.phase self.old.key self.old.at post.old) post.old (desk_of desk.now) found) post.new (desk_of desk.now) told.new result (hold_phase ⟦<S as Rounds>⟧.all_phases S.Release.phase self.new.key self.new.at post.new) }
        ensures seat { SameSeat post.old post.new told.new 4 }
    {
        let root = root_for(self.key, post);
        match &mut self.at {
            HoldAt::Starts => self.begin(post, desk, found, told),
            HoldAt::Releases(machine) => {
                machine.take(post, found, told)?;
                self.stand(HoldAt::Rounds);
                None
            }
            HoldAt::Rounds => self.start(post, desk, found, told),
            HoldAt::Opens(opening) => {
                let end = take_open::<S>(opening, 2, root, post, found, told)?;
                self.reach(end, post, told)
            }
            HoldAt::Closes(closing) => {
                if take_close::<S>(closing, false, post, found, told) {
                    return Some(Answer::Nothing);
                }
                None
            }
        }
    }
}

// The root of the key's bucket.
#[inline(always)]
fn root_for(key: u64, post: &Post) -> Root
    requires { IsValid post.now }
    ensures root { result ≡ root_of (Holds key) post.now }
    ensures there { RootFits post.now.layout result }
{
    let buckets = post.layout.config().buckets as u64;
    Root::Bucket((key % buckets) as u32)
}

impl<S: Scheme> CallMachine for Hold<S> {
    ghost use Rattle.wfe_bucketmap_hold.specs.Holds.{hold_phase};

    ghost suits = { λ kind. kind ≡ S.kind };

    ghost phase = { λ m post. hold_phase ⟦<S as Rounds>⟧.all_phases S.Release.phase m.key m.at post };

    #[inline(always)]
    fn next_op(&self, post: &Post, desk: &Desk) -> Op {
        match &self.at {
            HoldAt::Starts => match post.standing[2] {
                Some(_) => let_op::<S>(2, post),
                None => self.round_op(post, desk),
            },
            HoldAt::Releases(machine) => machine.next_op(post),
            HoldAt::Rounds => self.round_op(post, desk),
            HoldAt::Opens(opening) => opening.next_op(post),
            HoldAt::Closes(closing) => closing.next_op(post),
        }
    }

    // It stands apart, so that which call it is is asked once a step.
    #[inline(never)]
    fn take(
        &mut self,
        post: &mut Post,
        desk: &mut Desk,
        found: u64,
        told: &mut Told,
    ) -> Option<Answer> {
        post.steps = post.steps.saturating_add(1);
        let answer = self.step(post, desk, found, told);
        desk.settle(post, told, answer);
        answer
    }
}
