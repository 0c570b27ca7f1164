// What stands at an index from 2 on is let go: by a call of its own, or before another key is held.
ghost use Rattle.std.specs.Prelude.{◌≡◌, [], length};
ghost use Rattle.wfe_core.specs.CallReady.{IsCallPlausible, IsCallReady};
ghost use Rattle.wfe_core.specs.Calls.{LetGo as ModelLetGo};
ghost use Rattle.wfe_core.specs.DeskHeld.{desk_of};
ghost use Rattle.wfe_core.specs.Desks.{Desk as ModelDesk};
ghost use Rattle.wfe_core.specs.Posts.{cleared, stands, withdrawn};
ghost use Rattle.wfe_core.specs.Ready.{IndexFits};
ghost use Rattle.wfe_core.specs.Rounds.{let_index, letting};
ghost use Rattle.wfe_core.specs.Steps.{call_op, phase_turn};
ghost use Rattle.wfe_core.specs.Valid.{IsValid};
ghost use Rattle.wfe_core.specs.declared.post.Post.{Post as ModelPost};
ghost use Rattle.wfe_call_rounds.specs.Steps.{SameSeat, Steps};
ghost use Rattle.wfe_bucketmap_hold.specs.Lettings.{let_answer, let_go_of, let_on, let_phase};

use wfe_call_rounds::Scheme;
use wfe_core::{Answer, CallMachine, Desk, Event, Machine, Op, Post, Told};

// What a call lets go: what is held, or what stands at an index.
#[derive(Clone, Copy)]
pub enum LetGo {
    Held,
    At { index: u32 },
}

impl LetGo {
    // The index of what is let go.
    #[inline(always)]
    fn index(self) -> u32
        ensures { result ≡ let_index (let_go_of self) }
    {
        match self {
            LetGo::Held => 2,
            LetGo::At { index } => index,
        }
    }

    // What the call answers.
    #[inline(always)]
    fn answer(self) -> Answer
        ensures { result ≡ let_answer self }
    {
        match self {
            LetGo::Held => Answer::Released,
            LetGo::At { .. } => Answer::Dropped,
        }
    }
}

// The first operation where something is let go.
#[inline(always)]
pub fn let_op<S: Scheme>(index: u32, post: &Post) -> Op
    requires valid { IsValid post.now }
    requires scheme { post.now.layout.config.scheme ≡ S.kind }
    requires index { IndexFits post.now index }
    ensures { (let_go : ModelLetGo) → let_index let_go ≡ index → result ≡ call_op (letting let_go post.now) post.now }
{
    match S::release(post, index) {
        Some(machine) => machine.next_op(post),
        None => Op::Load {
            word: post.layout.interval(post.seat),
        },
    }
}

// What stands at an index stands there no more.
#[inline(always)]
fn loosen(index: u32, post: &mut Post, told: &mut Told)
    requires valid { IsValid post.old }
    requires index { IndexFits post.old index }
    requires empty { told.old ≡ [] }
    ensures post { post.new ≡ withdrawn post.old index }
    ensures told { told.new ≡ cleared index (stands post.old index) }
    ensures seat { SameSeat post.old post.new told.new 2 }
{
    if let Some(slot) = post.standing[index as usize] {
        told.push(Event::Clear { index, slot });
    }
    post.standing[index as usize] = None;
}

// Takes what the first operation found. The machine that is under way after it, and None where it is
// let go.
#[inline(always)]
pub fn take_let<S: Scheme>(
    index: u32,
    post: &mut Post,
    found: u64,
    told: &mut Told,
) -> Option<S::Release>
    requires valid { IsValid post.old }
    requires scheme { post.old.layout.config.scheme ≡ S.kind }
    requires index { IndexFits post.old index }
    requires empty { told.old ≡ [] }
    ensures turn { (let_go : ModelLetGo) (desk : ModelDesk) → let_index let_go ≡ index → phase_turn (letting let_go post.old) post.old desk found ≡ let_on S.Release.phase let_go result post.new desk told.new }
    ensures seat { SameSeat post.old post.new told.new 2 }
{
    match S::release(post, index) {
        Some(machine) => {
            let mut machine = machine;
            match machine.take(post, found, told) {
                Some(()) => None,
                None => Some(machine),
            }
        }
        None => {
            loosen(index, post, told);
            None
        }
    }
}

// The call that lets something go. Before its first step it has no machine.
#[derive(Drop)]
pub struct Letting<S: Scheme> {
    let_go: LetGo,
    steps: Option<S::Release>,
}

impl<S: Scheme> Letting<S> {
    // The call before its first step.
    #[inline(always)]
    pub fn new(let_go: LetGo) -> Letting<S>
        ensures { (post : ModelPost) → ⟦<Letting<S> as CallMachine>⟧.phase result post ≡ letting (let_go_of let_go) post }
    {
        Letting {
            let_go,
            steps: None,
        }
    }

    // A step, with its events besides End. The desk is what it was.
    #[inline(always)]
    fn step(&mut self, post: &mut Post, desk: &Desk, found: u64, told: &mut Told) -> Option<Answer>
        requires valid { IsValid post.old }
        requires scheme { post.old.layout.config.scheme ≡ S.kind }
        requires ready { IsCallReady (let_phase S.Release.phase (let_go_of self.old.let_go) self.old.steps post.old) post.old (desk_of desk.now) }
        requires plausible { IsCallPlausible (let_phase S.Release.phase (let_go_of self.old.let_go) self.old.steps post.old) post.old found }
        requires empty { told.old ≡ [] }
        ensures steps { Steps (phase_turn (let_phase S.Release.phase (let_go_of self.old.let_go) self.old.steps post.old) post.old (desk_of desk.now) found) post.new (desk_of desk.now) told.new result (let_phase S.Release.phase (let_go_of self.new.let_go) self.new.steps post.new) }
        ensures seat { SameSeat post.old post.new told.new 2 }
    {
        match &mut self.steps {
            Some(machine) => {
                machine.take(post, found, told)?;
                Some(self.let_go.answer())
            }
            None => match take_let::<S>(self.let_go.index(), post, found, told) {
                Some(machine) => {
                    self.steps = Some(machine);
                    None
                }
                None => Some(self.let_go.answer()),
            },
        }
    }
}

impl<S: Scheme> CallMachine for Letting<S> {
    ghost use Rattle.wfe_bucketmap_hold.specs.Lettings.{let_go_of, let_phase};

    ghost suits = { λ kind. kind ≡ S.kind };

    ghost phase = { λ m post. let_phase S.Release.phase (let_go_of m.let_go) m.steps post };

    #[inline(always)]
    fn next_op(&self, post: &Post, _desk: &Desk) -> Op {
        match &self.steps {
            Some(machine) => machine.next_op(post),
            None => let_op::<S>(self.let_go.index(), post),
        }
    }

    // It stands apart, so that which call it is is asked once a step.
    #[inline(never)]
    fn take(
        &mut self,
        post: &mut Post,
        desk: &mut Desk,
        found: u64,
        told: &mut Told,
    ) -> Option<Answer> {
        post.steps = post.steps.saturating_add(1);
        let answer = self.step(post, desk, found, told);
        desk.settle(post, told, answer);
        answer
    }
}
