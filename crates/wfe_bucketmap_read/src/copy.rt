// The call that protects what stands at an index at a higher one too.
ghost use Rattle.std.specs.Prelude.{◌≡◌, [], length};
ghost use Rattle.wfe_core.specs.defs.declared.call.Call.TheVariants as calls;
ghost use Rattle.wfe_core.specs.CallReady.{CopyFits, IsCallPlausible, IsCallReady};
ghost use Rattle.wfe_core.specs.Calls.{Phase};
ghost use Rattle.wfe_core.specs.DeskHeld.{desk_of};
ghost use Rattle.wfe_core.specs.Desks.{Desk as ModelDesk};
ghost use Rattle.wfe_core.specs.Keep.{copied};
ghost use Rattle.wfe_core.specs.Posts.{stands};
ghost use Rattle.wfe_core.specs.Steps.{first_phase, phase_turn};
ghost use Rattle.wfe_core.specs.Valid.{IsValid};
ghost use Rattle.wfe_core.specs.declared.post.Post.{Post as ModelPost};
ghost use Rattle.wfe_call_rounds.specs.Steps.{SameSeat, Steps};
ghost use Rattle.wfe_bucketmap_read.specs.Copies.{copy_phase, published_by};

use crate::guard::{has_interval, held_number, load_guard, publishes_rows};
use std::marker::PhantomData;
use wfe_call_rounds::Scheme;
use wfe_core::{Answer, CallMachine, Desk, Event, Op, Post, Told, publish_index, shown_word};

// The step to come: the load of what is published at the first index, or the store of it at the other.
#[derive(Clone, Copy)]
pub enum CopyAt {
    Loads,
    Stores { number: u32 },
}

/// Copies the protection at an index from 2 on to a higher index. What stood there is let go with it.
#[derive(Drop)]
pub struct CopyIndex<S: Scheme> {
    from: u32,
    index: u32,
    at: CopyAt,
    scheme: PhantomData<S>,
}

impl<S: Scheme> CopyIndex<S> {
    /// A copy from this index to that one that has made no step.
    #[inline(always)]
    pub fn new(from: u32, index: u32) -> CopyIndex<S>
        ensures { (post : ModelPost) → ⟦<CopyIndex<S> as CallMachine>⟧.phase result post ≡ first_phase (calls.Copy from index) post }
    {
        CopyIndex {
            from,
            index,
            at: CopyAt::Loads,
            scheme: PhantomData,
        }
    }

    // A step, with its events besides End. The desk is what it was.
    #[inline(always)]
    fn step(&mut self, post: &mut Post, desk: &Desk, found: u64, told: &mut Told) -> Option<Answer>
        requires valid { IsValid post.old }
        requires ready { IsCallReady (copy_phase self.old.from self.old.index self.old.at post.old) post.old (desk_of desk.now) }
        requires plausible { IsCallPlausible (copy_phase self.old.from self.old.index self.old.at post.old) post.old found }
        requires empty { told.old ≡ [] }
        ensures steps { Steps (phase_turn (copy_phase self.old.from self.old.index self.old.at post.old) post.old (desk_of desk.now) found) post.new (desk_of desk.now) told.new result (copy_phase self.new.from self.new.index self.new.at post.new) }
        ensures seat { SameSeat post.old post.new told.new 4 }
    {
        match self.at {
            CopyAt::Loads => {
                if post.standing[self.from as usize].is_none() {
                    return Some(Answer::Nothing);
                }
                if has_interval(post) {
                    return Some(copy(self.from, self.index, None, post, told));
                }
                self.at = CopyAt::Stores {
                    number: held_number(post, found),
                };
                None
            }
            CopyAt::Stores { number } => Some(copy(
                self.from,
                self.index,
                Some(number),
                post,
                told,
            )),
        }
    }
}

// What stands at the first index stands at the other too. The other one publishes this number, an
// era or a link, unless the seat has one interval for all.
#[inline(always)]
fn copy(from: u32, index: u32, number: Option<u32>, post: &mut Post, told: &mut Told) -> Answer
    requires valid { IsValid post.old }
    requires fits { CopyFits post.old from index }
    requires empty { told.old ≡ [] }
    ensures steps { (desk : ModelDesk) (phase : Phase) → Steps (copied from index post.old desk (published_by post.old index number) (stands post.old from)) post.new desk told.new (Some result) phase }
    ensures seat { SameSeat post.old post.new told.new 4 }
{
    let Some(slot) = post.standing[from as usize] else {
        return Answer::Nothing;
    };
    if let Some(old) = post.standing[index as usize] {
        told.push(Event::Clear { index, slot: old });
    }
    post.standing[index as usize] = Some(slot);
    if let Some(number) = number {
        publish_index(publishes_rows(post), post, told, index, number);
    }
    told.push(Event::Copied { from, index, slot });
    Answer::Copied { slot }
}

impl<S: Scheme> CallMachine for CopyIndex<S> {
    ghost use Rattle.wfe_bucketmap_read.specs.Copies.{copy_phase};

    ghost suits = { λ kind. kind ≡ S.kind };

    ghost phase = { λ m post. copy_phase m.from m.index m.at post };

    #[inline(always)]
    fn next_op(&self, post: &Post, _desk: &Desk) -> Op {
        match self.at {
            CopyAt::Loads => load_guard(self.from, post),
            CopyAt::Stores { number } => Op::Store {
                word: post.layout.index(post.seat, self.index),
                value: shown_word(publishes_rows(post), post, self.index, number),
            },
        }
    }

    // It stands apart, so that which call it is is asked once a step.
    #[inline(never)]
    fn take(
        &mut self,
        post: &mut Post,
        desk: &mut Desk,
        found: u64,
        told: &mut Told,
    ) -> Option<Answer> {
        post.steps = post.steps.saturating_add(1);
        let answer = self.step(post, desk, found, told);
        desk.settle(post, told, answer);
        answer
    }
}
