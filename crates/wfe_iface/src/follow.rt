// The next link of the head's row is protected, and then the head is loaded again: while it still
// leads to the parent, the parent is not cut, and the link was the queue's.
ghost use Rattle.std.specs.Prelude.{◌≡◌, true};
ghost use Rattle.wfe_core.specs.words.Place.{number};
ghost use Rattle.wfe_core.specs.words.Place.Place.{Head};
ghost use Rattle.wfe_core.specs.Follow.{following};
ghost use Rattle.wfe_core.specs.Ready.{SlotFits};
ghost use Rattle.wfe_core.specs.Rounds.{protect_base};
ghost use Rattle.wfe_core.specs.Valid.{IsValid};
ghost use Rattle.wfe_core.specs.defs.declared.event.Root.TheVariants.{Next as NextOf};
ghost use Rattle.wfe_iface.specs.Follows.{IsOf};

use crate::Scheme;
use crate::follow_at::At;
use wfe_core::{Event, FollowEnd, Machine, Op, Post, ProtectEnd, Root, Told, link_word_number};

/// Protects the row after a row of the queue, at an index of the seat, and holds it once the head
/// still leads to the parent after the protection.
#[derive(Drop)]
pub struct Follow<S: Scheme> {
    parent: u32,
    index: u32,
    steps: u64,
    at: At<S::Protect>,
    ghost protection: { IsOf S.Protect.phase parent index steps at },
}

impl<S: Scheme> Follow<S> {
    /// A follow that has made no step, of the next link of the parent, a row that stands at another
    /// index of the seat. The root, by its word's number, is the queue's head, which has that number at
    /// each step, as the layout stays the same.
    #[inline(always)]
    pub fn new(post: &Post, root: u32, parent: u32, index: u32) -> Follow<S>
        requires valid { IsValid post.now }
        requires head { root ≡ number post.now.layout Head }
        requires parent { SlotFits post.now parent }
        ensures { ⟦<Follow<S> as Machine>⟧.phase result ≡ following (protect_base S.kind index (NextOf parent)) }
    {
        let word = link_word_number(post.layout, Root::Next(parent));
        Follow {
            parent,
            index,
            steps: 0,
            at: At::Protecting(S::protect(post, index, word)),
        }
    }
}

impl<S: Scheme> Machine for Follow<S> {
    ghost use Rattle.wfe_core.specs.Phases.Ending.{Followed};
    ghost use Rattle.wfe_iface.specs.Follows.{at_phase};

    type End = FollowEnd;

    ghost phase = { λ f. at_phase S.Protect.phase f.parent f.index f.steps f.at };

    ghost ending = { λ e. Followed e };

    #[inline(always)]
    fn next_op(&self, post: &Post) -> Op {
        match &self.at {
            At::Protecting(protect) => protect.next_op(post),
            At::Reloading { .. } => Op::Load {
                word: post.layout.head(),
            },
        }
    }

    #[inline(always)]
    fn take(&mut self, post: &mut Post, found: u64, told: &mut Told) -> Option<FollowEnd> {
        self.steps = self.steps.saturating_add(1);
        match &mut self.at {
            At::Protecting(protect) => {
                let end = protect.take(post, found, told)?;
                let (slot, era, ended) = match end {
                    ProtectEnd::Held { slot, era } => (slot, era, None),
                    ProtectEnd::Null => (0, 0, Some(FollowEnd::NoNext)),
                };
                self.at = At::Reloading { slot, era };
                ended
            }
            At::Reloading { slot, .. } => {
                if found != self.parent as u64 + 1 {
                    return Some(FollowEnd::RootMoved { seen: found });
                }
                let slot = *slot;
                post.standing[self.index as usize] = Some(slot);
                told.push(Event::Held {
                    index: self.index,
                    slot,
                    steps: self.steps,
                });
                Some(FollowEnd::Followed { slot })
            }
        }
    }
}
