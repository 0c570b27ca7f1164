// The steps of an allocation. A walk begins where the seat's last one ended, so that seats do not
// all try the same rows.
ghost use Rattle.std.specs.Prelude.{◌≡◌};
ghost use Rattle.wfe_core.specs.Phases.AllocateAt.{LoadBirth};
ghost use Rattle.wfe_core.specs.Phases.Base.{Allocate as Allocating};
ghost use Rattle.wfe_slots.specs.Phases.{allocate_phase};

use super::walk::{Walk, is_taken, slot_after};
use wfe_core::{AllocateEnd, Event, Machine, Op, Post, Told};
use wfe_words::{Life, life_word};

// The step to come.
#[derive(Clone, Copy)]
pub enum At {
    LoadBirth,
    ClaimSlot { birth: u32, walk: Walk },
    StoreLife { birth: u32, slot: u32 },
}

/// Allocates a row: it loads the birth era, in eras, sets the claim bit of the first row that it finds
/// free, and stores the row's life. It takes at most two steps and one for each row of the table.
#[derive(Drop)]
pub struct Allocate {
    at: At,
}

impl Allocate {
    /// An allocation of a seat that has made no step. The walk begins at the seat's cursor, which the
    /// machine reads from the post that its first step is given; it keeps nothing of this one.
    #[inline(always)]
    pub fn new(post: &Post) -> Allocate
        ensures { allocate_phase result ≡ Allocating LoadBirth }
    {
        Allocate { at: At::LoadBirth }
    }
}

impl Machine for Allocate {
    ghost use Rattle.wfe_core.specs.Phases.Ending.{Allocated};
    ghost use Rattle.wfe_slots.specs.Phases.{allocate_phase};

    type End = AllocateEnd;

    ghost phase = { allocate_phase };

    ghost ending = { λ end. Allocated end };

    #[inline(always)]
    fn next_op(&self, post: &Post) -> Op {
        match self.at {
            At::LoadBirth => Op::Load {
                word: post.layout.clock(),
            },
            At::ClaimSlot { walk, .. } => Op::Or {
                word: post.layout.claim(walk.slot),
                bits: post.layout.claim_mask(walk.slot),
            },
            At::StoreLife { birth, slot } => Op::Store {
                word: post.layout.life(slot),
                value: life_word(Life { birth, retire: 0 }),
            },
        }
    }

    #[inline(always)]
    fn take(&mut self, post: &mut Post, found: u64, told: &mut Told) -> Option<AllocateEnd> {
        let slots = post.layout.config().slots;
        match self.at {
            At::LoadBirth => {
                self.at = At::ClaimSlot {
                    birth: found as u32,
                    walk: Walk::from(slots, post.cursor),
                };
                None
            }
            At::ClaimSlot { birth, walk } => {
                if is_taken(found, walk.slot) {
                    match walk.past(slots, found) {
                        Some(walk) => {
                            self.at = At::ClaimSlot { birth, walk };
                            None
                        }
                        None => Some(AllocateEnd::Full),
                    }
                } else {
                    post.cursor = slot_after(slots, walk.slot);
                    told.push(Event::Give {
                        slot: walk.slot,
                        birth,
                    });
                    self.at = At::StoreLife {
                        birth,
                        slot: walk.slot,
                    };
                    None
                }
            }
            At::StoreLife { birth, slot } => Some(AllocateEnd::Given { slot, birth }),
        }
    }
}
