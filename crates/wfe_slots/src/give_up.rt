// A row's claim bit is cleared, and no other bit of its word.
ghost use Rattle.std.specs.Prelude.{◌≡◌};
ghost use Rattle.wfe_core.specs.Phases.Base.{GiveUp as GivingUp};
ghost use Rattle.wfe_slots.specs.Phases.{give_up_phase};

use wfe_core::{Event, Machine, Op, Post, Told};

/// Gives up a row that was allocated and never linked, in one step.
#[derive(Drop)]
pub struct GiveUp {
    slot: u32,
}

impl GiveUp {
    /// The giving up of the row at this slot.
    #[inline(always)]
    pub fn new(slot: u32) -> GiveUp
        ensures { give_up_phase result ≡ GivingUp slot }
    {
        GiveUp { slot }
    }
}

#[tactic(auto, unfolding(wfe_words::specs::Place::claim_others))]
impl Machine for GiveUp {
    ghost use Rattle.wfe_core.specs.Phases.Ending.{Done};
    ghost use Rattle.wfe_slots.specs.Phases.{give_up_phase};

    type End = ();

    ghost phase = { give_up_phase };

    ghost ending = { λ _. Done };

    #[inline(always)]
    fn next_op(&self, post: &Post) -> Op {
        Op::And {
            word: post.layout.claim(self.slot),
            bits: u64::MAX - post.layout.claim_mask(self.slot),
        }
    }

    #[inline(always)]
    fn take(&mut self, _post: &mut Post, _found: u64, told: &mut Told) -> Option<()> {
        told.push(Event::Unused { slot: self.slot });
        Some(())
    }
}
