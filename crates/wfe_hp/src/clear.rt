// An index word is cleared, and what stood at the index stands there no more.
ghost use Rattle.std.specs.Prelude.{◌≡◌, ◌<◌, true};
ghost use Rattle.wfe_core.specs.Phases.Base.{Clear};
ghost use Rattle.wfe_hp.specs.Phases.{clear_phase};

use wfe_core::{Event, Guard, Machine, Op, Post, Told};

/// Withdraws the row that an index of the seat publishes, in one step.
#[derive(Drop)]
pub struct HpClear {
    index: u32,
}

impl HpClear {
    #[inline(always)]
    pub fn new(index: u32) -> HpClear
        ensures { clear_phase result ≡ Clear true index }
    {
        HpClear { index }
    }
}

impl Machine for HpClear {
    ghost use Rattle.wfe_core.specs.Phases.Ending.{Done};
    ghost use Rattle.wfe_hp.specs.Phases.{clear_phase};

    type End = ();

    ghost phase = { clear_phase };

    ghost ending = { λ _. Done };

    #[inline(always)]
    fn next_op(&self, post: &Post) -> Op {
        Op::Store {
            word: post.layout.index(post.seat, self.index),
            value: 0,
        }
    }

    #[inline(always)]
    fn take(&mut self, post: &mut Post, _found: u64, told: &mut Told) -> Option<()> {
        let index = self.index;
        if let Some(slot) = post.standing[index as usize] {
            told.push(Event::Clear { index, slot });
        }
        post.standing[index as usize] = None;
        told.push(Event::Hazard {
            guard: Guard::Index {
                seat: post.seat,
                index,
            },
            slot: None,
        });
        Some(())
    }
}
