// An index word is cleared, and what stood at the index stands there no more.
ghost use Rattle.std.specs.Prelude.{◌≡◌, ◌<◌, false};
ghost use Rattle.wfe_core.specs.Phases.Base.{Clear};
ghost use Rattle.wfe_he.specs.Phases.{clear_phase};

use wfe_core::{Event, Guard, Machine, Op, Post, Told, index_word};

/// Withdraws what an index of the seat publishes, in one step. It serves Hazard Eras and Wait-Free
/// Eras.
#[derive(Drop)]
pub struct HeClear {
    index: u32,
}

impl HeClear {
    #[inline(always)]
    pub fn new(index: u32) -> HeClear
        ensures { clear_phase result ≡ Clear false index }
    {
        HeClear { index }
    }
}

impl Machine for HeClear {
    ghost use Rattle.wfe_core.specs.Phases.Ending.{Done};
    ghost use Rattle.wfe_he.specs.Phases.{clear_phase};

    type End = ();

    ghost phase = { clear_phase };

    ghost ending = { λ _. Done };

    #[inline(always)]
    fn next_op(&self, post: &Post) -> Op {
        Op::Store {
            word: post.layout.index(post.seat, self.index),
            value: index_word(post, self.index, 0),
        }
    }

    #[inline(always)]
    fn take(&mut self, post: &mut Post, _found: u64, told: &mut Told) -> Option<()> {
        let index = self.index;
        if let Some(slot) = post.standing[index as usize] {
            told.push(Event::Clear { index, slot });
        }
        post.standing[index as usize] = None;
        told.push(Event::Reserve {
            guard: Guard::Index {
                seat: post.seat,
                index,
            },
            span: None,
        });
        Some(())
    }
}
