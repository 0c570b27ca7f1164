// An interval is withdrawn: at the end of a call, or with the last row that is kept.
ghost use Rattle.std.specs.Prelude.{◌≡◌};
ghost use Rattle.wfe_core.specs.Phases.Base.{Finish, Release};
ghost use Rattle.wfe_ibr.specs.Phases.{finish_phase, release_phase};

use wfe_core::{Event, Guard, Machine, Op, Post, Told};

/// Withdraws the seat's interval, in one step.
#[derive(Drop)]
pub struct IbrFinish {}

impl IbrFinish {
    #[inline(always)]
    pub fn new() -> IbrFinish
        ensures { finish_phase result ≡ Finish }
    {
        IbrFinish {}
    }
}

impl Machine for IbrFinish {
    ghost use Rattle.wfe_core.specs.Phases.Ending.{Done};
    ghost use Rattle.wfe_ibr.specs.Phases.{finish_phase};

    type End = ();

    ghost phase = { finish_phase };

    ghost ending = { λ _. Done };

    #[inline(always)]
    fn next_op(&self, post: &Post) -> Op {
        Op::Store {
            word: post.layout.interval(post.seat),
            value: 0,
        }
    }

    #[inline(always)]
    fn take(&mut self, post: &mut Post, _found: u64, told: &mut Told) -> Option<()> {
        post.span = None;
        told.push(Event::Reserve {
            guard: Guard::Whole { seat: post.seat },
            span: None,
        });
        Some(())
    }
}

/// Withdraws the seat's interval and lets go of what stands at an index, in one step.
#[derive(Drop)]
pub struct IbrRelease {
    index: u32,
}

impl IbrRelease {
    #[inline(always)]
    pub fn new(index: u32) -> IbrRelease
        ensures { release_phase result ≡ Release index }
    {
        IbrRelease { index }
    }
}

impl Machine for IbrRelease {
    ghost use Rattle.wfe_core.specs.Phases.Ending.{Done};
    ghost use Rattle.wfe_ibr.specs.Phases.{release_phase};

    type End = ();

    ghost phase = { release_phase };

    ghost ending = { λ _. Done };

    #[inline(always)]
    fn next_op(&self, post: &Post) -> Op {
        Op::Store {
            word: post.layout.interval(post.seat),
            value: 0,
        }
    }

    #[inline(always)]
    fn take(&mut self, post: &mut Post, _found: u64, told: &mut Told) -> Option<()> {
        let index = self.index;
        if let Some(slot) = post.standing[index as usize] {
            told.push(Event::Clear { index, slot });
        }
        post.standing[index as usize] = None;
        post.span = None;
        told.push(Event::Reserve {
            guard: Guard::Whole { seat: post.seat },
            span: None,
        });
        Some(())
    }
}
