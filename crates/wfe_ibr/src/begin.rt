// An interval begins: both ends are the clock.
ghost use Rattle.std.specs.Prelude.{◌≡◌};
ghost use Rattle.wfe_core.specs.Phases.Base.{Begin};
ghost use Rattle.wfe_core.specs.Phases.BeginAt.{LoadLower};
ghost use Rattle.wfe_ibr.specs.Phases.{begin_phase};

use wfe_core::{Event, Guard, Interval, Machine, Op, Post, Span, Told, span_word};

// The step to come.
#[derive(Clone, Copy)]
pub enum BeginAt {
    LoadLower,
    PublishSpan { era: u32 },
}

/// Publishes an interval whose ends are both the clock, in two steps.
#[derive(Drop)]
pub struct IbrBegin {
    at: BeginAt,
}

impl IbrBegin {
    #[inline(always)]
    pub fn new() -> IbrBegin
        ensures { begin_phase result ≡ Begin LoadLower }
    {
        IbrBegin {
            at: BeginAt::LoadLower,
        }
    }
}

impl Machine for IbrBegin {
    ghost use Rattle.wfe_core.specs.Phases.Ending.{Done};
    ghost use Rattle.wfe_ibr.specs.Phases.{begin_phase};

    type End = ();

    ghost phase = { begin_phase };

    ghost ending = { λ _. Done };

    #[inline(always)]
    fn next_op(&self, post: &Post) -> Op {
        match self.at {
            BeginAt::LoadLower => Op::Load {
                word: post.layout.clock(),
            },
            BeginAt::PublishSpan { era } => Op::Store {
                word: post.layout.interval(post.seat),
                value: span_word(Some(Span { lo: era, hi: era })),
            },
        }
    }

    #[inline(always)]
    fn take(&mut self, post: &mut Post, found: u64, told: &mut Told) -> Option<()> {
        match self.at {
            BeginAt::LoadLower => {
                self.at = BeginAt::PublishSpan { era: found as u32 };
                None
            }
            BeginAt::PublishSpan { era } => {
                let span = Some(Interval { lo: era, hi: era });
                post.span = span;
                told.push(Event::Reserve {
                    guard: Guard::Whole { seat: post.seat },
                    span,
                });
                Some(())
            }
        }
    }
}
