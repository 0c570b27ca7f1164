// The steps of a protection under 2GE.
ghost use Rattle.std.specs.Prelude.{◌≡◌, true};
ghost use Rattle.wfe_core.specs.words.Place.{is_valid};
ghost use Rattle.wfe_core.specs.Links.{link_number, root_at as root_of};
ghost use Rattle.wfe_core.specs.Phases.{Alone};
ghost use Rattle.wfe_core.specs.Phases.Base.{Protect};
ghost use Rattle.wfe_core.specs.Phases.ProtectAt.{LoadWithin};
ghost use Rattle.wfe_core.specs.Ready.{RootFits};
ghost use Rattle.wfe_ibr.specs.Phases.{protect_phase};
ghost use Rattle.wfe_core.specs.Posts.{lower as lower_of, upper as upper_of};

use wfe_core::{
    Event, Guard, Interval, Machine, Op, Post, ProtectEnd, Root, Span, Told, hold,
    link_word_number, protect_end, root_at, span_word,
};

// The step to come.
#[derive(Clone, Copy)]
pub enum At {
    LoadWithin,
    CheckUpper { link: u32 },
    RaiseUpper { era: u32 },
}

/// Protects the row to which a link leads, at an index of the seat, as 2GE does: it loads the link, and
/// is over once the clock is the upper end of the seat's interval, which it raises till then.
#[derive(Drop)]
pub struct IbrProtect {
    index: u32,
    root: Root,
    steps: u64,
    at: At,
}

// The ends of an interval; where none stands, 0.
#[inline(always)]
fn lower(span: Option<Interval>) -> u32
    ensures { result ≡ lower_of span }
{
    match span {
        Some(span) => span.lo,
        None => 0,
    }
}

#[inline(always)]
fn upper(span: Option<Interval>) -> u32
    ensures { result ≡ upper_of span }
{
    match span {
        Some(span) => span.hi,
        None => 0,
    }
}

impl IbrProtect {
    /// A protection of the link in this word, which is a root or the next link of a row that stands.
    #[inline(always)]
    pub fn new(post: &Post, index: u32, word: u32) -> IbrProtect
        requires layout { is_valid post.now.layout ≡ true }
        requires there { RootFits post.now.layout (root_of post.now.layout word) }
        requires number { link_number post.now.layout (root_of post.now.layout word) ≡ word }
        ensures { protect_phase result ≡ Protect Alone index (root_of post.now.layout word) 0 LoadWithin }
    {
        IbrProtect {
            index,
            root: root_at(post.layout, word),
            steps: 0,
            at: At::LoadWithin,
        }
    }
}

impl Machine for IbrProtect {
    ghost use Rattle.wfe_core.specs.Phases.Ending.{Protected};
    ghost use Rattle.wfe_ibr.specs.Phases.{protect_phase};

    type End = ProtectEnd;

    ghost phase = { protect_phase };

    ghost ending = { λ e. Protected e };

    #[inline(always)]
    fn next_op(&self, post: &Post) -> Op {
        match self.at {
            At::LoadWithin => Op::Load {
                word: link_word_number(post.layout, self.root),
            },
            At::CheckUpper { .. } => Op::Load {
                word: post.layout.clock(),
            },
            At::RaiseUpper { era } => Op::Store {
                word: post.layout.interval(post.seat),
                value: span_word(Some(Span {
                    lo: lower(post.span),
                    hi: era,
                })),
            },
        }
    }

    #[inline(always)]
    fn take(&mut self, post: &mut Post, found: u64, told: &mut Told) -> Option<ProtectEnd> {
        self.steps = self.steps.saturating_add(1);
        match self.at {
            At::LoadWithin => self.at = At::CheckUpper { link: found as u32 },
            At::CheckUpper { link } => {
                let clock = found as u32;
                if clock == upper(post.span) {
                    hold(post, told, self.index, self.root, link, self.steps);
                    return Some(protect_end(post, link, clock));
                }
                self.at = At::RaiseUpper { era: clock };
            }
            At::RaiseUpper { era } => {
                let span = Some(Interval {
                    lo: lower(post.span),
                    hi: era,
                });
                post.span = span;
                told.push(Event::Reserve {
                    guard: Guard::Whole { seat: post.seat },
                    span,
                });
                self.at = At::LoadWithin;
            }
        }
        None
    }
}
