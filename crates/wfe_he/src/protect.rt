// The steps of a protection under Hazard Eras.
ghost use Rattle.std.specs.Prelude.{◌≡◌, true};
ghost use Rattle.wfe_core.specs.words.Place.{is_valid};
ghost use Rattle.wfe_core.specs.Links.{link_number, root_at as root_of};
ghost use Rattle.wfe_core.specs.Phases.{Alone, Endless};
ghost use Rattle.wfe_core.specs.Phases.Base.{Protect};
ghost use Rattle.wfe_core.specs.Phases.ProtectAt.{LoadClock};
ghost use Rattle.wfe_core.specs.Ready.{RootFits};
ghost use Rattle.wfe_he.specs.Phases.{protect_phase};

use wfe_core::{
    Event, Guard, Machine, Op, Post, ProtectEnd, Root, Told, hold, index_word, link_word_number,
    one_era, protect_end, root_at,
};

// The step to come.
#[derive(Clone, Copy)]
pub enum At {
    LoadClock,
    PublishEra { era: u32 },
    LoadLink { era: u32 },
    CheckClock { era: u32, link: u32 },
}

/// Protects the row to which a link leads, at an index of the seat, as Hazard Eras do: it publishes
/// the clock, loads the link, and is over once the clock is still the era that it published.
#[derive(Drop)]
pub struct HeProtect {
    index: u32,
    root: Root,
    steps: u64,
    at: At,
}

impl HeProtect {
    /// A protection of the link in this word, which is a root or the next link of a row that stands.
    #[inline(always)]
    pub fn new(post: &Post, index: u32, word: u32) -> HeProtect
        requires layout { is_valid post.now.layout ≡ true }
        requires there { RootFits post.now.layout (root_of post.now.layout word) }
        requires number { link_number post.now.layout (root_of post.now.layout word) ≡ word }
        ensures { protect_phase result ≡ Protect Alone index (root_of post.now.layout word) 0 (LoadClock Endless) }
    {
        HeProtect {
            index,
            root: root_at(post.layout, word),
            steps: 0,
            at: At::LoadClock,
        }
    }
}

impl Machine for HeProtect {
    ghost use Rattle.wfe_core.specs.Phases.Ending.{Protected};
    ghost use Rattle.wfe_he.specs.Phases.{protect_phase};

    type End = ProtectEnd;

    ghost phase = { protect_phase };

    ghost ending = { λ e. Protected e };

    #[inline(always)]
    fn next_op(&self, post: &Post) -> Op {
        match self.at {
            At::LoadClock | At::CheckClock { .. } => Op::Load {
                word: post.layout.clock(),
            },
            At::PublishEra { era } => Op::Store {
                word: post.layout.index(post.seat, self.index),
                value: index_word(post, self.index, era),
            },
            At::LoadLink { .. } => Op::Load {
                word: link_word_number(post.layout, self.root),
            },
        }
    }

    #[inline(always)]
    fn take(&mut self, post: &mut Post, found: u64, told: &mut Told) -> Option<ProtectEnd> {
        self.steps = self.steps.saturating_add(1);
        match self.at {
            At::LoadClock => self.at = At::PublishEra { era: found as u32 },
            At::PublishEra { era } => {
                told.push(Event::Reserve {
                    guard: Guard::Index {
                        seat: post.seat,
                        index: self.index,
                    },
                    span: one_era(era),
                });
                self.at = At::LoadLink { era };
            }
            At::LoadLink { era } => {
                self.at = At::CheckClock {
                    era,
                    link: found as u32,
                }
            }
            At::CheckClock { era, link } => {
                if found == era as u64 {
                    hold(post, told, self.index, self.root, link, self.steps);
                    return Some(protect_end(post, link, era));
                }
                self.at = At::PublishEra { era: found as u32 };
            }
        }
        None
    }
}
