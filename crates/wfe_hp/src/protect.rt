// The steps of a protection by hazard pointers.
ghost use Rattle.std.specs.Prelude.{◌≡◌, true};
ghost use Rattle.wfe_core.specs.words.Place.{is_valid};
ghost use Rattle.wfe_core.specs.Links.{link_number, root_at as root_of};
ghost use Rattle.wfe_core.specs.Phases.{Alone};
ghost use Rattle.wfe_core.specs.Phases.Base.{Protect};
ghost use Rattle.wfe_core.specs.Phases.HazardAt.{FirstLink};
ghost use Rattle.wfe_core.specs.Phases.ProtectAt.{ByHazard};
ghost use Rattle.wfe_core.specs.Ready.{RootFits};
ghost use Rattle.wfe_hp.specs.Phases.{protect_phase};

use wfe_core::{
    Event, Guard, Machine, Op, Post, ProtectEnd, Root, Told, hold, link_word_number, linked_row,
    protect_end, root_at,
};

// The step to come.
#[derive(Clone, Copy)]
pub enum At {
    FirstLink,
    PublishLink { link: u32 },
    CheckLink { link: u32 },
}

/// Protects the row to which a link leads, at an index of the seat, by a hazard pointer: it loads the
/// link, publishes it, and is over once the word still has it. A null link needs no protection.
#[derive(Drop)]
pub struct HpProtect {
    index: u32,
    root: Root,
    steps: u64,
    at: At,
}

impl HpProtect {
    /// A protection of the link in this word, which is a root or the next link of a row that stands.
    #[inline(always)]
    pub fn new(post: &Post, index: u32, word: u32) -> HpProtect
        requires layout { is_valid post.now.layout ≡ true }
        requires there { RootFits post.now.layout (root_of post.now.layout word) }
        requires number { link_number post.now.layout (root_of post.now.layout word) ≡ word }
        ensures { protect_phase result ≡ Protect Alone index (root_of post.now.layout word) 0 (ByHazard FirstLink) }
    {
        HpProtect {
            index,
            root: root_at(post.layout, word),
            steps: 0,
            at: At::FirstLink,
        }
    }
}

impl Machine for HpProtect {
    ghost use Rattle.wfe_core.specs.Phases.Ending.{Protected};
    ghost use Rattle.wfe_hp.specs.Phases.{protect_phase};

    type End = ProtectEnd;

    ghost phase = { protect_phase };

    ghost ending = { λ e. Protected e };

    #[inline(always)]
    fn next_op(&self, post: &Post) -> Op {
        match self.at {
            At::FirstLink | At::CheckLink { .. } => Op::Load {
                word: link_word_number(post.layout, self.root),
            },
            At::PublishLink { link } => Op::Store {
                word: post.layout.index(post.seat, self.index),
                value: link as u64,
            },
        }
    }

    #[inline(always)]
    fn take(&mut self, post: &mut Post, found: u64, told: &mut Told) -> Option<ProtectEnd> {
        self.steps = self.steps.saturating_add(1);
        let (link, over) = match self.at {
            At::FirstLink => (found as u32, found == 0),
            At::PublishLink { link } => {
                told.push(Event::Hazard {
                    guard: Guard::Index {
                        seat: post.seat,
                        index: self.index,
                    },
                    slot: linked_row(link),
                });
                self.at = At::CheckLink { link };
                return None;
            }
            At::CheckLink { link } => (found as u32, found == link as u64 || found == 0),
        };
        if !over {
            self.at = At::PublishLink { link };
            return None;
        }
        hold(post, told, self.index, self.root, link, self.steps);
        Some(protect_end(post, link, 0))
    }
}
