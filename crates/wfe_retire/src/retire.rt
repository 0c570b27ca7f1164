// The steps of a retirement. The retire era is loaded after the row was cut, so that a reservation
// under which the row was still linked is not above it.
ghost use Rattle.std.specs.Prelude.{◌≡◌};
ghost use Rattle.wfe_core.specs.Phases.Base.{Retire as Retiring};
ghost use Rattle.wfe_core.specs.Phases.RetireAt.{LoadLife};
ghost use Rattle.wfe_core.specs.Retire.{birth_in};
ghost use Rattle.wfe_core.specs.words.Packed.{read_life as life_in};
ghost use Rattle.wfe_retire.specs.Phases.{retire_phase};

use wfe_core::{Event, Life, Lifetime, Machine, Op, Post, Told, life_word, read_life};

// The step to come.
#[derive(Clone, Copy)]
pub enum At {
    LoadLife,
    LoadRetire { birth: u32 },
    StoreRetired { birth: u32, retire: u32 },
}

/// Retires a row that this seat cut (Ramalhete and Correia 2017), in three steps. It ends with the
/// row's life, in eras, which the caller puts on the seat's list.
#[derive(Drop)]
pub struct Retire {
    slot: u32,
    at: At,
}

impl Retire {
    /// The retirement of the row at this slot, before its first step.
    pub fn new(slot: u32) -> Retire
        ensures { retire_phase result ≡ Retiring (LoadLife slot) }
    {
        Retire {
            slot,
            at: At::LoadLife,
        }
    }
}

/// The birth era in a lifetime word; 0 where no row is taken there.
#[inline(always)]
pub fn birth_of(word: u64) -> u32
    ensures { result ≡ birth_in (life_in word) }
{
    match read_life(word) {
        Some(life) => life.birth,
        None => 0,
    }
}

impl Machine for Retire {
    ghost use Rattle.wfe_core.specs.Phases.Ending.{Retired};
    ghost use Rattle.wfe_retire.specs.Phases.{retire_phase};

    type End = Lifetime;

    ghost phase = { retire_phase };

    ghost ending = { λ life. Retired life };

    fn next_op(&self, post: &Post) -> Op {
        match self.at {
            At::LoadLife => Op::Load {
                word: post.layout.life(self.slot),
            },
            At::LoadRetire { .. } => Op::Load {
                word: post.layout.clock(),
            },
            At::StoreRetired { birth, retire } => Op::Store {
                word: post.layout.life(self.slot),
                value: life_word(Life { birth, retire }),
            },
        }
    }

    fn take(&mut self, post: &mut Post, found: u64, told: &mut Told) -> Option<Lifetime> {
        let slot = self.slot;
        match self.at {
            At::LoadLife => {
                self.at = At::LoadRetire {
                    birth: birth_of(found),
                };
                None
            }
            At::LoadRetire { birth } => {
                self.at = At::StoreRetired {
                    birth,
                    retire: found as u32,
                };
                None
            }
            At::StoreRetired { birth, retire } => {
                post.retired = post.retired.saturating_add(1);
                told.push(Event::Retire {
                    slot,
                    birth,
                    retire,
                });
                Some(Lifetime {
                    slot,
                    birth,
                    retire,
                })
            }
        }
    }
}
