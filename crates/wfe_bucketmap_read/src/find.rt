// What a get or a look reads of a row: the version, the count, the keys in order up to its own, and
// that key's value.
ghost use Rattle.std.specs.Prelude.{◌≡◌, ◌≤◌, true};
ghost use Rattle.wfe_core.specs.words.Place.{is_valid};
ghost use Rattle.wfe_core.specs.CallReady.{get_plausible, get_ready};
ghost use Rattle.wfe_core.specs.Get.{get_move};
ghost use Rattle.wfe_core.specs.Memory.{numbered};
ghost use Rattle.wfe_core.specs.Valid.{IsValid};
ghost use Rattle.wfe_bucketmap_read.specs.Finds.{find_of, found_by, found_of, pair_by, slot_in};

use wfe_core::{Op, Post};

// The step to come.
#[derive(Clone, Copy)]
pub enum Find {
    Version {
        slot: u32,
    },
    Count {
        slot: u32,
        version: u64,
    },
    Key {
        slot: u32,
        version: u64,
        count: u32,
        pair: u32,
    },
    Value {
        slot: u32,
        version: u64,
        pair: u32,
    },
}

// What a step leads to: the next one, or the key's value at a version.
#[derive(Clone, Copy)]
pub enum Found {
    Goes(Find),
    Got { version: u64, value: Option<u64> },
}

impl Find {
    // The row that is read.
    #[inline(always)]
    pub fn slot(self) -> u32
        ensures { result ≡ slot_in (find_of self) }
    {
        match self {
            Find::Version { slot } => slot,
            Find::Count { slot, .. } => slot,
            Find::Key { slot, .. } => slot,
            Find::Value { slot, .. } => slot,
        }
    }

    // The operation of the step.
    #[inline(always)]
    pub fn next_op(&self, post: &Post) -> Op
        requires valid { IsValid post.now }
        requires ready { get_ready (find_of self.now) post.now }
        ensures { result ≡ numbered post.now.layout (get_move (find_of self.now)) }
    {
        let (slot, place) = match *self {
            Find::Version { slot } => (slot, 1),
            Find::Count { slot, .. } => (slot, 2),
            Find::Key { slot, pair, .. } => (slot, 3 + 2 * pair),
            Find::Value { slot, pair, .. } => (slot, 4 + 2 * pair),
        };
        Op::Load {
            word: post.layout.row(slot, place),
        }
    }

    // What the word that was found leads to.
    #[inline(always)]
    pub fn take(self, post: &Post, key: u64, found: u64) -> Found
        requires valid { IsValid post.now }
        requires ready { get_ready (find_of self) post.now }
        requires plausible { get_plausible (find_of self) post.now found }
        ensures { found_of result ≡ found_by key (find_of self) found }
    {
        match self {
            Find::Version { slot } => Found::Goes(Find::Count {
                slot,
                version: found,
            }),
            Find::Count { slot, version } => key_at(slot, version, found as u32, 0),
            Find::Key {
                slot,
                version,
                count,
                pair,
            } => {
                if found == key {
                    return Found::Goes(Find::Value {
                        slot,
                        version,
                        pair,
                    });
                }
                key_at(slot, version, count, pair + 1)
            }
            Find::Value { version, .. } => Found::Got {
                version,
                value: Some(found),
            },
        }
    }
}

// The key of a pair, if there is one.
#[inline(always)]
fn key_at(slot: u32, version: u64, count: u32, pair: u32) -> Found
    ensures { found_of result ≡ pair_by slot version count pair }
{
    if pair < count {
        return Found::Goes(Find::Key {
            slot,
            version,
            count,
            pair,
        });
    }
    Found::Got {
        version,
        value: None,
    }
}
