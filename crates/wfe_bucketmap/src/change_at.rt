// The work of a change on the bucket's row, between the protections of a round.
ghost use Rattle.std.specs.Prelude.{◌≡◌, ◌<◌, ◌≤◌, ◌+◌, [], length, nat_lt, List, true};
ghost use Rattle.wfe_core.specs.defs.Pairs.{changed};
ghost use Rattle.wfe_core.specs.defs.declared.event.Event.{Event as ModelEvent};
ghost use Rattle.wfe_core.specs.CallReady.{ChangeFits, change_plausible, change_ready};
ghost use Rattle.wfe_core.specs.Change.{at_link, change_move, change_turn, changed_bucket as model_bucket, deciding, exchanged, reading, refused as model_refused, told_change, with_change};
ghost use Rattle.wfe_core.specs.Desks.{Desk};
ghost use Rattle.wfe_core.specs.Memory.{numbered};
ghost use Rattle.wfe_core.specs.Valid.{IsValid};
ghost use Rattle.wfe_bucketmap.specs.Changes.{at_of, kept_of, led};

use wfe_call_rounds::{Over, RoundEnd};
use wfe_core::{Answer, Change, ClockMove, Event, Op, Post, Root, Told};
use wfe_slots::{Pairs, changed_bucket, make_change, refused};

// What a change keeps: the version at which alone it is made, if it names one, the row that it has
// taken and not linked, whether a walk for one has failed, and, from the root loaded last, the link,
// the version and the pairs.
#[derive(Drop)]
pub struct Kept {
    pub change: Change,
    pub wanted: Option<u64>,
    pub taken: Option<u32>,
    pub walked: bool,
    pub link: u64,
    pub version: u64,
    pub pairs: Pairs,
}

// The step to come. The slot of the exchange is the new row's, and the others the bucket's.
#[derive(Clone, Copy)]
pub enum ChangeAt {
    LoadVersion { slot: u32 },
    LoadCount { slot: u32 },
    LoadKey { slot: u32, count: u32 },
    LoadValue { slot: u32, count: u32, key: u64 },
    ExchangeRoot { slot: u32 },
}

// What a step leads to: the work's next one; a row to be filled; the round's end, where index 0 is to be
// cleared; or what comes where the round or the call is over.
pub enum Changed {
    Goes(ChangeAt),
    Fills,
    Ends(RoundEnd),
    Passes(Over),
}

impl ChangeAt {
    // The operation of the step.
    #[inline(always)]
    pub fn next_op(&self, kept: &Kept, post: &Post) -> Op
        requires valid { IsValid post.now }
        requires fits { ChangeFits post.now (kept_of kept.now) }
        requires ready { change_ready (kept_of kept.now) (at_of self.now) post.now }
        ensures { result ≡ numbered post.now.layout (change_move (kept_of kept.now) (at_of self.now) post.now) }
    {
        match *self {
            ChangeAt::LoadVersion { slot } => Op::Load {
                word: post.layout.row(slot, 1),
            },
            ChangeAt::LoadCount { slot } => Op::Load {
                word: post.layout.row(slot, 2),
            },
            ChangeAt::LoadKey { slot, .. } => Op::Load {
                word: post.layout.row(slot, 3 + 2 * kept.pairs.len() as u32),
            },
            ChangeAt::LoadValue { slot, .. } => Op::Load {
                word: post.layout.row(slot, 4 + 2 * kept.pairs.len() as u32),
            },
            ChangeAt::ExchangeRoot { slot } => Op::Cas {
                word: post.layout.bucket(kept.bucket(post)),
                old: kept.link,
                new: slot as u64 + 1,
            },
        }
    }

    // What the word that was found leads to. An exchange is told.
    #[inline(always)]
    pub fn take(self, kept: &mut Kept, post: &Post, found: u64, told: &mut Told) -> Changed
        requires valid { IsValid post.now }
        requires fits { ChangeFits post.now (kept_of kept.old) }
        requires ready { change_ready (kept_of kept.old) (at_of self) post.now }
        requires plausible { change_plausible (at_of self) post.now found }
        requires empty { told.old ≡ [] }
        ensures turn { (desk : Desk) → change_turn (kept_of kept.old) (at_of self) post.now desk found ≡ led (kept_of kept.new) result post.now desk told.new }
        ensures fits { ChangeFits post.now (kept_of kept.new) }
        ensures few { length told.new ≤ 3 }
    {
        match self {
            ChangeAt::LoadVersion { slot } => {
                kept.version = found;
                Changed::Goes(ChangeAt::LoadCount { slot })
            }
            ChangeAt::LoadCount { slot } => kept.read(slot, found as u32, post),
            ChangeAt::LoadKey { slot, count } => Changed::Goes(ChangeAt::LoadValue {
                slot,
                count,
                key: found,
            }),
            ChangeAt::LoadValue { slot, count, key } => {
                kept.pairs.push(key, found);
                kept.read(slot, count, post)
            }
            ChangeAt::ExchangeRoot { slot } => {
                if found != kept.link {
                    return Changed::Ends(RoundEnd::Again);
                }
                kept.linked(slot, post, told)
            }
        }
    }
}

impl Kept {
    // The root was protected with this link: what was read of another row is forgotten.
    #[inline(always)]
    pub fn protected(&mut self, link: u64)
        ensures { kept_of self.new ≡ at_link (kept_of self.old) link }
    {
        self.link = link;
        self.version = 0;
        self.pairs.clear();
    }

    // The bucket that is changed.
    #[inline(always)]
    pub fn bucket(&self, post: &Post) -> u32
        requires { IsValid post.now }
        ensures bucket { result ≡ model_bucket (kept_of self.now) post.now }
        ensures there { result < post.now.layout.config.buckets }
    {
        changed_bucket(self.change, post)
    }

    // The next pair is read, if there is one.
    #[inline(always)]
    fn read(&mut self, slot: u32, count: u32, post: &Post) -> Changed
        requires valid { IsValid post.now }
        requires fits { ChangeFits post.now (kept_of self.old) }
        ensures turn { (desk : Desk) → reading (kept_of self.old) slot count post.now desk (nat_lt (length (kept_of self.old).pairs) count) ≡ led (kept_of self.new) result post.now desk [] }
        ensures fits { ChangeFits post.now (kept_of self.new) }
    {
        if (self.pairs.len() as u32) < count {
            return Changed::Goes(ChangeAt::LoadKey { slot, count });
        }
        self.decide(post)
    }

    // The row is read: the change is refused, or made in the pairs of a new row.
    #[inline(always)]
    pub fn decide(&mut self, post: &Post) -> Changed
        requires valid { IsValid post.now }
        requires fits { ChangeFits post.now (kept_of self.old) }
        ensures turn { (desk : Desk) (told : List ModelEvent) → deciding (kept_of self.old) post.now desk told ≡ led (kept_of self.new) result post.now desk told }
        ensures fits { ChangeFits post.now (kept_of self.new) }
    {
        match self.refused(post) {
            Some(answer) => Changed::Ends(RoundEnd::Answers(answer)),
            None => {
                self.change();
                Changed::Fills
            }
        }
    }

    // Why the change is refused, if it is.
    #[inline(always)]
    fn refused(&self, post: &Post) -> Option<Answer>
        ensures { result ≡ model_refused post.now.layout.config (kept_of self.now) }
    {
        refused(self.change, self.wanted, self.version, &self.pairs, post)
    }

    // The change is made in the pairs.
    #[inline(always)]
    fn change(&mut self)
        requires { length (changed (kept_of self.old).pairs (kept_of self.old).change) ≤ 14 }
        ensures { kept_of self.new ≡ with_change (kept_of self.old) }
    {
        make_change(self.change, &mut self.pairs);
    }

    // The root leads to the new row: that is told, and the row that it led to before is cut.
    #[inline(always)]
    fn linked(&mut self, slot: u32, post: &Post, told: &mut Told) -> Changed
        requires valid { IsValid post.now }
        requires fits { ChangeFits post.now (kept_of self.old) }
        requires left { (kept_of self.old).version < post.now.layout.config.last_version }
        requires empty { told.old ≡ [] }
        ensures turn { (desk : Desk) → exchanged (kept_of self.old) slot post.now desk true ≡ led (kept_of self.new) result post.now desk told.new }
        ensures fits { ChangeFits post.now (kept_of self.new) }
        ensures few { length told.new ≤ 3 }
    {
        let bucket = self.bucket(post);
        let version = self.version + 1;
        self.taken = None;
        told.push(Event::Link {
            root: Root::Bucket(bucket),
            slot,
        });
        let answer = Answer::Done {
            version,
            clock: ClockMove::Still,
        };
        if self.link == 0 {
            told.push(change_event(&self.change, bucket, version));
            return Changed::Ends(RoundEnd::Answers(answer));
        }
        let cut = (self.link - 1) as u32;
        told.push(Event::Cut { slot: cut });
        told.push(change_event(&self.change, bucket, version));
        Changed::Ends(RoundEnd::Retires { slot: cut, answer })
    }
}

// The event of a change at a version.
#[inline(always)]
fn change_event(change: &Change, bucket: u32, version: u64) -> Event
    ensures { result ≡ told_change bucket version change.now }
{
    match *change {
        Change::Put { key, value } => Event::Put {
            bucket,
            version,
            key,
            value,
        },
        Change::Removed { key } => Event::Removed {
            bucket,
            version,
            key,
        },
    }
}
