// A protection under Wait-Free Eras up to its request for help: as many tries as the setting says.
ghost use Rattle.std.specs.Prelude.{◌≡◌, ◌<◌, ◌≤◌, ◌*◌, ◌+◌, ◌^◌, ℕ};
ghost use Rattle.wfe_core.specs.Phases.{Failed};
ghost use Rattle.wfe_core.specs.Phases.ProtectAt.{LoadClock};
ghost use Rattle.wfe_core.specs.Ready.{IndexFits, RootFits};
ghost use Rattle.wfe_core.specs.Valid.{IsValid};
ghost use Rattle.wfe_drive_words.specs.Called.{Here};
ghost use Rattle.wfe_drive_words.specs.Path.{BoundedFits, Leads, Trial, asked_after, asked_at, asks_from, bounded_at, protecting, publishing};

use crate::Words;
use crate::path::{any_step, load_clock, publish, step};
use crate::protect::{Guarded, Tried, try_once};
use wfe_core::{Post, Root};

// What the tries came to: the link, or none, after so many steps.
#[derive(Clone, Copy)]
pub enum Bounded {
    Within(Guarded),
    Used { steps: u64 },
}

// Tries until they are used up, and then publishes the era once more.
#[inline(always)]
pub fn try_within<W: Words>(
    words: &mut W,
    post: &Post,
    index: u32,
    root: Root,
    first: u32,
) -> Bounded
    requires valid { W.valid words.old }
    requires later { W.later words.old }
    requires own { IsValid post.now }
    requires index { IndexFits post.now index }
    requires root { RootFits post.now.layout root }
    requires here { (t : Trial) × Here (W.at words.old) (publishing (asked_after t 0) index root first post.now) }
    ensures valid { W.valid words.new }
    ensures later { W.later words.new }
    ensures same { W.same words.old words.new }
    ensures rest { W.rest words.new ≤ W.rest words.old }
    ensures fits { BoundedFits post.now 1000 result }
    ensures leads { (t : Trial) → Here (W.at words.old) (publishing (asked_after t 0) index root first post.now) → (n : ℕ)
        × Leads (W.at words.old) (W.at words.new) (W.stands words.old) (W.stands words.new) (publishing (asked_after t 0) index root first post.now) (bounded_at t index root post.now n result) }
{
    let most = post.layout.config().tries;
    let mut era = first;
    let mut failed = 0;
    while failed < most {
        match try_once(words, post, index, root, era) {
            Tried::Held { link } => {
                return Bounded::Within(Guarded {
                    link,
                    era,
                    steps: 3 * failed as u64 + 3,
                });
            }
            Tried::Moved { era: seen } => era = seen,
        }
        failed += 1;
    }
    step(words, publish(post, index, era));
    Bounded::Used {
        steps: 3 * failed as u64 + 1,
    }
}

// A protection under Wait-Free Eras, whose state is before its first step.
#[inline(always)]
pub fn protect_wfe<W: Words>(words: &mut W, post: &Post, index: u32, root: Root) -> Bounded
    requires valid { W.valid words.old }
    requires own { IsValid post.now }
    requires index { IndexFits post.now index }
    requires root { RootFits post.now.layout root }
    requires here { (t : Trial) × Here (W.at words.old) (protecting (asks_from t) index root (LoadClock (Failed 0)) post.now) }
    ensures valid { W.valid words.new }
    ensures later { W.later words.new }
    ensures same { W.same words.old words.new }
    ensures rest { W.rest words.new < W.rest words.old }
    ensures fits { BoundedFits post.now 1001 result }
    ensures leads { (t : Trial) → Here (W.at words.old) (protecting (asks_from t) index root (LoadClock (Failed 0)) post.now) → (n : ℕ)
        × Leads (W.at words.old) (W.at words.new) (W.stands words.old) (W.stands words.new) (protecting (asks_from t) index root (LoadClock (Failed 0)) post.now) (asked_at t index root post.now n result) }
{
    let era = any_step(words, load_clock(post)) as u32;
    match try_within(words, post, index, root, era) {
        Bounded::Within(guarded) => Bounded::Within(Guarded {
            link: guarded.link,
            era: guarded.era,
            steps: guarded.steps + 1,
        }),
        Bounded::Used { steps } => Bounded::Used { steps: steps + 1 },
    }
}
