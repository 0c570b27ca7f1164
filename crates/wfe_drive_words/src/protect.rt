// A protection by tries: an era is published, the link and the clock are loaded, and it is over where
// the clock is still that era. It serves each call that protects a link, whatever comes after it.
ghost use Rattle.std.specs.Prelude.{◌≡◌, ◌<◌, ◌≤◌, ◌+◌, ◌^◌, ℕ};
ghost use Rattle.wfe_core.specs.Phases.{Endless};
ghost use Rattle.wfe_core.specs.Phases.ProtectAt.{LoadClock};
ghost use Rattle.wfe_core.specs.Ready.{IndexFits, LinkFits, RootFits};
ghost use Rattle.wfe_core.specs.Valid.{IsValid};
ghost use Rattle.wfe_drive_words.specs.Called.{Here};
ghost use Rattle.wfe_drive_words.specs.Path.{Leads, Publishes, Trial, TriedFits, endless, guarded_at, protecting, publishing, tried_at};

use crate::Words;
use crate::path::{any_step, load_clock, load_link, publish, step};
use wfe_core::{Post, Root};

// What a try came to: the link, or the era that the clock was at.
#[derive(Clone, Copy)]
pub enum Tried {
    Held { link: u32 },
    Moved { era: u32 },
}

// What tries came to: the link, the era at which it was found, and the steps that they took.
#[derive(Clone, Copy)]
pub struct Guarded {
    pub link: u32,
    pub era: u32,
    pub steps: u64,
}

// One try, which begins where the era is to be published.
#[inline(always)]
pub fn try_once<W: Words>(words: &mut W, post: &Post, index: u32, root: Root, era: u32) -> Tried
    requires valid { W.valid words.old }
    requires later { W.later words.old }
    requires own { IsValid post.now }
    requires index { IndexFits post.now index }
    requires root { RootFits post.now.layout root }
    requires here { (t : Trial) × Publishes (W.at words.old) t index root era post.now }
    ensures valid { W.valid words.new }
    ensures later { W.later words.new }
    ensures same { W.same words.old words.new }
    ensures rest { W.rest words.new < W.rest words.old }
    ensures fits { TriedFits post.now result }
    ensures few { (t : Trial) → Publishes (W.at words.old) t index root era post.now → t.steps < 2 ^ 62 }
    ensures leads { (t : Trial) → Publishes (W.at words.old) t index root era post.now
        → Leads (W.at words.old) (W.at words.new) (W.stands words.old) (W.stands words.new) (publishing t index root era post.now) (tried_at t index root era post.now result) }
{
    step(words, publish(post, index, era));
    let link = step(words, load_link(post, root)) as u32;
    let seen = step(words, load_clock(post));
    if seen == era as u64 {
        return Tried::Held { link };
    }
    Tried::Moved { era: seen as u32 }
}

// Tries without end.
#[inline(always)]
pub fn try_on<W: Words>(words: &mut W, post: &Post, index: u32, root: Root, first: u32) -> Guarded
    requires valid { W.valid words.old }
    requires later { W.later words.old }
    requires own { IsValid post.now }
    requires index { IndexFits post.now index }
    requires root { RootFits post.now.layout root }
    requires here { (t : Trial) × Publishes (W.at words.old) (endless t) index root first post.now }
    ensures valid { W.valid words.new }
    ensures later { W.later words.new }
    ensures same { W.same words.old words.new }
    ensures rest { W.rest words.new ≤ W.rest words.old }
    ensures fits { LinkFits post.now result.link }
    ensures few { result.steps < 2 ^ 62 + 3 }
    ensures leads { (t : Trial) → Publishes (W.at words.old) (endless t) index root first post.now → (n : ℕ)
        × Leads (W.at words.old) (W.at words.new) (W.stands words.old) (W.stands words.new) (publishing (endless t) index root first post.now) (guarded_at t index root post.now n result) }
{
    let mut era = first;
    let mut steps = 0;
    loop {
        match try_once(words, post, index, root, era) {
            Tried::Held { link } => {
                return Guarded {
                    link,
                    era,
                    steps: steps + 3,
                };
            }
            Tried::Moved { era: seen } => era = seen,
        }
        steps += 3;
    }
}

// A protection under Hazard Eras, whose state is before its first step.
#[inline(always)]
pub fn protect_he<W: Words>(words: &mut W, post: &Post, index: u32, root: Root) -> Guarded
    requires valid { W.valid words.old }
    requires own { IsValid post.now }
    requires index { IndexFits post.now index }
    requires root { RootFits post.now.layout root }
    requires here { (t : Trial) × Here (W.at words.old) (protecting t index root (LoadClock Endless) post.now) }
    ensures valid { W.valid words.new }
    ensures later { W.later words.new }
    ensures same { W.same words.old words.new }
    ensures rest { W.rest words.new < W.rest words.old }
    ensures fits { LinkFits post.now result.link }
    ensures few { result.steps < 2 ^ 62 + 4 }
    ensures leads { (t : Trial) → Here (W.at words.old) (protecting t index root (LoadClock Endless) post.now) → (n : ℕ)
        × Leads (W.at words.old) (W.at words.new) (W.stands words.old) (W.stands words.new) (protecting t index root (LoadClock Endless) post.now) (guarded_at t index root post.now n result) }
{
    let era = any_step(words, load_clock(post)) as u32;
    let tried = try_on(words, post, index, root, era);
    Guarded {
        link: tried.link,
        era: tried.era,
        steps: tried.steps + 1,
    }
}
