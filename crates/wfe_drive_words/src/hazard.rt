// A protection by a hazard pointer: a link is loaded, published and loaded again, and it is over where that is
// still the link, or null. It serves each call that protects a link, whatever comes after it.
ghost use Rattle.std.specs.Prelude.{◌≡◌, ◌==◌, ◌||◌, ◌<◌, ◌≤◌, ◌+◌, ◌^◌, ℕ};
ghost use Rattle.wfe_core.specs.Phases.HazardAt.{FirstLink};
ghost use Rattle.wfe_core.specs.Phases.ProtectAt.{ByHazard};
ghost use Rattle.wfe_core.specs.Ready.{IndexFits, LinkFits, RootFits};
ghost use Rattle.wfe_core.specs.Valid.{IsValid};
ghost use Rattle.wfe_drive_words.specs.Called.{Here};
ghost use Rattle.wfe_drive_words.specs.Path.{Leads, Trial, checked_at, guarded_at, hazarding, protecting};

use crate::Words;
use crate::path::{any_step, load_link, publish_as, step};
use crate::protect::Guarded;
use wfe_core::{Post, Root};

// The link that was loaded again is the one that was published, or null.
#[inline(always)]
fn is_over(link: u32, found: u32) -> bool
    ensures { result ≡ (found == link || found == 0) }
{
    found == link || found == 0
}

// One check, which begins where the link is to be published. It answers the link that was loaded again.
#[inline(always)]
pub fn check_once<W: Words>(words: &mut W, post: &Post, index: u32, root: Root, link: u32) -> u32
    requires valid { W.valid words.old }
    requires later { W.later words.old }
    requires own { IsValid post.now }
    requires index { IndexFits post.now index }
    requires root { RootFits post.now.layout root }
    requires here { (t : Trial) × Here (W.at words.old) (hazarding t index root link post.now) }
    ensures valid { W.valid words.new }
    ensures later { W.later words.new }
    ensures same { W.same words.old words.new }
    ensures rest { W.rest words.new < W.rest words.old }
    ensures fits { LinkFits post.now result }
    ensures few { (t : Trial) → Here (W.at words.old) (hazarding t index root link post.now) → t.steps < 2 ^ 62 }
    ensures leads { (t : Trial) → Here (W.at words.old) (hazarding t index root link post.now)
        → Leads (W.at words.old) (W.at words.new) (W.stands words.old) (W.stands words.new) (hazarding t index root link post.now) (checked_at t index root link result post.now) }
{
    step(words, publish_as(true, post, index, link));
    step(words, load_link(post, root)) as u32
}

// Checks without end.
#[inline(always)]
pub fn check_on<W: Words>(words: &mut W, post: &Post, index: u32, root: Root, first: u32) -> Guarded
    requires valid { W.valid words.old }
    requires later { W.later words.old }
    requires own { IsValid post.now }
    requires index { IndexFits post.now index }
    requires root { RootFits post.now.layout root }
    requires here { (t : Trial) × Here (W.at words.old) (hazarding t index root first post.now) }
    ensures valid { W.valid words.new }
    ensures later { W.later words.new }
    ensures same { W.same words.old words.new }
    ensures rest { W.rest words.new ≤ W.rest words.old }
    ensures fits { LinkFits post.now result.link }
    ensures few { result.steps < 2 ^ 62 + 3 }
    ensures leads { (t : Trial) → Here (W.at words.old) (hazarding t index root first post.now) → (n : ℕ)
        × Leads (W.at words.old) (W.at words.new) (W.stands words.old) (W.stands words.new) (hazarding t index root first post.now) (guarded_at t index root post.now n result) }
{
    let mut link = first;
    let mut steps = 0;
    loop {
        let found = check_once(words, post, index, root, link);
        steps += 2;
        if is_over(link, found) {
            return Guarded {
                link: found,
                era: 0,
                steps,
            };
        }
        link = found;
    }
}

// A protection under hazard pointers, whose state is before its first step. It publishes no era.
#[inline(always)]
pub fn protect_hp<W: Words>(words: &mut W, post: &Post, index: u32, root: Root) -> Guarded
    requires valid { W.valid words.old }
    requires own { IsValid post.now }
    requires index { IndexFits post.now index }
    requires root { RootFits post.now.layout root }
    requires here { (t : Trial) × Here (W.at words.old) (protecting t index root (ByHazard FirstLink) post.now) }
    ensures valid { W.valid words.new }
    ensures later { W.later words.new }
    ensures same { W.same words.old words.new }
    ensures rest { W.rest words.new < W.rest words.old }
    ensures fits { LinkFits post.now result.link }
    ensures few { result.steps < 2 ^ 62 + 4 }
    ensures leads { (t : Trial) → Here (W.at words.old) (protecting t index root (ByHazard FirstLink) post.now) → (n : ℕ)
        × Leads (W.at words.old) (W.at words.new) (W.stands words.old) (W.stands words.new) (protecting t index root (ByHazard FirstLink) post.now) (guarded_at t index root post.now n result) }
{
    let link = any_step(words, load_link(post, root)) as u32;
    if link == 0 {
        return Guarded {
            link,
            era: 0,
            steps: 1,
        };
    }
    let checked = check_on(words, post, index, root, link);
    Guarded {
        link: checked.link,
        era: checked.era,
        steps: checked.steps + 1,
    }
}
