// A protection under 2GE: the link and the clock are loaded, and it is over where the clock is the
// upper end of the seat's interval, which is raised till then.
ghost use Rattle.std.specs.Prelude.{◌≡◌, ◌<◌, ◌≤◌, ◌+◌, ◌^◌, ℕ};
ghost use Rattle.wfe_core.specs.words.Place.Place.{Interval};
ghost use Rattle.wfe_core.specs.Memory.{Store as Stores};
ghost use Rattle.wfe_core.specs.Phases.ProtectAt.{LoadWithin};
ghost use Rattle.wfe_core.specs.Ready.{LinkFits, RootFits};
ghost use Rattle.wfe_core.specs.Spans.{eras_word};
ghost use Rattle.wfe_core.specs.Valid.{IsValid};
ghost use Rattle.wfe_drive_cells.specs.Spots.{spotted};
ghost use Rattle.wfe_drive_words.specs.Called.{Here};
ghost use Rattle.wfe_drive_words.specs.Path.{Leads, LookedFits, Trial, looked_at, protecting, spanned, within_at};

use crate::Words;
use crate::path::{any_step, load_clock, load_link, step};
use crate::protect::Guarded;
use wfe_core::{Op, Post, Root, Span, span_word};
use wfe_drive_cells::Located;

// What a look came to: the link, or the new upper end.
#[derive(Clone, Copy)]
pub enum Looked {
    Stands { link: u32 },
    Raised { era: u32 },
}

// A store of an interval into the seat's word.
#[inline(always)]
pub fn store_span(post: &Post, lo: u32, hi: u32) -> Located
    requires { IsValid post.now }
    ensures { result ≡ spotted post.now.layout (Stores (Interval post.now.seat) (eras_word lo hi)) }
{
    let word = post.layout.interval(post.seat);
    let value = span_word(Some(Span { lo, hi }));
    Located::alone(&post.layout, Op::Store { word, value })
}

// One look, under an interval from one era to another.
#[inline(always)]
pub fn look<W: Words>(words: &mut W, post: &Post, root: Root, lo: u32, hi: u32) -> Looked
    requires valid { W.valid words.old }
    requires own { IsValid post.now }
    requires root { RootFits post.now.layout root }
    requires here { (t : Trial) × (index : ℕ) × Here (W.at words.old) (protecting t index root LoadWithin (spanned post.now lo hi)) }
    ensures valid { W.valid words.new }
    ensures later { W.later words.new }
    ensures same { W.same words.old words.new }
    ensures rest { W.rest words.new < W.rest words.old }
    ensures fits { LookedFits post.now lo result }
    ensures few { (t : Trial) (index : ℕ) → Here (W.at words.old) (protecting t index root LoadWithin (spanned post.now lo hi)) → t.steps < 2 ^ 62 }
    ensures leads { (t : Trial) (index : ℕ) → Here (W.at words.old) (protecting t index root LoadWithin (spanned post.now lo hi))
        → Leads (W.at words.old) (W.at words.new) (W.stands words.old) (W.stands words.new) (protecting t index root LoadWithin (spanned post.now lo hi)) (looked_at t index root lo hi post.now result) }
{
    let link = any_step(words, load_link(post, root)) as u32;
    let era = step(words, load_clock(post)) as u32;
    if era == hi {
        return Looked::Stands { link };
    }
    step(words, store_span(post, lo, era));
    Looked::Raised { era }
}

// A protection under an interval from one era to another, of which the upper end is raised.
#[inline(always)]
pub fn protect_within<W: Words>(words: &mut W, post: &Post, root: Root, lo: u32, hi: u32) -> Guarded
    requires valid { W.valid words.old }
    requires own { IsValid post.now }
    requires root { RootFits post.now.layout root }
    requires here { (t : Trial) × (index : ℕ) × Here (W.at words.old) (protecting t index root LoadWithin (spanned post.now lo hi)) }
    ensures valid { W.valid words.new }
    ensures later { W.later words.new }
    ensures same { W.same words.old words.new }
    ensures rest { W.rest words.new < W.rest words.old }
    ensures fits { LinkFits post.now result.link }
    ensures raised { IsValid (spanned post.now lo result.era) }
    ensures few { result.steps < 2 ^ 62 + 3 }
    ensures leads { (t : Trial) (index : ℕ) → Here (W.at words.old) (protecting t index root LoadWithin (spanned post.now lo hi)) → (n : ℕ)
        × Leads (W.at words.old) (W.at words.new) (W.stands words.old) (W.stands words.new) (protecting t index root LoadWithin (spanned post.now lo hi)) (within_at t index root lo post.now n result) }
{
    let mut era = hi;
    let mut steps = 0;
    loop {
        match look(words, post, root, lo, era) {
            Looked::Stands { link } => {
                return Guarded {
                    link,
                    era,
                    steps: steps + 2,
                };
            }
            Looked::Raised { era: seen } => era = seen,
        }
        steps += 3;
    }
}
