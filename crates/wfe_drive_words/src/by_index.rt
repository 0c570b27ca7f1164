// A protection under a scheme that clears an index by a step. It serves each call that protects a link,
// whatever comes after it.
ghost use Rattle.std.specs.Prelude.{◌≡◌, ◌<◌, ◌+◌, ◌^◌, ℕ, Bool, false, refl, true};
ghost use Rattle.wfe_core.specs.words.Schemes.{publishes_rows as shows_rows};
ghost use Rattle.wfe_core.specs.Ready.{IndexFits, RootFits};
ghost use Rattle.wfe_core.specs.Valid.{IsValid};
ghost use Rattle.wfe_core.specs.words.declared.config.SchemeKind.{SchemeKind as Kind};
ghost use Rattle.wfe_drive_words.specs.Called.{Here};
ghost use Rattle.wfe_drive_words.specs.Path.{BoundedFits, Leads, Trial, UsedUnder, asked_at, protects_from};

use crate::Words;
use crate::asking::{Bounded, protect_wfe};
use crate::hazard::protect_hp;
use crate::protect::protect_he;
use wfe_bucketmap_read::{He, Hp, Wfe};
use wfe_core::{Post, Root};

/// A scheme that clears an index by a step, and how it protects at one. Each is named by its type, so that what protects
/// under one of them has no code of the others, and stays small enough to be compiled into its caller.
pub trait ByIndex {
    /// The scheme.
    ghost kind: { Kind };

    ghost ROWS: { Bool };

    /// Whether its index words publish rows, and no eras.
    const ROWS: bool;

    ghost rows: { ROWS ≡ shows_rows kind };

    /// A protection at an index, whose state is before its first step.
    fn protect<W: Words>(words: &mut W, post: &Post, index: u32, root: Root) -> Bounded
        requires valid { W.valid words.old }
        requires own { IsValid post.now }
        requires scheme { post.now.layout.config.scheme ≡ kind }
        requires index { IndexFits post.now index }
        requires root { RootFits post.now.layout root }
        requires here { (t : Trial) × Here (W.at words.old) (protects_from t index root post.now) }
        ensures valid { W.valid words.new }
        ensures later { W.later words.new }
        ensures same { W.same words.old words.new }
        ensures rest { W.rest words.new < W.rest words.old }
        ensures fits { BoundedFits post.now (2 ^ 62 + 4) result }
        ensures used { UsedUnder post.now.layout.config.scheme result }
        ensures leads { (t : Trial) → Here (W.at words.old) (protects_from t index root post.now) → (n : ℕ)
            × Leads (W.at words.old) (W.at words.new) (W.stands words.old) (W.stands words.new) (protects_from t index root post.now) (asked_at t index root post.now n result) };
}

impl ByIndex for He {
    ghost use Rattle.wfe_core.specs.words.declared.config.SchemeKind.TheVariants.{He as HeKind};

    ghost kind = { HeKind };

    ghost ROWS = { false };

    const ROWS: bool = false;

    ghost rows = { refl };

    #[inline(always)]
    fn protect<W: Words>(words: &mut W, post: &Post, index: u32, root: Root) -> Bounded {
        Bounded::Within(protect_he(words, post, index, root))
    }
}

impl ByIndex for Wfe {
    ghost use Rattle.wfe_core.specs.words.declared.config.SchemeKind.TheVariants.{Wfe as WfeKind};

    ghost kind = { WfeKind };

    ghost ROWS = { false };

    const ROWS: bool = false;

    ghost rows = { refl };

    #[inline(always)]
    fn protect<W: Words>(words: &mut W, post: &Post, index: u32, root: Root) -> Bounded {
        protect_wfe(words, post, index, root)
    }
}

impl ByIndex for Hp {
    ghost use Rattle.wfe_core.specs.words.declared.config.SchemeKind.TheVariants.{Hp as HpKind};

    ghost kind = { HpKind };

    ghost ROWS = { true };

    const ROWS: bool = true;

    ghost rows = { refl };

    #[inline(always)]
    fn protect<W: Words>(words: &mut W, post: &Post, index: u32, root: Root) -> Bounded {
        Bounded::Within(protect_hp(words, post, index, root))
    }
}
