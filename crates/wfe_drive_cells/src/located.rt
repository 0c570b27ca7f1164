// Operations with the spots of their words. Who makes an operation knows of which kind its word is, so
// that no step asks for it.
ghost use Rattle.std.specs.Prelude.{◌≡◌, ◌≤◌, ◌<◌, IsTrue};
ghost use Rattle.wfe_core.specs.words.Place.{first_bucket, first_claim, head_number, is_valid};
ghost use Rattle.wfe_drive_cells.specs.Operations.{word_in};
ghost use Rattle.wfe_drive_cells.specs.Spots.{located};

use crate::spots::{spot_at, word_of};
use wfe_core::{Layout, Op};

/// An operation, with the spot of its word.
#[derive(Clone, Copy)]
pub struct Located {
    pub op: Op,
    pub spot: usize,
}

impl Located {
    /// On the clock or on a word of a seat, but no place word.
    #[inline(always)]
    pub fn alone(_layout: &Layout, op: Op) -> Located
        requires { word_in op < first_bucket _layout.now }
        ensures { result ≡ located _layout.now op }
    {
        let spot = 8 * word_of(&op) as usize;
        Located { op, spot }
    }

    /// On a bucket's root.
    #[inline(always)]
    pub fn root(layout: &Layout, op: Op) -> Located
        requires valid { IsTrue (is_valid layout.now) }
        requires from { first_bucket layout.now ≤ word_in op }
        requires below { word_in op < head_number layout.now }
        ensures { result ≡ located layout.now op }
    {
        let spot = word_of(&op) as usize + 7 * layout.bucket(0) as usize;
        Located { op, spot }
    }

    /// On the queue's head or tail.
    #[inline(always)]
    pub fn end(layout: &Layout, op: Op) -> Located
        requires valid { IsTrue (is_valid layout.now) }
        requires from { head_number layout.now ≤ word_in op }
        requires below { word_in op < first_claim layout.now }
        ensures { result ≡ located layout.now op }
    {
        let word = word_of(&op) as usize;
        let spot = word + 7 * (layout.bucket(0) as usize + 1 + (word - layout.head() as usize));
        Located { op, spot }
    }

    /// On a claim word, a lifetime word, a row's or a place word.
    #[inline(always)]
    pub fn dense(layout: &Layout, op: Op) -> Located
        requires valid { IsTrue (is_valid layout.now) }
        requires from { first_claim layout.now ≤ word_in op }
        ensures { result ≡ located layout.now op }
    {
        let spot = word_of(&op) as usize + 7 * (layout.bucket(0) as usize + 3);
        Located { op, spot }
    }

    /// On any word.
    pub fn of(layout: &Layout, op: Op) -> Located
        requires { IsTrue (is_valid layout.now) }
        ensures { result ≡ located layout.now op }
    {
        let spot = spot_at(layout, word_of(&op));
        Located { op, spot }
    }
}
