// Where the words of a layout lie in the block of the table that threads share.
ghost use Rattle.std.specs.Prelude.{◌≡◌, ◌≤◌, IsTrue};
ghost use Rattle.wfe_core.specs.words.Place.{is_valid};
ghost use Rattle.wfe_drive_cells.specs.Operations.{word_in};
ghost use Rattle.wfe_drive_cells.specs.Spots.{IsFor, spot, spot_by};

use wfe_core::{Layout, Op};

/// What the spots of a layout's words hang on: the numbers of the first root and of the queue's head.
#[derive(Clone, Copy)]
pub struct Spots {
    pub roots: u32,
    pub head: u32,
}

impl Spots {
    #[inline(always)]
    pub fn new(layout: &Layout) -> Spots
        requires { IsTrue (is_valid layout.now) }
        ensures { IsFor layout.now result }
    {
        Spots {
            roots: layout.bucket(0),
            head: layout.head(),
        }
    }

    /// The spot of a word in the table's block.
    #[inline(always)]
    pub fn at(&self, word: u32) -> usize
        requires { self.now.roots ≤ self.now.head }
        ensures { result ≡ spot_by self.now.roots self.now.head word }
    {
        let word = word as usize;
        let roots = self.roots as usize;
        let head = self.head as usize;
        if word < roots {
            return 8 * word;
        }
        if word < head {
            return word + 7 * roots;
        }
        word + 7 * (roots + (word + 1 - head).min(3))
    }
}

/// The spot of a word of a layout, where it is asked for once.
pub fn spot_at(layout: &Layout, word: u32) -> usize
    requires { IsTrue (is_valid layout.now) }
    ensures { result ≡ spot layout.now word }
{
    Spots::new(layout).at(word)
}

/// The number of the word that an operation is on.
#[inline(always)]
pub fn word_of(op: &Op) -> u32
    ensures { result ≡ word_in op.now }
{
    match *op {
        Op::Load { word } => word,
        Op::Store { word, value: _ } => word,
        Op::Cas {
            word,
            old: _,
            new: _,
        } => word,
        Op::Or { word, bits: _ } => word,
        Op::And { word, bits: _ } => word,
    }
}
