// Words that operations are performed on.
ghost use Rattle.std.specs.Prelude.{◌≡◌, ◌<◌, List, ℕ, length, slice_index, slice_set, IfOk, IsTrue};
ghost use Rattle.wfe_core.specs.words.Place.{is_valid};
ghost use Rattle.wfe_drive_cells.specs.Memory.{HoldsStart};
ghost use Rattle.wfe_drive_cells.specs.Operations.{answer_of, changed, word_in};

use std::alloc::Global;
use std::marker::Model;
use wfe_core::{Layout, NoMemory, Op};

/// The words of a table.
pub trait Cells: Drop {
    /// The words, by number.
    ghost words: { Self → List ℕ };

    /// Performs one operation for a seat. It answers the word before, and 0 for a store, and changes
    /// that word alone.
    fn perform(&mut self, seat: u32, op: Op) -> u64
        requires { word_in op < length (words self.old) }
        ensures answer { result ≡ answer_of op (slice_index (words self.old) (word_in op)) }
        ensures words { words self.new ≡ slice_set (words self.old) (word_in op) (changed op (slice_index (words self.old) (word_in op))) };
}

/// Cells that are made for the words of a layout.
pub trait MakeCells: Cells + Sized {
    /// The layout's words, each as it starts.
    fn make(alloc: Global, layout: Layout) -> Result<Self, NoMemory>
        requires { IsTrue (is_valid layout) }
        ensures { IfOk result (λ cells. HoldsStart layout (Self.words cells)) };
}

/// The layout's words by number, each as it starts, in a list.
pub fn start_words(alloc: Global, layout: Layout) -> Result<Vec<u64>, NoMemory>
    requires { IsTrue (is_valid layout) }
    ensures { IfOk result (λ words. HoldsStart layout words.items) }
{
    let count = layout.words();
    let Ok(mut words) = Vec::with_capacity(alloc, count as usize) else {
        return Err(NoMemory);
    };
    for word in 0..count {
        if words.push(layout.start(word)).is_err() {
            return Err(NoMemory);
        }
    }
    Ok(words)
}

/// Words in a list, which one owner has. It is seen as that list.
#[derive(Drop)]
pub struct PlainCells {
    words: Vec<u64>,
}

impl Model for PlainCells {
    ghost use Rattle.std.specs.Prelude.{List, ℕ};

    ghost Value = { List ℕ };

    ghost view = { λ cells. cells.words.items };
}

impl Cells for PlainCells {
    ghost words = { λ list. list };

    fn perform(&mut self, _seat: u32, op: Op) -> u64 {
        match op {
            Op::Load { word } => self.words[word as usize],
            Op::Store { word, value } => {
                self.words[word as usize] = value;
                0
            }
            Op::Cas { word, old, new } => {
                let before = self.words[word as usize];
                if before == old {
                    self.words[word as usize] = new;
                }
                before
            }
            Op::Or { word, bits } => {
                let before = self.words[word as usize];
                self.words[word as usize] = before | bits;
                before
            }
            Op::And { word, bits } => {
                let before = self.words[word as usize];
                self.words[word as usize] = before & bits;
                before
            }
        }
    }
}

impl MakeCells for PlainCells {
    fn make(alloc: Global, layout: Layout) -> Result<PlainCells, NoMemory> {
        Ok(PlainCells {
            words: start_words(alloc, layout)?,
        })
    }
}
