// Numbers by line and place: what is kept for each seat and each row.
ghost use Rattle.std.specs.Prelude.{◌≡◌, ◌<◌, ◌&&◌, ◌==◌, ◌*◌, ◌+◌, ℕ, if◌then◌else◌, IfOk, length};
ghost use Rattle.wfe_check_held.specs.Grids.{IsGrid, cell_at};

use std::alloc::Global;
use wfe_defs::NoMemory;

/// Lines of places, each place with a number.
#[derive(Drop)]
pub(crate) struct Grid {
    width: usize,
    cells: Vec<u64>,
}

impl Grid {
    /// So many lines of so many places, all 0.
    pub(crate) fn new(alloc: Global, lines: u32, width: u32) -> Result<Grid, NoMemory>
        ensures sized { IfOk result (λ grid. IsGrid lines width grid) }
        ensures zero { IfOk result (λ grid. (line place : ℕ) → cell_at grid line place ≡ 0) }
    {
        let width = width as usize;
        match vec![in alloc; 0u64; lines as usize * width] {
            Ok(cells) => Ok(Grid { width, cells }),
            Err(_) => Err(NoMemory),
        }
    }

    /// The number at a place of a line.
    pub(crate) fn get(&self, line: usize, place: usize) -> u64
        requires { line * self.now.width + place < length self.now.cells.items }
        ensures { result ≡ cell_at self.now line place }
    {
        self.cells[line * self.width + place]
    }

    /// Sets the number at a place of a line.
    pub(crate) fn set(&mut self, line: usize, place: usize, number: u64)
        requires inside { line * self.old.width + place < length self.old.cells.items }
        requires place { place < self.old.width }
        ensures width { self.new.width ≡ self.old.width }
        ensures count { length self.new.cells.items ≡ length self.old.cells.items }
        ensures cells { (l q : ℕ) → q < self.old.width →
            cell_at self.new l q ≡ (if l == line && q == place then number else cell_at self.old l q) }
    {
        self.cells[line * self.width + place] = number;
    }
}
