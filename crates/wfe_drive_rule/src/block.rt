// The block of a table at its start.
ghost use Rattle.std.specs.Prelude.{◌≡◌, length, IfOk, IsTrue};
ghost use Rattle.wfe_core.specs.words.Place.{is_valid};
ghost use Rattle.wfe_drive_cells.specs.Memory.{HoldsStart};
ghost use Rattle.wfe_drive_rule.specs.Spots.{shown, spots};

use std::alloc::Global;
use wfe_core::{Layout, NoMemory};
use wfe_drive_cells::Spots;

/// The block of a table, in which each word has the value with which it starts.
pub(crate) fn start_block(alloc: Global, layout: Layout) -> Result<Vec<u64>, NoMemory>
    requires valid { IsTrue (is_valid layout) }
    ensures count { IfOk result (λ block. length block.items ≡ spots layout) }
    ensures starts { IfOk result (λ block. HoldsStart layout (shown layout block.items)) }
{
    let own = Spots::new(&layout);
    let count = layout.words();
    let mut block = zeros(alloc, count as usize + 7 * (own.roots as usize + 3))?;
    for word in 0..count {
        block[own.at(word)] = layout.start(word);
    }
    Ok(block)
}

// So many zeros.
fn zeros(alloc: Global, count: usize) -> Result<Vec<u64>, NoMemory>
    ensures { IfOk result (λ block. length block.items ≡ count) }
{
    let Ok(mut block) = Vec::with_capacity(alloc, count) else {
        return Err(NoMemory);
    };
    for _ in 0..count {
        if block.push(0).is_err() {
            return Err(NoMemory);
        }
    }
    Ok(block)
}
