// Lists of zeros.
ghost use Rattle.std.specs.Prelude.{◌≡◌, ◌<◌, IfOk, length, slice_index, ℕ};

use std::alloc::Global;
use wfe_core::NoMemory;

// So many zeros.
pub(crate) fn zeros(alloc: Global, count: u32) -> Result<Vec<u64>, NoMemory>
    ensures { IfOk result (λ list. (length list.items ≡ count) × ((place : ℕ) → place < count → slice_index list.items place ≡ 0)) }
{
    match vec![in alloc; 0u64; count as usize] {
        Ok(list) => Ok(list),
        Err(_) => Err(NoMemory),
    }
}
