// Numbers of 64 bits that count.
ghost use Rattle.std.specs.Prelude.{◌≡◌, ◌+◌, IfOk, OnErr};

use wfe_defs::NoMemory;

/// One more. NoMemory where no number of 64 bits is, and only there.
pub fn raised(count: u64) -> Result<u64, NoMemory>
    ensures full { OnErr result (count ≡ u64.MAX) }
    ensures next { IfOk result (λ next. next ≡ count + 1) }
{
    match count.checked_add(1) {
        Some(next) => Ok(next),
        None => Err(NoMemory),
    }
}
