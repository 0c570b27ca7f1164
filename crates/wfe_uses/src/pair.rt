// Two seats of a new table.
ghost use Rattle.std.specs.Prelude.{◌≡◌, [], All, IfSome};
ghost use Rattle.wfe_table.specs.Public.{IsOf};
ghost use Rattle.wfe_uses.specs.Counting.{IsFresh};

use wfe_table::{Seat, Shared};

/// The last two seats, the last one first.
pub(crate) fn pair_of(_shared: &Shared, mut seats: Vec<Seat>) -> Option<(Seat, Seat)>
    requires fresh { All (IsFresh _shared.now) seats.items }
    ensures first { IfSome result (λ pair. IsOf pair.0 _shared.now) }
    ensures second { IfSome result (λ pair. IsOf pair.1 _shared.now) }
    ensures fresh { IfSome result (λ pair. pair.0.track.local.log ≡ []) }
{
    let first = seats.pop()?;
    let second = seats.pop()?;
    Some((first, second))
}
