// The calls of seats that leave, and of those that take over what they left.
ghost use Rattle.std.specs.Prelude.{◌≡◌, ◌<◌, MatchResult};
ghost use Rattle.wfe_core.specs.defs.declared.call.Answer.TheVariants as answers;
ghost use Rattle.wfe_core.specs.defs.declared.call.Call.TheVariants as calls;
ghost use Rattle.wfe_table.specs.Calls.{IsMade, IsMissed};
ghost use Rattle.wfe_table.specs.Public.{IsOf, steps_of};

use crate::seat::Seat;
use crate::shared::Shared;

impl Shared {
    /// Takes over the list that a seat of this table has left: it goes to the end of the seat's own, and how
    /// many rows are in it is answered. Else the place word that was found is answered: 0 where that seat
    /// had not left, 2 or 3 where its list was taken over. It takes two steps at most, and no memory.
    pub fn take_place(&self, seat: &mut Seat, place: u32) -> Result<u32, u64>
        requires of { IsOf seat.old self.now }
        requires place { place < self.now.layout.config.seats }
        ensures of { IsOf seat.new self.now }
        ensures made { MatchResult result
            (λ count. IsMade self.now.layout seat.old seat.new (calls.Adopt place) (answers.Adopted count))
            (λ found. IsMissed self.now.layout seat.old seat.new place found) }
        ensures bound { MatchResult result (λ _. steps_of seat.new ≡ 2) (λ _. steps_of seat.new ≡ 1) }
    {
        seat.take(&self.ledger.shared, place)
    }
}
