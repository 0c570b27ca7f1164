// The calls of threads that come and go, each with what its caller is given. A call takes no memory and
// never waits.
ghost use Rattle.std.specs.Prelude.{◌≡◌, ◌<◌, length};
ghost use Rattle.wfe_table.specs.Calls.{IsMade};
ghost use Rattle.wfe_table.specs.Public.{IsOf, steps_of};
ghost use Rattle.wfe_table.specs.history.defs.declared.call.Answer.TheVariants as answers;
ghost use Rattle.wfe_table.specs.history.defs.declared.call.Call.TheVariants as calls;
ghost use Rattle.wfe_table.specs.Answers.{adopt_answer, adopt_steps};
ghost use Rattle.wfe_table.specs.Steps.{leave_steps};

use crate::{LeftSeat, Seat, Shared};
use wfe_table_end::AdoptEnd;

/// The seat leaves its table: it lets go of all that stands at its indexes, and its list of retired rows
/// stays with the table, where another seat may adopt it. It takes a step for each row that stands, and one. Keep what is given back
/// until the table is closed.
pub fn leave(shared: &Shared, seat: Seat) -> LeftSeat
    requires of { IsOf seat shared.now }
    ensures of { IsOf result shared.now }
    ensures made { IsMade shared.now.layout seat result calls.Leave (answers.Left (length seat.track.local.desk.list)) }
    ensures bound { steps_of result ≡ leave_steps seat }
{
    shared.set_place(seat)
}

/// Takes over the list that the seat of this number has left, whole, if no seat has taken it over before:
/// it comes after the rows that are on the seat's own list. It takes two steps where it gets the list, and
/// else one. The number is below the setting's `seats`.
pub fn adopt(shared: &Shared, seat: &mut Seat, place: u32) -> AdoptEnd
    requires of { IsOf seat.old shared.now }
    requires place { place < shared.now.layout.config.seats }
    ensures of { IsOf seat.new shared.now }
    ensures made { IsMade shared.now.layout seat.old seat.new (calls.Adopt place) (adopt_answer result) }
    ensures bound { steps_of seat.new ≡ adopt_steps result }
{
    match shared.take_place(seat, place) {
        Ok(count) => AdoptEnd::Adopted { count },
        Err(0) => AdoptEnd::NotLeft,
        Err(_) => AdoptEnd::AdoptedBefore,
    }
}
