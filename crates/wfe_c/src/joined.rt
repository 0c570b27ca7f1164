// A seat with its table.
ghost use Rattle.std.specs.Arc.{arc_value};
ghost use Rattle.std.specs.Prelude.{◌≡◌};
ghost use Rattle.wfe_table.specs.Public.{IsOf};

use crate::common::Common;
use crate::tally::Member;
use std::alloc::Global;
use std::sync::Arc;
use wfe_table::Seat;

// The table is shared by its seats, and its memory goes with the last of them.
#[derive(Drop)]
pub struct Joined {
    pub(crate) seat: Seat,
    pub(crate) common: Arc<Common, Global>,
    pub(crate) member: Member,
    ghost of: { IsOf seat (arc_value common).shared },
}

impl Joined {
    pub(crate) fn new(common: Arc<Common, Global>, member: Member, seat: Seat) -> Joined
        requires of { IsOf seat (arc_value common).shared }
        ensures common { result.common ≡ common }
        ensures seat { result.seat ≡ seat }
    {
        Joined {
            seat,
            common,
            member,
        }
    }
}
