// A seat that has left the shared table.
ghost use Rattle.std.specs.Prelude.{◌≡◌, ◌∷◌, []};
ghost use Rattle.wfe_drive_rule.specs.Handles.{IsBare, IsGathered, IsIdle};
ghost use Rattle.wfe_drive_rule.specs.Views.{own};
ghost use Rattle.wfe_table.specs.Public.{SeatNow};

use std::marker::Model;
use wfe_drive_rule::Handle;

/// A seat that has left its table, with the list of its retired rows, which another seat may adopt. It makes
/// no call any more, and is handed in when the table is closed. It is seen as a seat is.
#[derive(Drop)]
pub struct LeftSeat {
    handle: Handle,
}

impl Model for LeftSeat {
    ghost use Rattle.wfe_drive_rule.specs.Views.{own};
    ghost use Rattle.wfe_table.specs.Public.{SeatNow};
    ghost use Rattle.wfe_table.specs.Gone.{IsGone};

    ghost Value = { SeatNow };

    ghost view = { λ s. record { table = s.handle.table_id; track = own s.handle.me.0 } };

    ghost invariant = { IsGone };
}

impl LeftSeat {
    // A handle whose seat has left, and which has given its slot with the list.
    pub(crate) fn new(handle: Handle) -> LeftSeat
        requires bare { IsBare (own handle.me.0).local.post.layout handle.me }
        requires idle { IsIdle (own handle.me.0) }
        ensures { result ≡ record { table = handle.table_id; track = own handle.me.0 } }
    {
        LeftSeat { handle }
    }

    // The handle alone.
    pub(crate) fn bare(self) -> Handle
        ensures ids { result.table_id ≡ self.table }
        ensures gathered { IsGathered result.me }
        ensures track { result.me.0.tracks ≡ self.track ∷ [] }
    {
        let LeftSeat { handle } = self;
        handle
    }
}
