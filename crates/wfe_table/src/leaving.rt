// The call by which a seat leaves its table.
ghost use Rattle.std.specs.Prelude.{◌≡◌, length};
ghost use Rattle.wfe_core.specs.defs.declared.call.Answer.TheVariants as answers;
ghost use Rattle.wfe_core.specs.defs.declared.call.Call.TheVariants as calls;
ghost use Rattle.wfe_drive_rule.specs.Handles.{IsSized};
ghost use Rattle.wfe_table.specs.Calls.{IsMade};
ghost use Rattle.wfe_table.specs.Public.{IsOf, steps_of};
ghost use Rattle.wfe_table.specs.Steps.{leave_steps};

use crate::left::LeftSeat;
use crate::part::leave_on;
use crate::seat::Seat;
use crate::shared::Shared;
use wfe_core::Desk;
use wfe_drive_rule::Ledger;

impl Seat {
    // Makes all steps of a leave, on the table that the seat is of.
    pub(crate) fn leave(self, ledger: &Ledger) -> LeftSeat
        requires table { self.table ≡ ledger.now.table_id }
        requires layout { self.track.local.post.layout ≡ ledger.now.key }
        requires sized { IsSized ledger.now.table_id ledger.now.key }
        ensures table { result.table ≡ self.table }
        ensures layout { result.track.local.post.layout ≡ self.track.local.post.layout }
        ensures made { IsMade ledger.now.key self result calls.Leave (answers.Left (length self.track.local.desk.list)) }
    {
        let Seat {
            mut handle,
            post,
            desk,
            seen: _,
        } = self;
        let Desk {
            list,
            report: _,
            notes: _,
        } = desk;
        let word = post.layout.place(post.seat);
        leave_on(ledger, &mut handle, post.seat, word, &post, list);
        LeftSeat::new(handle)
    }
}

impl Shared {
    /// Lets a seat of this table leave: nothing stands at it any more, and the list of the rows that it has
    /// retired is at its place, from which another seat may take it over. The seat is used up, and makes no
    /// further call. It takes no memory. It takes a step for each index from 2 on at which a row stands, at
    /// most 6, and one more; under 2GE, where no index publishes by itself, one step, and another where an
    /// interval stands. Keep what is given back, and hand it in when the table is closed: without it
    /// `close_left` says that a seat is missing.
    pub fn set_place(&self, seat: Seat) -> LeftSeat
        requires of { IsOf seat self.now }
        ensures of { IsOf result self.now }
        ensures made { IsMade self.now.layout seat result calls.Leave (answers.Left (length seat.track.local.desk.list)) }
        ensures bound { steps_of result ≡ leave_steps seat }
    {
        seat.leave(&self.ledger.shared)
    }
}
