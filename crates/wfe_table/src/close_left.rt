// Closing a shared table of which some seats have left.
ghost use Rattle.std.specs.Prelude.{◌≡◌, ◌≤◌, ◌<◌, ◌+◌, ◌++◌, [], All, IfErr, IfOk, length, map};
ghost use Rattle.wfe_drive_rule.specs.Handles.{IsGathered, IsSized};
ghost use Rattle.wfe_table.specs.Closing.{IsLeft, IsLeftBack, track_of};
ghost use Rattle.wfe_table.specs.Public.{IsOf};

use crate::close::{gathered, read_end};
use crate::left::LeftSeat;
use crate::seat::Seat;
use crate::shared::Shared;
use std::alloc::Global;
use wfe_drive_rule::{Handle, Ledger, take_in};
use wfe_table_end::{Closed, ClosedRoom};

/// Why a table was not closed. All that was handed in comes back as it was.
#[derive(Drop)]
pub enum CloseLeftError {
    /// Fewer seats were handed in than the table has, those that have left among them: so many, and the
    /// next one is missing.
    SeatMissing {
        shared: Shared,
        seats: Vec<Seat>,
        left: Vec<LeftSeat>,
        place: usize,
    },
    /// There was no memory for reading the table.
    NoMemory {
        shared: Shared,
        seats: Vec<Seat>,
        left: Vec<LeftSeat>,
    },
}

// The seats that have left in one handle, in order.
fn left_handle(ledger: &Ledger, mut left: Vec<LeftSeat>) -> Handle
    requires sized { IsSized ledger.now.table_id ledger.now.key }
    requires some { 0 < length left.items }
    requires of { All (λ seat. IsOf seat (record { table = ledger.now.table_id; layout = ledger.now.key })) left.items }
    ensures ids { result.table_id ≡ ledger.now.table_id }
    ensures gathered { IsGathered result.me }
    ensures tracks { result.me.0.tracks ≡ map track_of left.items }
{
    left.as_mut_slice().reverse();
    let Some(first) = left.pop() else {
        unreachable!()
    };
    let mut handle = first.bare();
    while let Some(seat) = left.pop() {
        let other = seat.bare();
        take_in(ledger, &mut handle, other);
    }
    handle
}

// All seats in one handle, those that have left after the others.
fn all_gathered(ledger: &Ledger, seats: Vec<Seat>, left: Vec<LeftSeat>) -> Handle
    requires sized { IsSized ledger.now.table_id ledger.now.key }
    requires some { 0 < length seats.items + length left.items }
    requires of { All (λ seat. IsOf seat (record { table = ledger.now.table_id; layout = ledger.now.key })) seats.items }
    requires left { All (λ seat. IsOf seat (record { table = ledger.now.table_id; layout = ledger.now.key })) left.items }
    ensures ids { result.table_id ≡ ledger.now.table_id }
    ensures gathered { IsGathered result.me }
    ensures tracks { result.me.0.tracks ≡ map track_of (seats.items ++ left.items) }
{
    if seats.is_empty() {
        return left_handle(ledger, left);
    }
    let mut handle = gathered(ledger, seats);
    if left.is_empty() {
        return handle;
    }
    let others = left_handle(ledger, left);
    take_in(ledger, &mut handle, others);
    handle
}

impl Shared {
    // Ends the table with its seats, of which there are enough, and reads its words into the room.
    fn end_left(self, room: ClosedRoom, seats: Vec<Seat>, left: Vec<LeftSeat>) -> Closed
        requires of { All (λ seat. IsOf seat self) seats.items }
        requires left { All (λ seat. IsOf seat self) left.items }
        requires enough { self.layout.config.seats ≤ length seats.items + length left.items }
        requires room { room ≡ record { layout = self.layout; list = [] } }
        ensures { IsLeft self.layout (map track_of (seats.items ++ left.items)) result }
    {
        let (ledger, layout) = self.parts();
        let handle = all_gathered(&ledger.shared, seats, left);
        read_end(ledger, handle, layout, room)
    }

    /// Ends the table, and says what it holds. Its seats have to be handed in, those that have left apart
    /// from the others, each in any order; where fewer are there than the table has, or memory runs out,
    /// all comes back as it was.
    pub fn close_left(
        self,
        alloc: Global,
        seats: Vec<Seat>,
        left: Vec<LeftSeat>,
    ) -> Result<Closed, CloseLeftError>
        requires of { All (λ seat. IsOf seat self) seats.items }
        requires left { All (λ seat. IsOf seat self) left.items }
        ensures enough { IfOk result (λ closed. self.layout.config.seats ≤ length seats.items + length left.items) }
        ensures closed { IfOk result (IsLeft self.layout (map track_of (seats.items ++ left.items))) }
        ensures refused { IfErr result (IsLeftBack self seats.items left.items) }
    {
        let place = seats.len().saturating_add(left.len());
        if place < self.layout().config().seats as usize {
            return Err(CloseLeftError::SeatMissing {
                shared: self,
                seats,
                left,
                place,
            });
        }
        match ClosedRoom::new(alloc, self.layout()) {
            Ok(room) => Ok(self.end_left(room, seats, left)),
            Err(_) => Err(CloseLeftError::NoMemory {
                shared: self,
                seats,
                left,
            }),
        }
    }
}
