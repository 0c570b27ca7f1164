// Closing a shared table, once its threads are done.
ghost use Rattle.std.specs.Prelude.{◌≡◌, ◌≤◌, ◌<◌, [], All, IfErr, IfOk, length, map};
ghost use Rattle.wfe_drive_rule.specs.Handles.{IsGathered, IsSized};
ghost use Rattle.wfe_table.specs.Closing.{IsHandedBack, IsLeft, track_of};
ghost use Rattle.wfe_table.specs.Public.{IsOf};

use crate::seat::Seat;
use crate::shared::Shared;
use std::alloc::Global;
use wfe_core::Layout;
use wfe_drive_cells::Spots;
use wfe_drive_rule::{Handle, Ledger, OwnedLedger, finish, take_in};
use wfe_table_end::{Closed, ClosedRoom};

/// Why a table was not closed. All that was handed in comes back as it was.
#[derive(Drop)]
pub enum CloseError {
    /// Fewer seats were handed in than the table has: so many, and the next one is missing.
    SeatMissing {
        shared: Shared,
        seats: Vec<Seat>,
        place: usize,
    },
    /// There was no memory for reading the table.
    NoMemory {
        shared: Shared,
        seats: Vec<Seat>,
    },
}

// All seats in one handle, in order.
pub(crate) fn gathered(ledger: &Ledger, mut seats: Vec<Seat>) -> Handle
    requires sized { IsSized ledger.now.table_id ledger.now.key }
    requires some { 0 < length seats.items }
    requires of { All (λ seat. IsOf seat (record { table = ledger.now.table_id; layout = ledger.now.key })) seats.items }
    ensures ids { result.table_id ≡ ledger.now.table_id }
    ensures gathered { IsGathered result.me }
    ensures tracks { result.me.0.tracks ≡ map track_of seats.items }
{
    seats.as_mut_slice().reverse();
    let Some(first) = seats.pop() else {
        unreachable!()
    };
    let mut handle = first.bare(ledger);
    while let Some(seat) = seats.pop() {
        let other = seat.bare(ledger);
        take_in(ledger, &mut handle, other);
    }
    handle
}

// The words of a table that ends, read into the room that is there for it.
pub(crate) fn read_end(
    ledger: OwnedLedger,
    handle: Handle,
    layout: Layout,
    mut room: ClosedRoom,
) -> Closed
    requires ids { handle.table_id ≡ ledger.shared.table_id }
    requires key { ledger.shared.key ≡ layout }
    requires sized { IsSized ledger.shared.table_id layout }
    requires gathered { IsGathered handle.me }
    requires all { layout.config.seats ≤ length handle.me.0.tracks }
    requires room { room ≡ record { layout = layout; list = [] } }
    ensures { IsLeft layout handle.me.0.tracks result }
{
    let closed = wfe_drive_rule::close(ledger, handle);
    let spots = Spots::new(&layout);
    for word in 0..layout.words() {
        room.push(closed.word(spots.at(word)));
    }
    finish(closed);
    room.read()
}

impl Shared {
    /// Ends the table, and says what it holds. Its seats have to be handed in, in any order; where
    /// fewer are there than the table has, or memory runs out, all comes back as it was. No row is lost: those
    /// that are taken are just the rows of the buckets that were changed, of the queue with its dummy, and of the
    /// lists, each once.
    pub fn close(self, alloc: Global, seats: Vec<Seat>) -> Result<Closed, CloseError>
        requires of { All (λ seat. IsOf seat self) seats.items }
        ensures enough { IfOk result (λ closed. self.layout.config.seats ≤ length seats.items) }
        ensures closed { IfOk result (IsLeft self.layout (map track_of seats.items)) }
        ensures refused { IfErr result (IsHandedBack self seats.items) }
    {
        let place = seats.len();
        if place < self.layout().config().seats as usize {
            return Err(CloseError::SeatMissing {
                shared: self,
                seats,
                place,
            });
        }
        match ClosedRoom::new(alloc, self.layout()) {
            Ok(room) => Ok(self.end(room, seats)),
            Err(_) => Err(CloseError::NoMemory {
                shared: self,
                seats,
            }),
        }
    }
}
