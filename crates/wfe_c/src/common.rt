// What the handles of one table share: the table, and its seats that have left.
ghost use Rattle.std.specs.Prelude.{◌≡◌, ◌∷◌, [], All, IfOk, IfSome};
ghost use Rattle.wfe_table.specs.Public.{IsOf};

use crate::apart::Apart;
use counted_slot::{Counted, FREE, Fits, PRESENT, TAKEN};
use std::alloc::{AllocError, Global};
use wfe_table::{Closed, LeftSeat, Seat, Shared};

impl Fits for Apart<LeftSeat> {
    type Tag = Shared;

    ghost fits = { λ table gone. IsOf gone table };
}

// A seat's place, where it is once it has left. It is seen as its table.
type Left = Counted<Option<Apart<LeftSeat>>>;

#[derive(Drop)]
pub struct Common {
    pub(crate) shared: Shared,
    // By number.
    left: Vec<Left>,
    ghost of: { All (λ table. table ≡ shared) left.items },
}

impl Common {
    ghost use Rattle.wfe_c.specs.Closing.{IsEnded};

    // A table, and a place for each of its seats.
    pub(crate) fn new(alloc: Global, shared: Shared) -> Result<Common, AllocError>
        ensures { IfOk result (λ common. common.shared ≡ shared) }
    {
        let count = shared.layout().config().seats as usize;
        let left = places(alloc, &shared, count)?;
        Ok(Common { shared, left })
    }

    // Keeps a seat that has left, for the close. (No other seat has its number, so its place is free.)
    pub(crate) fn keep(&self, number: u32, gone: LeftSeat)
        requires of { IsOf gone self.now.shared }
    {
        let Some(place) = self.left.as_slice().get(number as usize) else {
            return;
        };
        let (found, claim) = place.turn(FREE, TAKEN);
        if found == FREE {
            drop(claim.put(Some(Apart::new(gone)), PRESENT));
        } else {
            claim.done();
        }
    }

    // Ends the table with the last of its seats, and says what it holds, if memory for that is there.
    pub(crate) fn end(self, alloc: Global, seat: Seat) -> Option<Closed>
        requires of { IsOf seat self.shared }
        ensures { IfSome result (IsEnded self.shared seat) }
    {
        let Common { shared, left } = self;
        let Ok(others) = taken_out(alloc, &shared, left) else {
            return None;
        };
        let Ok(seats) = alone(alloc, seat) else {
            return None;
        };
        match shared.close_left(alloc, seats, others) {
            Ok(closed) => Some(closed),
            Err(_) => None,
        }
    }
}

// So many places, at which no seat is.
fn places(alloc: Global, shared: &Shared, count: usize) -> Result<Vec<Left>, AllocError>
    ensures { IfOk result (λ made. All (λ table. table ≡ shared.now) made.items) }
{
    let mut made = Vec::with_capacity(alloc, count)?;
    for _number in 0..count {
        made.push(Counted::new(None, shared))?;
    }
    Ok(made)
}

// The seats that have left, in number order.
fn taken_out(alloc: Global, _shared: &Shared, left: Vec<Left>) -> Result<Vec<LeftSeat>, AllocError>
    requires of { All (λ table. table ≡ _shared.now) left.items }
    ensures { IfOk result (λ others. All (λ gone. IsOf gone _shared.now) others.items) }
{
    let mut others = Vec::with_capacity(alloc, left.len())?;
    for place in left {
        if let Some(gone) = place.into_inner() {
            others.push(gone.into_inner())?;
        }
    }
    Ok(others)
}

// One seat, as a list.
fn alone(alloc: Global, seat: Seat) -> Result<Vec<Seat>, AllocError>
    ensures { IfOk result (λ seats. seats.items ≡ seat ∷ []) }
{
    let mut seats = Vec::new(alloc);
    seats.push(seat)?;
    Ok(seats)
}
