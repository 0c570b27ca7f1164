// Who works on a table between two rounds.
ghost use Rattle.std.specs.Prelude.{◌≡◌, []};

use crate::tally::Tally;
use crate::worker::{Handed, Worker};
use std::alloc::Global;
use wfe_table::{LeftSeat, Seat};

/// The steady worker, the seats for newcomers, and the seats of those that have left.
#[derive(Drop)]
pub struct Staff {
    pub steady: Worker,
    /// Seats that no one has had.
    pub seats: Vec<Seat>,
    pub left: Vec<LeftSeat>,
    /// What was counted of all that have left.
    pub tally: Tally,
    /// What the last of them has left, once there is one.
    pub last: Option<Handed>,
}

impl Staff {
    /// Before the first newcomer.
    pub fn new(alloc: Global, steady: Worker, seats: Vec<Seat>) -> Staff
        ensures steady { result.steady ≡ steady }
        ensures seats { result.seats ≡ seats }
        ensures left { result.left.items ≡ [] }
    {
        Staff {
            steady,
            seats,
            left: Vec::new(alloc),
            tally: Tally::none(),
            last: None,
        }
    }
}
