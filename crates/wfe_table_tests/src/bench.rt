// A shared table whose seats may leave, in the hands of a test.
ghost use Rattle.std.specs.Prelude.{◌≡◌, All, IfSome};
ghost use Rattle.wfe_table.specs.Public.{IsOf};

use crate::calls::make;
use std::alloc::Global;
use wfe_table::{
    Answer, Call, CloseError, CloseLeftError, Closed, Config, LeftSeat, Seat, Shared, leave,
};

/// A table, the seats that are there, and those that have left.
#[derive(Drop)]
pub struct Bench {
    shared: Shared,
    seats: Vec<Seat>,
    left: Vec<LeftSeat>,
    ghost of: { All (λ seat. IsOf seat shared) seats.items },
    ghost gone: { All (λ seat. IsOf seat shared) left.items },
}

impl Bench {
    /// A table at its start.
    pub fn new(alloc: Global, config: Config) -> Option<Bench> {
        match Shared::new(alloc, config) {
            Ok((shared, seats)) => Some(Bench {
                shared,
                seats,
                left: Vec::new(alloc),
            }),
            Err(_) => None,
        }
    }

    /// The table's setting.
    pub fn config(&self) -> Config {
        self.shared.layout().config()
    }

    // Where the seat of this number is among those that are there; past them if it is not.
    fn place(&self, number: u32) -> usize {
        for (place, seat) in self.seats.iter().enumerate() {
            if seat.number() == number {
                return place;
            }
        }
        self.seats.len()
    }

    /// The seat of this number, if it is there.
    pub fn seat(&self, number: u32) -> Option<&Seat> {
        self.seats.get(self.place(number))
    }

    /// The version of the bucket that the seat has seen last.
    pub fn seen(&self, number: u32, bucket: u32) -> Option<u64> {
        let place = self.place(number);
        if place >= self.seats.len() {
            return None;
        }
        seen(&self.shared, &self.seats[place], bucket)
    }

    /// Makes a whole call of a seat that is there, by which it does not leave, and which may begin.
    pub fn make(&mut self, number: u32, call: Call) -> Option<Answer> {
        let place = self.place(number);
        if place >= self.seats.len() {
            return None;
        }
        make(&self.shared, &mut self.seats[place], call)
    }

    // Takes the seat of this number out, if it is there.
    fn take(&mut self, number: u32) -> Option<Seat>
        ensures table { self.new.shared ≡ self.old.shared }
        ensures of { IfSome result (λ seat. IsOf seat self.old.shared) }
    {
        let place = self.place(number);
        if place >= self.seats.len() {
            return None;
        }
        Some(self.seats.remove(place))
    }

    // Takes the seat that has left first out.
    fn take_left(&mut self) -> Option<LeftSeat>
        ensures table { self.new.shared ≡ self.old.shared }
        ensures of { IfSome result (λ seat. IsOf seat self.old.shared) }
    {
        if self.left.is_empty() {
            return None;
        }
        Some(self.left.remove(0))
    }

    // The seat after the others, where there is memory for it.
    fn with(mut self, seat: Seat) -> Option<Bench>
        requires { IsOf seat self.shared }
    {
        match self.seats.push(seat) {
            Ok(()) => Some(self),
            Err(_) => None,
        }
    }

    // Puts a seat that has left after the others, where there is memory for it.
    fn put_left(&mut self, seat: LeftSeat) -> bool
        requires { IsOf seat self.old.shared }
    {
        self.left.push(seat).is_ok()
    }

    /// The seat leaves, if it is there.
    pub fn leave(&mut self, number: u32) -> bool {
        match self.take(number) {
            Some(seat) => {
                let seat = leave(&self.shared, seat);
                self.put_left(seat)
            }
            None => false,
        }
    }

    // What a close hands back where a seat is missing.
    fn handed_back(self, alloc: Global) -> Option<Bench>
        ensures { IfSome result (λ bench. bench.shared ≡ self.shared) }
    {
        let closed = self.shared.close_left(alloc, self.seats, self.left);
        let Err(
            CloseLeftError::SeatMissing {
                shared,
                seats,
                left,
                ..
            },
        ) = closed
        else {
            return None;
        };
        Some(Bench {
            shared,
            seats,
            left,
        })
    }

    /// A close without the seat of this number, which is there, hands all back.
    pub fn miss(mut self, alloc: Global, number: u32) -> Option<Bench> {
        let seat = self.take(number)?;
        self.handed_back(alloc)?.with(seat)
    }

    /// The same without the seat that has left first.
    pub fn miss_left(mut self, alloc: Global) -> Option<Bench> {
        let seat = self.take_left()?;
        let mut bench = self.handed_back(alloc)?;
        if bench.put_left(seat) {
            Some(bench)
        } else {
            None
        }
    }

    /// The same without the first seat of a table of which none has left, by the close for such.
    pub fn miss_one(mut self, alloc: Global) -> Option<Bench> {
        let seat = self.take(0)?;
        let closed = self.shared.close(alloc, self.seats);
        let Err(CloseError::SeatMissing { shared, seats, .. }) = closed else {
            return None;
        };
        let bench = Bench {
            shared,
            seats,
            left: self.left,
        };
        bench.with(seat)
    }

    /// Ends the table with all of its seats.
    pub fn close(self, alloc: Global) -> Option<Closed> {
        self.shared.close_left(alloc, self.seats, self.left).ok()
    }

    /// Ends a table of which no seat has left.
    pub fn close_all(self, alloc: Global) -> Option<Closed> {
        self.shared.close(alloc, self.seats).ok()
    }
}

fn seen(shared: &Shared, seat: &Seat, bucket: u32) -> Option<u64>
    requires { IsOf seat.now shared.now }
{
    if bucket >= shared.layout().config().buckets {
        return None;
    }
    Some(seat.seen(bucket))
}
