// A seat as C keeps it.
ghost use Rattle.std.specs.Prelude.{◌≡◌, ◌≢◌, None, Some, false, true};
ghost use Rattle.wfe_c.specs.Place.{IsMarked, closed_in, seat_in};
ghost use Rattle.wfe_c.specs.declared.kept.Kept.TheVariants as kepts;

use crate::joined::Joined;
use crate::place::Place;
use crate::pointed::Pointed;
use std::alloc::Global;
use wfe_table::Closed;

// Whether a seat is there, or what its table held, and where. All zeros is none. What lies before and after keeps both words off the
// lines of the cache that hold something else, wherever C lets the handle lie.
#[repr(C)]
#[derive(Drop)]
pub struct SeatHandle {
    pub(crate) before: [u64; 7],
    pub(crate) state: u32,
    pub(crate) place: Place,
    pub(crate) after: [u64; 7],
    ghost marked: { IsMarked state place.inside },
}

// The states; 0, and any other number, is that of no seat.
pub(crate) const SEAT: u32 = 1;

pub(crate) const GONE: u32 = 2;

// Of the handle that the header hands on in place of a null.
pub(crate) const NOBODY: u32 = 3;

// The table of its seat is closed, and what the table held is there.
pub(crate) const ENDED: u32 = 4;

impl SeatHandle {
    // Whether a seat is there.
    #[inline(always)]
    #[tactic(auto, using(crate::proofs::Handles::absent))]
    pub(crate) fn has_seat(&self) -> bool
        ensures there { result ≡ true → seat_in self.now.place.inside ≢ None }
        ensures none { result ≡ false → seat_in self.now.place.inside ≡ None }
        ensures state { result ≡ true → self.now.state ≡ 1 }
    {
        self.state == SEAT
    }

    // Whether what a closed table held is there.
    #[inline(always)]
    #[tactic(auto, using(crate::proofs::Handles::unclosed))]
    pub(crate) fn is_closed(&self) -> bool
        ensures there { result ≡ true → closed_in self.now.place.inside ≢ None }
        ensures none { result ≡ false → closed_in self.now.place.inside ≡ None }
        ensures state { result ≡ true → self.now.state ≡ 4 }
    {
        self.state == ENDED
    }

    #[tactic(auto, using(crate::proofs::Handles::marked_seat))]
    pub(crate) fn of(boxed: Box<Joined>) -> SeatHandle
        ensures state { result.state ≡ 1 }
        ensures inside { result.place.inside ≡ Some (kepts.Seated boxed.value) }
    {
        SeatHandle {
            before: [0; 7],
            state: SEAT,
            place: Place::of(Pointed::of(boxed)),
            after: [0; 7],
        }
    }

    #[tactic(auto, using(crate::proofs::Handles::marked_closed))]
    pub(crate) fn of_closed(boxed: Box<Closed>) -> SeatHandle
        ensures state { result.state ≡ 4 }
        ensures inside { result.place.inside ≡ Some (kepts.Closed boxed.value) }
    {
        SeatHandle {
            before: [0; 7],
            state: ENDED,
            place: Place::of_closed(Pointed::of(boxed)),
            after: [0; 7],
        }
    }

    #[tactic(auto, using(crate::proofs::Handles::unmarked))]
    pub(crate) fn without(alloc: Global, state: u32) -> SeatHandle
        requires seat { state ≢ 1 }
        requires ended { state ≢ 4 }
        ensures state { result.state ≡ state }
        ensures inside { result.place.inside ≡ None }
    {
        SeatHandle {
            before: [0; 7],
            state,
            place: Place::empty(alloc),
            after: [0; 7],
        }
    }

    pub(crate) fn open(self) -> Box<Joined>
        requires { seat_in self.place.inside ≢ None }
        ensures { self.place.inside ≡ Some (kepts.Seated result.value) }
    {
        let SeatHandle { place, .. } = self;
        place.into_pointed().into_box()
    }

    pub(crate) fn open_closed(self) -> Box<Closed>
        requires { closed_in self.place.inside ≢ None }
        ensures { self.place.inside ≡ Some (kepts.Closed result.value) }
    {
        let SeatHandle { place, .. } = self;
        place.into_closed().into_box()
    }
}
