// What a call is answered on a handle that lacks what it wants.
ghost use Rattle.std.specs.Prelude.{◌≡◌};
ghost use Rattle.wfe_c.specs.Handle.{lack, unclosed};
ghost use Rattle.wfe_c.specs.Told.{says};

use crate::answer::{CAnswer, CCoded, says};
use crate::codes::{CLOSED, HAS_LEFT, NO_SEAT, NOT_CLOSED, NULL};
use crate::handle::{ENDED, GONE, NOBODY, SEAT, SeatHandle};

// The code of a handle without a seat, by its state.
#[cold]
#[inline(never)]
pub(crate) fn lack(seat: &SeatHandle) -> u32
    ensures { result ≡ lack seat.now.state }
{
    if seat.state == GONE {
        HAS_LEFT
    } else if seat.state == NOBODY {
        NULL
    } else if seat.state == ENDED {
        CLOSED
    } else {
        NO_SEAT
    }
}

// The same with a word, which is 0.
#[cold]
#[inline(never)]
pub(crate) fn lacking(seat: &SeatHandle) -> CCoded
    ensures { result ≡ record { code = lack seat.now.state; word = 0 } }
{
    CCoded {
        code: lack(seat),
        word: 0,
    }
}

// It is made where the caller makes its own answer, so that none is handed through memory.
#[inline(always)]
pub(crate) fn refused(seat: &SeatHandle) -> CAnswer
    ensures { result ≡ says (lack seat.now.state) }
{
    says(lack(seat))
}

// The code of one that has nothing of a closed table.
#[cold]
#[inline(never)]
pub(crate) fn unclosed(seat: &SeatHandle) -> u32
    ensures { result ≡ unclosed seat.now.state }
{
    if seat.state == SEAT {
        NOT_CLOSED
    } else {
        lack(seat)
    }
}
