// A seat leaves its table.
ghost use Rattle.wfe_c.specs.Called.{HasLeft};

use crate::answer::{CAnswer, says_at};
use crate::codes::OK;
use crate::handle::{GONE, SeatHandle};
use crate::refusing::refused;
use std::alloc::Global;
use std::mem::replace;

/// Lets go of all that stands at the seat, and leaves its list of retired rows for another one. The seat is gone, and with the
/// last one the table's memory.
#[unsafe(no_mangle)]
pub extern "C" fn wfe_c_leave(alloc: Global, seat: &mut SeatHandle) -> CAnswer
    ensures { HasLeft seat.old seat.new result }
{
    if !seat.has_seat() {
        return refused(seat);
    }
    let left = replace(seat, SeatHandle::without(alloc, GONE));
    let joined = left.open();
    let count = Box::into_inner(joined).leave();
    says_at(OK, count as u64)
}
