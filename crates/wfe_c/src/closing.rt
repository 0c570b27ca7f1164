// A table is closed by its last seat, and what it held is freed.
ghost use Rattle.wfe_c.specs.Closing.{IsEnding};
ghost use Rattle.wfe_c.specs.Reading.{IsFreed};

use crate::codes::{NO_MEMORY, NOT_LAST, OK};
use crate::handle::{GONE, SeatHandle};
use crate::refusing::{lack, unclosed};
use std::alloc::Global;
use std::mem::replace;

/// Closes the table of the seat, if all its other seats have left: the handle has what the table held from here on. Where one has not
/// left, the handle keeps its seat. Where memory runs out, the seat is gone, and with it the table.
#[unsafe(no_mangle)]
pub extern "C" fn wfe_c_close(alloc: Global, seat: &mut SeatHandle) -> u32
    ensures { IsEnding seat.old seat.new result }
{
    if !seat.has_seat() {
        return lack(seat);
    }
    let joined = seat.place.seat();
    let others = joined.others();
    let gone = joined.look();
    if gone < others {
        return NOT_LAST;
    }
    let left = replace(seat, SeatHandle::without(alloc, GONE));
    let last = left.open();
    match Box::into_inner(last).close(alloc) {
        Some(boxed) => {
            *seat = SeatHandle::of_closed(boxed);
            OK
        }
        None => NO_MEMORY,
    }
}

/// Frees what a closed table held.
#[unsafe(no_mangle)]
pub extern "C" fn wfe_c_end(alloc: Global, seat: &mut SeatHandle) -> u32
    ensures { IsFreed seat.old seat.new result }
{
    if !seat.is_closed() {
        return unclosed(seat);
    }
    drop(replace(seat, SeatHandle::without(alloc, GONE)).open_closed());
    OK
}
