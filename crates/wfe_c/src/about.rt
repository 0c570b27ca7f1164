// Which seat it is, and of which table.
ghost use Rattle.std.specs.Prelude.{◌≡◌};
ghost use Rattle.wfe_c.specs.About.{IsAbout, IsSeen, about_of, lacking, seen_of};

use crate::answer::{CAnswer, says, says_at};
use crate::codes::{BAD_INDEX, OK};
use crate::handle::SeatHandle;
use crate::joined::Joined;
use crate::refusing::{lack, refused};
use crate::setting::CSetting;

/// The seat's number, how many rows are on its list, and its table's setting.
#[repr(C)]
#[derive(Clone, Copy)]
pub struct CAbout {
    pub code: u32,
    pub number: u32,
    pub listed: u64,
    pub setting: CSetting,
}

fn no_seat(code: u32) -> CAbout
    ensures { result ≡ lacking code }
{
    CAbout {
        code,
        number: 0,
        listed: 0,
        setting: CSetting::zeros(),
    }
}

impl Joined {
    fn about(&self) -> CAbout
        ensures { result ≡ about_of self.now }
    {
        CAbout {
            code: OK,
            number: self.seat.number(),
            listed: self.seat.list().len() as u64,
            setting: CSetting::of(self.config()),
        }
    }

    fn seen(&self, bucket: u32) -> CAnswer
        ensures { result ≡ seen_of self.now bucket }
    {
        if bucket < self.config().buckets {
            says_at(OK, self.seat.seen(bucket))
        } else {
            says(BAD_INDEX)
        }
    }
}

/// The seat's number, how many rows are on its list, and its table's setting.
#[unsafe(no_mangle)]
pub extern "C" fn wfe_c_about(seat: &mut SeatHandle) -> CAbout
    ensures { IsAbout seat.old seat.new result }
{
    if !seat.has_seat() {
        return no_seat(lack(seat));
    }
    let joined = seat.place.seat();
    joined.about()
}

/// The greatest version that a call of the seat, but no look, told of the bucket.
#[unsafe(no_mangle)]
pub extern "C" fn wfe_c_seen(seat: &mut SeatHandle, bucket: u32) -> CAnswer
    ensures { IsSeen seat.old seat.new bucket result }
{
    if !seat.has_seat() {
        return refused(seat);
    }
    let joined = seat.place.seat();
    joined.seen(bucket)
}
