// What a seat's last call did.
ghost use Rattle.std.specs.Prelude.{◌≡◌, length};
ghost use Rattle.wfe_c.specs.Notes.{IsNoted, IsWritten, TellsBacks, backs_told, given_slot, last_notes, no_notes_for, noted, retired_slot};

use crate::answer::{CAnswer, says_at};
use crate::codes::{OK, SHORT};
use crate::handle::SeatHandle;
use crate::joined::Joined;
use crate::refusing::{lack, refused};
use wfe_table::Lifetime;

// No slot.
const NO_SLOT: u32 = 4_294_967_295;

/// What the seat's last call did: the slots of the row that it was given and of the row that it retired, whether the first was given
/// up, how many slots went back before a row was given and in all, and its atomic steps.
#[repr(C)]
#[derive(Clone, Copy)]
pub struct CNotes {
    pub code: u32,
    pub given: u32,
    pub retired: u32,
    pub unused: u32,
    pub early: u32,
    pub backs: u64,
    pub steps: u64,
}

fn given_slot(given: Option<(u32, u32)>) -> u32
    ensures { result ≡ given_slot given }
{
    match given {
        Some((slot, _)) => slot,
        None => NO_SLOT,
    }
}

fn retired_slot(retired: Option<Lifetime>) -> u32
    ensures { result ≡ retired_slot retired }
{
    match retired {
        Some(life) => life.slot,
        None => NO_SLOT,
    }
}

// No notes, for this reason.
fn no_notes(code: u32) -> CNotes
    ensures { result ≡ no_notes_for code }
{
    CNotes {
        code,
        given: NO_SLOT,
        retired: NO_SLOT,
        unused: 0,
        early: 0,
        backs: 0,
        steps: 0,
    }
}

impl Joined {
    fn noted(&self) -> CNotes
        ensures { result ≡ noted (last_notes self.now) }
    {
        let notes = self.seat.notes();
        CNotes {
            code: OK,
            given: given_slot(notes.given),
            retired: retired_slot(notes.retired),
            unused: if notes.unused { 1 } else { 0 },
            early: notes.early,
            backs: notes.back.len() as u64,
            steps: notes.steps,
        }
    }

    // Writes the slots that went back, in order, as many as there is room for, and tells how many there are.
    fn write_backs(&self, slots: &mut [u32]) -> CAnswer
        ensures tells { result ≡ backs_told (length (last_notes self.now).back) (length slots.old) }
        ensures room { length slots.new ≡ length slots.old }
        ensures first { IsWritten (last_notes self.now).back slots.old slots.new }
    {
        let backs = self.seat.notes().back.as_slice();
        let room = slots.len();
        let count = backs.len().min(room);
        slots[..count].copy_from_slice(&backs[..count]);
        backs_told(backs.len(), room)
    }
}

fn backs_told(count: usize, room: usize) -> CAnswer
    ensures { result ≡ backs_told count room }
{
    let code = if count <= room { OK } else { SHORT };
    says_at(code, count as u64)
}

/// What the seat's last call did.
#[unsafe(no_mangle)]
pub extern "C" fn wfe_c_notes(seat: &mut SeatHandle) -> CNotes
    ensures { IsNoted seat.old seat.new result }
{
    if !seat.has_seat() {
        return no_notes(lack(seat));
    }
    let joined = seat.place.seat();
    joined.noted()
}

/// Writes the slots that went back in the seat's last call, as many as there is room for, and tells how many there were.
#[unsafe(no_mangle)]
pub extern "C" fn wfe_c_backs(seat: &mut SeatHandle, slots: &mut [u32]) -> CAnswer
    ensures { TellsBacks seat.old seat.new slots.old slots.new result }
{
    if !seat.has_seat() {
        return refused(seat);
    }
    let joined = seat.place.seat();
    joined.write_backs(slots)
}
