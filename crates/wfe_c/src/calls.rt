// The calls on a seat.
ghost use Rattle.std.specs.Prelude.{◌≡◌, true};
ghost use Rattle.wfe_c.specs.Called.{IsCalled, tell};
ghost use Rattle.wfe_c.specs.Told.{answer_at, answer_of, answer_with};
ghost use Rattle.wfe_core.specs.Locals.{stays};
ghost use Rattle.wfe_table.specs.history.defs.declared.call.Call.TheVariants as calls;

use crate::answer::{
    CAnswer, CCoded, CTaken, absent, done_at, empty, enqueue_answer, nothing_taken, put_answer,
    says, tell_taken, told_by,
};
use crate::codes::{BAD_INDEX, OK};
use crate::handle::SeatHandle;
use crate::refusing::{lack, lacking, refused};
use wfe_table::{Answer, Call};

#[inline(always)]
fn tell(call: Call, answer: Option<Answer>) -> CAnswer
    ensures { result ≡ tell answer }
{
    match answer {
        Some(answer) => told_by(call, answer),
        None => says(BAD_INDEX),
    }
}

#[inline(always)]
fn make(seat: &mut SeatHandle, call: Call) -> CAnswer
    requires stays { stays call ≡ true }
    ensures { IsCalled seat.old seat.new call result }
{
    if !seat.has_seat() {
        return refused(seat);
    }
    let joined = seat.place.seat();
    let answer = joined.make(call);
    tell(call, answer)
}

/// The key's value, at a version that its bucket had during the call: the code with the value, and the version where it is to go.
#[unsafe(no_mangle)]
pub extern "C" fn wfe_c_get(seat: &mut SeatHandle, key: u64, number: &mut u64) -> CCoded
    ensures { IsCalled seat.old seat.new (calls.Get key) (answer_of result number.new) }
{
    if !seat.has_seat() {
        *number = 0;
        return lacking(seat);
    }
    let joined = seat.place.seat();
    let read = joined.get(key);
    match read.value {
        Some(value) => {
            *number = read.version;
            CCoded {
                code: OK,
                word: value,
            }
        }
        None => absent(read.version, number),
    }
}

/// Gives the key this value.
#[unsafe(no_mangle)]
pub extern "C" fn wfe_c_put(seat: &mut SeatHandle, key: u64, value: u64) -> CAnswer
    ensures { IsCalled seat.old seat.new (calls.Put key value) result }
{
    if !seat.has_seat() {
        return refused(seat);
    }
    let joined = seat.place.seat();
    match joined.put(key, value) {
        Ok(done) => done_at(done.version, done.clock),
        Err(refusal) => put_answer(refusal),
    }
}

/// Gives the key this value where its bucket is at this version.
#[unsafe(no_mangle)]
pub extern "C" fn wfe_c_put_if(seat: &mut SeatHandle, key: u64, value: u64, version: u64) -> CAnswer
    ensures { IsCalled seat.old seat.new (calls.PutIf key value version) result }
{
    make(
        seat,
        Call::PutIf {
            key,
            value,
            version,
        },
    )
}

/// Takes the key's value away.
#[unsafe(no_mangle)]
pub extern "C" fn wfe_c_remove(seat: &mut SeatHandle, key: u64) -> CAnswer
    ensures { IsCalled seat.old seat.new (calls.Remove key) result }
{
    make(seat, Call::Remove { key })
}

/// Puts a value at the queue's end: the code with the value's number.
#[unsafe(no_mangle)]
pub extern "C" fn wfe_c_enqueue(seat: &mut SeatHandle, value: u64) -> CCoded
    ensures { IsCalled seat.old seat.new (calls.Enqueue value) (answer_at result) }
{
    if !seat.has_seat() {
        return lacking(seat);
    }
    let joined = seat.place.seat();
    match joined.enqueue(value) {
        Ok(queued) => CCoded {
            code: OK,
            word: queued.number,
        },
        Err(refusal) => enqueue_answer(refusal),
    }
}

/// Takes the value at the queue's front: the code, and the rest where it is to go.
#[unsafe(no_mangle)]
pub extern "C" fn wfe_c_dequeue(seat: &mut SeatHandle, told: &mut CTaken) -> u32
    ensures { IsCalled seat.old seat.new calls.Dequeue (answer_with result told.new) }
{
    if !seat.has_seat() {
        *told = nothing_taken();
        return lack(seat);
    }
    let joined = seat.place.seat();
    match joined.dequeue() {
        Ok(taken) => {
            tell_taken(taken, told);
            OK
        }
        Err(_) => empty(told),
    }
}

/// Protects the row of the key's bucket at index 2.
#[unsafe(no_mangle)]
pub extern "C" fn wfe_c_hold(seat: &mut SeatHandle, key: u64) -> CAnswer
    ensures { IsCalled seat.old seat.new (calls.Hold key) result }
{
    make(seat, Call::Hold { key })
}

/// Lets go of what stands at index 2.
#[unsafe(no_mangle)]
pub extern "C" fn wfe_c_release(seat: &mut SeatHandle) -> CAnswer
    ensures { IsCalled seat.old seat.new calls.Release result }
{
    make(seat, Call::Release)
}

/// Protects the row that stands at one index at a higher one too.
#[unsafe(no_mangle)]
pub extern "C" fn wfe_c_copy(seat: &mut SeatHandle, from: u32, index: u32) -> CAnswer
    ensures { IsCalled seat.old seat.new (calls.Copy from index) result }
{
    make(seat, Call::Copy { from, index })
}

/// What the row that stands at an index shows of the key.
#[unsafe(no_mangle)]
pub extern "C" fn wfe_c_look(seat: &mut SeatHandle, index: u32, key: u64) -> CAnswer
    ensures { IsCalled seat.old seat.new (calls.Look index key) result }
{
    make(seat, Call::Look { index, key })
}

/// Lets go of what stands at an index.
#[unsafe(no_mangle)]
pub extern "C" fn wfe_c_drop_index(seat: &mut SeatHandle, index: u32) -> CAnswer
    ensures { IsCalled seat.old seat.new (calls.DropIndex index) result }
{
    make(seat, Call::DropIndex { index })
}

/// Tries once to move the clock.
#[unsafe(no_mangle)]
pub extern "C" fn wfe_c_advance(seat: &mut SeatHandle) -> CAnswer
    ensures { IsCalled seat.old seat.new calls.Advance result }
{
    make(seat, Call::Advance)
}

/// Reads all guards, and gives back the retired rows that none of them covers.
#[unsafe(no_mangle)]
pub extern "C" fn wfe_c_scan(seat: &mut SeatHandle) -> CAnswer
    ensures { IsCalled seat.old seat.new calls.Scan result }
{
    make(seat, Call::Scan)
}

/// Takes over the list of retired rows that the seat of this number has left.
#[unsafe(no_mangle)]
pub extern "C" fn wfe_c_adopt(seat: &mut SeatHandle, place: u32) -> CAnswer
    ensures { IsCalled seat.old seat.new (calls.Adopt place) result }
{
    if !seat.has_seat() {
        return refused(seat);
    }
    let joined = seat.place.seat();
    let answer = joined.adopt(place);
    tell(Call::Adopt { place }, answer)
}
