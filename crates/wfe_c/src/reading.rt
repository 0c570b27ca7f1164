// What a closed table held, read by index.
ghost use Rattle.std.specs.Prelude.{◌≡◌, slice_get};
ghost use Rattle.wfe_c.specs.Reading.{IsShown, bucket_at, closed_told, nothing_told, pair_at, pair_told, queued_at, used_at};
ghost use Rattle.wfe_c.specs.Told.{says};

use crate::answer::{CAnswer, says, says_at};
use crate::codes::{BAD_INDEX, OK};
use crate::handle::SeatHandle;
use crate::refusing::unclosed;
use wfe_table::Closed;

/// The era clock of a closed table, and how many buckets, values in the queue and rows in use it had.
#[repr(C)]
#[derive(Clone, Copy)]
pub struct CClosed {
    pub code: u32,
    pub clock: u32,
    pub buckets: u64,
    pub queued: u64,
    pub used: u64,
}

fn nothing_told(code: u32) -> CClosed
    ensures { result ≡ nothing_told code }
{
    CClosed {
        code,
        clock: 0,
        buckets: 0,
        queued: 0,
        used: 0,
    }
}

fn closed_told(closed: &Closed) -> CClosed
    ensures { result ≡ closed_told closed.now }
{
    CClosed {
        code: OK,
        clock: closed.clock,
        buckets: closed.buckets.len() as u64,
        queued: closed.queue.len() as u64,
        used: closed.used.len() as u64,
    }
}

#[tactic(auto, using(std::proofs::lemmas::Option::gets))]
fn bucket_at(closed: &Closed, bucket: u32) -> CAnswer
    ensures { result ≡ bucket_at bucket closed.now }
{
    match closed.buckets.as_slice().get(bucket as usize) {
        Some(row) => CAnswer {
            value: row.pairs.len() as u64,
            ..says_at(OK, row.version)
        },
        None => says(BAD_INDEX),
    }
}

// Two numbers by index: a key with its value, or a value of the queue after its number.
#[tactic(auto, using(std::proofs::lemmas::Option::gets))]
fn pair_told(pairs: &[(u64, u64)], place: u32) -> CAnswer
    ensures { result ≡ pair_told (slice_get pairs.now place) }
{
    match pairs.get(place as usize) {
        Some(pair) => CAnswer {
            value: pair.1,
            ..says_at(OK, pair.0)
        },
        None => says(BAD_INDEX),
    }
}

#[tactic(auto, using(std::proofs::lemmas::Option::gets))]
fn pair_at(closed: &Closed, bucket: u32, pair: u32) -> CAnswer
    ensures { result ≡ pair_at bucket pair closed.now }
{
    match closed.buckets.as_slice().get(bucket as usize) {
        Some(row) => pair_told(row.pairs.as_slice(), pair),
        None => says(BAD_INDEX),
    }
}

#[tactic(auto, using(std::proofs::lemmas::Option::gets))]
fn used_at(closed: &Closed, place: u32) -> CAnswer
    ensures { result ≡ used_at place closed.now }
{
    match closed.used.as_slice().get(place as usize) {
        Some(slot) => CAnswer {
            slot: *slot,
            ..says(OK)
        },
        None => says(BAD_INDEX),
    }
}

/// The clock, and how many buckets, values in the queue and rows in use there are.
#[unsafe(no_mangle)]
pub extern "C" fn wfe_c_closed(seat: &mut SeatHandle) -> CClosed
    ensures { IsShown nothing_told closed_told seat.old seat.new result }
{
    if !seat.is_closed() {
        return nothing_told(unclosed(seat));
    }
    let closed = seat.place.closed();
    closed_told(closed)
}

/// The version of a bucket, and how many pairs it has.
#[unsafe(no_mangle)]
pub extern "C" fn wfe_c_closed_bucket(seat: &mut SeatHandle, bucket: u32) -> CAnswer
    ensures { IsShown says (bucket_at bucket) seat.old seat.new result }
{
    if !seat.is_closed() {
        return says(unclosed(seat));
    }
    let closed = seat.place.closed();
    bucket_at(closed, bucket)
}

/// A key of a bucket with its value, in the order of the bucket's row.
#[unsafe(no_mangle)]
pub extern "C" fn wfe_c_closed_pair(seat: &mut SeatHandle, bucket: u32, pair: u32) -> CAnswer
    ensures { IsShown says (pair_at bucket pair) seat.old seat.new result }
{
    if !seat.is_closed() {
        return says(unclosed(seat));
    }
    let closed = seat.place.closed();
    pair_at(closed, bucket, pair)
}

/// A value that is left in the queue, with its number, in the order of the queue.
#[unsafe(no_mangle)]
pub extern "C" fn wfe_c_closed_queued(seat: &mut SeatHandle, place: u32) -> CAnswer
    ensures { IsShown says (queued_at place) seat.old seat.new result }
{
    if !seat.is_closed() {
        return says(unclosed(seat));
    }
    let closed = seat.place.closed();
    pair_told(closed.queue.as_slice(), place)
}

/// The slot of a row that is in use, rising.
#[unsafe(no_mangle)]
pub extern "C" fn wfe_c_closed_used(seat: &mut SeatHandle, place: u32) -> CAnswer
    ensures { IsShown says (used_at place) seat.old seat.new result }
{
    if !seat.is_closed() {
        return says(unclosed(seat));
    }
    let closed = seat.place.closed();
    used_at(closed, place)
}
