// What the program does, over any source and sink.
ghost use Rattle.std.specs.Prelude.{◌≡◌, ◌≢◌, ◌≤◌, ℕ, List, Option};
ghost use Rattle.wfe_outside.specs.Faults.{Rose};
ghost use Rattle.wfe_draw.specs.Outcomes.{Does, DoesBy, Shows, outcome_of};

use crate::part::{Part, part_of};
use crate::record::read_picture;
use crate::stop::{Stop, Unread};
use std::alloc::Global;
use wfe_draw_page::{Undrawn, draw};
use wfe_outside::{Sink, Source};
use wfe_server_out::write_all;
use wfe_trace::RecordReason;

/// What came of it.
#[derive(Clone, Copy)]
pub enum Outcome {
    Drawn,
    /// The words ask for no part of a record.
    Usage,
    ReadFault,
    WriteFault,
    NoMemory,
    /// The first bad line of the record.
    BadRecord { line: u64, reason: RecordReason },
    TooLarge,
}

// What came of a record that is not drawn.
fn stopped(stop: Stop) -> Outcome
    ensures is { result ≡ outcome_of stop }
    ensures read { result ≢ Outcome.ReadFault }
    ensures write { result ≢ Outcome.WriteFault }
{
    match stop {
        Stop::NoMemory => Outcome::NoMemory,
        Stop::BadRecord { line, reason } => Outcome::BadRecord { line, reason },
        Stop::TooLarge => Outcome::TooLarge,
    }
}

// What came of a picture that has no room.
fn undrawn(why: Undrawn) -> Outcome
    ensures does { (last : ℕ) (before left old : Option (List ℕ)) → Does last result before left old old }
    ensures read { result ≢ Outcome.ReadFault }
    ensures write { result ≢ Outcome.WriteFault }
{
    match why {
        Undrawn::NoMemory => Outcome::NoMemory,
        Undrawn::TooManyLanes => Outcome::TooLarge,
    }
}

// Writes a picture.
fn write_page<K: Sink>(sink: &mut K, page: &[u8]) -> Outcome
    ensures does { (last : ℕ) (before left : Option (List ℕ)) → Shows last before left page.now → Does last result before left (K.written sink.old) (K.written sink.new) }
    ensures later { K.faults sink.old ≤ K.faults sink.new }
    ensures read { result ≢ Outcome.ReadFault }
    ensures cause { result ≡ Outcome.WriteFault → Rose K.may_stand (K.faults sink.old) (K.faults sink.new) }
{
    match write_all(sink, page) {
        Ok(()) => Outcome::Drawn,
        Err(_) => Outcome::WriteFault,
    }
}

// Reads a record, and writes the picture of a part.
fn draw_part<S: Source, K: Sink>(alloc: Global, part: Part, source: &mut S, sink: &mut K) -> Outcome
    ensures does { Does part.last result (S.left source.old) (S.left source.new) (K.written sink.old) (K.written sink.new) }
    ensures source { S.faults source.old ≤ S.faults source.new }
    ensures sink { K.faults sink.old ≤ K.faults sink.new }
    ensures read { result ≡ Outcome.ReadFault → Rose S.may_stand (S.faults source.old) (S.faults source.new) }
    ensures write { result ≡ Outcome.WriteFault → Rose K.may_stand (K.faults sink.old) (K.faults sink.new) }
{
    match read_picture(alloc, source, part) {
        Err(Unread::Fault) => Outcome::ReadFault,
        Err(Unread::Stopped { stop }) => stopped(stop),
        Ok(picture) => match draw(alloc, picture) {
            Ok(page) => write_page(sink, &page),
            Err(why) => undrawn(why),
        },
    }
}

/// Reads a record from the source, and writes the picture of the part that the words ask for to the
/// sink. Where there is none, nothing is written.
pub fn main_call<S: Source, K: Sink>(
    alloc: Global,
    words: &[String],
    source: &mut S,
    sink: &mut K,
) -> Outcome
    // The picture is of the record that the source has. Each of its bars lies within it, and each life
    // of a row begins where it is given and ends where it is freed, or at the end.
    ensures does { DoesBy words.now result (S.left source.old) (S.left source.new) (K.written sink.old) (K.written sink.new) }
    ensures source { S.faults source.old ≤ S.faults source.new }
    ensures sink { K.faults sink.old ≤ K.faults sink.new }
    // A fault is told only where its count rose.
    ensures read { result ≡ Outcome.ReadFault → Rose S.may_stand (S.faults source.old) (S.faults source.new) }
    ensures write { result ≡ Outcome.WriteFault → Rose K.may_stand (K.faults sink.old) (K.faults sink.new) }
{
    let Some(part) = part_of(words) else {
        return Outcome::Usage;
    };
    draw_part(alloc, part, source, sink)
}

/// The number with which the program ends.
pub fn exit_number(outcome: Outcome) -> u8 {
    match outcome {
        Outcome::Drawn => 0,
        Outcome::Usage | Outcome::TooLarge => 2,
        Outcome::ReadFault => 4,
        Outcome::WriteFault => 5,
        Outcome::NoMemory => 6,
        Outcome::BadRecord { .. } => 7,
    }
}
