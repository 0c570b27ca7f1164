// Checks a record: reads it in pieces, has its entries judged, and writes the one line that says what came
// of it.
ghost use Rattle.std.specs.Prelude.{◌≡◌, ◌≢◌, ◌≤◌, ◌<◌, Err, Option, Some, List, length, ℕ};
ghost use Rattle.wfe_outside.specs.Faults.{Rose};
ghost use Rattle.wfe_check_lines.specs.Ends.{Ends, Finishes, Reads, Turns, verdict_by};
ghost use Rattle.wfe_check_lines.specs.Reading.{Reading, reading_start};
ghost use Rattle.wfe_check_lines.specs.Readers.{IsReading};
ghost use Rattle.wfe_check_lines.specs.Verdicts.{Checks, Prints, status_of, text_of};

use crate::Judge;
use crate::reader::Reader;
use crate::stops::Stop;
use crate::verdict::Verdict;
use std::alloc::Global;
use wfe_outside::{Sink, Source};
use wfe_server_out::put_line;
use wfe_trace::{Line, Status, print_bad_record, print_count};

/// Why no more of the source is read.
#[derive(Clone, Copy, Debug, PartialEq, Eq)]
pub enum Ending {
    AtEnd,
    NoRead,
    Stopped { stop: Stop },
}

/// Why there is no verdict.
#[derive(Clone, Copy, Debug, PartialEq, Eq)]
pub enum Unread {
    Fault,
    NoMemory,
}

// Reads once, and takes what came.
fn turn<J: Judge, S: Source>(
    alloc: Global,
    source: &mut S,
    piece: &mut [u8],
    reader: &mut Reader<J>,
) -> Option<Ending>
    requires piece { 0 < length piece.old }
    requires some { (r : Reading) × IsReading J.judges reader.old r }
    ensures turned { (r : Reading) → IsReading J.judges reader.old r → Turns J.judges result (S.left source.old) (S.left source.new) r reader.new }
    ensures source { S.faults source.old ≤ S.faults source.new }
    ensures read { result ≡ Some Ending.NoRead → Rose S.may_stand (S.faults source.old) (S.faults source.new) }
{
    match source.read(piece) {
        Err(_) => Some(Ending::NoRead),
        Ok(0) => Some(Ending::AtEnd),
        Ok(count) => match reader.take_bytes(alloc, &piece[..count]) {
            Ok(()) => None,
            Err(stop) => Some(Ending::Stopped { stop }),
        },
    }
}

// Reads a record from its start, until no more of it is read.
fn read_all<J: Judge, S: Source>(
    alloc: Global,
    source: &mut S,
    piece: &mut [u8],
    reader: &mut Reader<J>,
) -> Ending
    requires piece { 0 < length piece.old }
    requires fresh { IsReading J.judges reader.old reading_start }
    ensures ended { Ends J.judges result (S.left source.old) (S.left source.new) reading_start reader.new }
    ensures source { S.faults source.old ≤ S.faults source.new }
    ensures read { result ≡ Ending.NoRead → Rose S.may_stand (S.faults source.old) (S.faults source.new) }
{
    // Each turn takes a byte, and a record with a byte more than these is bad.
    for _ in 0..1_073_741_825u32 {
        if let Some(ending) = turn(alloc, source, piece, reader) {
            return ending;
        }
    }
    unreachable!()
}

// How many entries a record has that was read to its end.
fn finish<J: Judge>(alloc: Global, mut reader: Reader<J>) -> Result<u64, Stop>
    requires some { (r : Reading) × IsReading J.judges reader r }
    ensures { (r : Reading) → IsReading J.judges reader r → Finishes result r }
{
    match reader.finish(alloc) {
        Ok(()) => Ok(reader.entries()),
        Err(stop) => Err(stop),
    }
}

// What a stop says of the record.
fn found(stop: Stop) -> Result<Verdict, Unread>
    ensures { result ≡ verdict_by stop }
{
    match stop {
        Stop::Bad { bad } => Ok(Verdict::Bad { bad }),
        Stop::Unlawful { line } => Ok(Verdict::Unlawful { line }),
        Stop::NoMemory => Err(Unread::NoMemory),
    }
}

// The verdict on a record of which no more is read.
fn conclude<J: Judge>(alloc: Global, ending: Ending, reader: Reader<J>) -> Result<Verdict, Unread>
    requires some { ending ≡ Ending.AtEnd → (r : Reading) × IsReading J.judges reader r }
    ensures reads { (before left : Option (List ℕ)) → Ends J.judges ending before left reading_start reader → Reads before left result }
    ensures fault { result ≡ Err Unread.Fault → ending ≡ Ending.NoRead }
{
    match ending {
        Ending::NoRead => Err(Unread::Fault),
        Ending::Stopped { stop } => found(stop),
        Ending::AtEnd => match finish(alloc, reader) {
            Ok(count) => Ok(Verdict::Lawful { count }),
            Err(stop) => found(stop),
        },
    }
}

// The verdict on the record that the source has.
fn judged<J: Judge, S: Source>(alloc: Global, source: &mut S) -> Result<Verdict, Unread>
    ensures reads { Reads (S.left source.old) (S.left source.new) result }
    ensures source { S.faults source.old ≤ S.faults source.new }
    ensures fault { result ≡ Err Unread.Fault → Rose S.may_stand (S.faults source.old) (S.faults source.new) }
{
    let Ok(mut piece) = vec![in alloc; 0u8; 65_536] else {
        return Err(Unread::NoMemory);
    };
    let mut reader: Reader<J> = Reader::new();
    let ending = read_all(alloc, source, &mut piece, &mut reader);
    conclude(alloc, ending, reader)
}

// The line of a verdict.
fn print(verdict: &Verdict, line: &mut Line)
    ensures { line.new ≡ text_of verdict.now }
{
    match verdict {
        Verdict::Lawful { count } => print_count(b"lawful", *count, line),
        Verdict::Bad { bad } => print_bad_record(bad.line, bad.reason, line),
        Verdict::Unlawful { line: at } => print_count(b"unlawful", *at, line),
    }
}

// The status of a verdict whose line is written.
fn status(verdict: &Verdict) -> Status
    ensures { result ≡ status_of verdict.now }
{
    match verdict {
        Verdict::Lawful { .. } => Status::Done,
        Verdict::Bad { bad } => Status::BadRecord {
            line: bad.line,
            reason: bad.reason,
        },
        Verdict::Unlawful { line } => Status::Unlawful { line: *line },
    }
}

// Writes the line of a verdict.
fn put<K: Sink>(sink: &mut K, verdict: &Verdict) -> Status
    ensures prints { Prints result verdict.now (K.written sink.old) (K.written sink.new) }
    ensures later { K.faults sink.old ≤ K.faults sink.new }
    ensures read { result ≢ Status.ReadFault }
    ensures cause { result ≡ Status.WriteFault → Rose K.may_stand (K.faults sink.old) (K.faults sink.new) }
{
    let mut line = Line::new();
    print(verdict, &mut line);
    match put_line(sink, &line) {
        Ok(()) => status(verdict),
        Err(_) => Status::WriteFault,
    }
}

/// Reads a record to its end, or up to its first bad line or to the line up to which its entries are not
/// good, as the judge finds them; and writes the one line that says so: `lawful N`, `bad LINE REASON` or
/// `unlawful LINE`.
pub fn check_by<J: Judge, S: Source, K: Sink>(alloc: Global, source: &mut S, sink: &mut K) -> Status
    ensures checks { Checks result (S.left source.old) (S.left source.new) (K.written sink.old) (K.written sink.new) }
    // A fault is told only where its count rose.
    ensures source { S.faults source.old ≤ S.faults source.new }
    ensures sink { K.faults sink.old ≤ K.faults sink.new }
    ensures read { result ≡ Status.ReadFault → Rose S.may_stand (S.faults source.old) (S.faults source.new) }
    ensures write { result ≡ Status.WriteFault → Rose K.may_stand (K.faults sink.old) (K.faults sink.new) }
{
    match judged::<J, S>(alloc, source) {
        Ok(verdict) => put(sink, &verdict),
        Err(Unread::Fault) => Status::ReadFault,
        Err(Unread::NoMemory) => Status::NoMemory,
    }
}
