// A record's text as its bytes come.
ghost use Rattle.std.specs.Prelude.{◌≡◌, ◌≢◌, ◌<◌, ◌≤◌, ◌+◌, ◌^◌, ℕ, [], if◌then◌else◌, IfOk, IfSome, length, slice_index};
ghost use Rattle.wfe_check_lines.specs.Reading.{Reading, after_byte, after_last, after_line, at_stage, byte_refused, counted, finished, reading_start};
ghost use Rattle.wfe_check_lines.specs.Readers.{BeginsWithLine, IsReading, Takes, TakesBytes, TakesSome, more_bytes, stop_at};

use crate::Judge;
use crate::progress::Progress;
use crate::stops::{BadLine, Refusal, Stop};
use arrayvec::ArrayVec;
use memchr::memchr;
use std::alloc::Global;
use wfe_trace::RecordReason;

/// A record of which some bytes came.
#[derive(Drop)]
pub struct Reader<J: Judge> {
    line: ArrayVec<u8, 200>,
    count: u32,
    lines: u32,
    entries: u32,
    place: Progress<J>,
}

// Why no more is taken after so many lines, where the next one is refused.
fn stop(lines: u32, refusal: Refusal) -> Stop
    ensures { result ≡ stop_at lines refusal }
{
    let line = lines as u64 + 1;
    match refusal {
        Refusal::Bad { reason } => Stop::Bad {
            bad: BadLine { line, reason },
        },
        Refusal::Unlawful => Stop::Unlawful { line },
        Refusal::NoMemory => Stop::NoMemory,
    }
}

// The index of the first line feed, or the length where there is none.
fn feed_at(bytes: &[u8]) -> usize
    ensures within { result ≤ length bytes.now }
    ensures before { (k : ℕ) → k < result → slice_index bytes.now k ≢ 10 }
    ensures found { result < length bytes.now → slice_index bytes.now result ≡ 10 }
{
    match memchr(b'\n', bytes) {
        Some(at) => at,
        None => bytes.len(),
    }
}

impl<J: Judge> Reader<J> {
    /// No byte came.
    pub(crate) fn new() -> Reader<J>
        ensures { IsReading J.judges result reading_start }
    {
        Reader {
            line: ArrayVec::new(),
            count: 0,
            lines: 0,
            entries: 0,
            place: Progress::First,
        }
    }

    /// How many entries the whole lines told.
    pub(crate) fn entries(&self) -> u64
        ensures { (r : Reading) → IsReading J.judges self.now r → result ≡ r.told.count }
    {
        self.entries as u64
    }

    // Why the next byte is bad, whatever it ends.
    fn refused(&self, byte: u8) -> Option<RecordReason>
        ensures { (r : Reading) → IsReading J.judges self.now r → result ≡ byte_refused r byte }
    {
        if self.count >= 1_073_741_824 {
            Some(RecordReason::LongRecord)
        } else if byte == b'\n' {
            None
        } else if self.line.len() >= 200 {
            Some(RecordReason::LongLine)
        } else {
            None
        }
    }

    // One more byte came.
    fn count_byte(&mut self)
        ensures line { self.new.line ≡ self.old.line }
        ensures count { self.old.count < 2 ^ 31 → self.new.count ≡ self.old.count + 1 }
        ensures lines { self.new.lines ≡ self.old.lines }
        ensures entries { self.new.entries ≡ self.old.entries }
        ensures place { self.new.place ≡ self.old.place }
    {
        self.count = self.count.saturating_add(1);
    }

    // The line under way is done with.
    fn end_line(&mut self, is_entry: bool)
        ensures line { self.new.line.items ≡ [] }
        ensures count { self.new.count ≡ self.old.count }
        ensures lines { self.old.lines < 2 ^ 31 → self.new.lines ≡ self.old.lines + 1 }
        ensures entries { self.old.entries < 2 ^ 31 → self.new.entries ≡ (if is_entry then self.old.entries + 1 else self.old.entries) }
        ensures place { self.new.place ≡ self.old.place }
    {
        self.line.clear();
        self.lines = self.lines.saturating_add(1);
        if is_entry {
            self.entries = self.entries.saturating_add(1);
        }
    }

    // Takes the line under way, which is whole.
    fn take_line(&mut self, alloc: Global) -> Result<(), Stop>
        requires some { (r : Reading) × IsReading J.judges self.old r }
        ensures { (r : Reading) → IsReading J.judges self.old r → r.lines < r.count → Takes J.judges result (after_line r) self.new }
    {
        match self.place.take(alloc, self.line.as_slice()) {
            Ok(is_entry) => {
                self.end_line(is_entry);
                Ok(())
            }
            Err(refusal) => Err(stop(self.lines, refusal)),
        }
    }

    // Takes one byte.
    fn take_byte(&mut self, alloc: Global, byte: u8) -> Result<(), Stop>
        requires some { (r : Reading) × IsReading J.judges self.old r }
        ensures { (r : Reading) → IsReading J.judges self.old r → Takes J.judges result (after_byte r byte) self.new }
    {
        if let Some(reason) = self.refused(byte) {
            return Err(stop(self.lines, Refusal::Bad { reason }));
        }
        self.count_byte();
        if byte == b'\n' {
            return self.take_line(alloc);
        }
        self.line.push(byte);
        Ok(())
    }

    // Where the line feed of these bytes' first line is, where the line can be judged in its place: none
    // is under way, and neither it nor the record is too long with it.
    fn whole(&self, bytes: &[u8]) -> Option<usize>
        ensures within { IfSome result (λ at. (at < length bytes.now) × (at ≤ 200)) }
        ensures begins { IfSome result (λ at. (r : Reading) → IsReading J.judges self.now r → BeginsWithLine r bytes.now at) }
    {
        if !self.line.is_empty() || self.count > 1_073_741_623 {
            return None;
        }
        let at = feed_at(bytes);
        if at < bytes.len() && at <= 200 {
            Some(at)
        } else {
            None
        }
    }

    // The bytes of a whole line came, and its line feed.
    fn count_line(&mut self, line: &[u8])
        requires { length line.now ≤ 200 }
        ensures line { self.new.line ≡ self.old.line }
        ensures count { self.old.count < 2 ^ 31 → self.new.count ≡ self.old.count + (length line.now + 1) }
        ensures lines { self.new.lines ≡ self.old.lines }
        ensures entries { self.new.entries ≡ self.old.entries }
        ensures place { self.new.place ≡ self.old.place }
    {
        self.count = self.count.saturating_add(line.len() as u32 + 1);
    }

    // Takes a whole line that came with its line feed, while none was under way.
    fn take_whole(&mut self, alloc: Global, line: &[u8]) -> Result<(), Stop>
        requires some { (r : Reading) × IsReading J.judges self.old r }
        requires short { length line.now ≤ 200 }
        ensures { (r : Reading) → IsReading J.judges self.old r → r.line ≡ [] → r.count + length line.now < 1073741824
            → Takes J.judges result (after_line (counted (more_bytes r line.now))) self.new }
    {
        match self.place.take(alloc, line) {
            Ok(is_entry) => {
                self.count_line(line);
                self.end_line(is_entry);
                Ok(())
            }
            Err(refusal) => Err(stop(self.lines, refusal)),
        }
    }

    // Takes the first line of these bytes in its place, or else one byte of them. Answers how many it took.
    fn take_some(&mut self, alloc: Global, bytes: &[u8]) -> Result<usize, Stop>
        requires some { (r : Reading) × IsReading J.judges self.old r }
        requires bytes { 0 < length bytes.now }
        ensures within { IfOk result (λ count. (0 < count) × (count ≤ length bytes.now)) }
        ensures taken { (r : Reading) → IsReading J.judges self.old r → TakesSome J.judges result r bytes.now self.new }
    {
        match self.whole(bytes) {
            Some(at) => match self.take_whole(alloc, &bytes[..at]) {
                Ok(()) => Ok(at + 1),
                Err(stop) => Err(stop),
            },
            None => match self.take_byte(alloc, bytes[0]) {
                Ok(()) => Ok(1),
                Err(stop) => Err(stop),
            },
        }
    }

    /// Takes the next bytes, up to one for which no more is taken.
    pub(crate) fn take_bytes(&mut self, alloc: Global, bytes: &[u8]) -> Result<(), Stop>
        requires some { (r : Reading) × IsReading J.judges self.old r }
        ensures { (r : Reading) → IsReading J.judges self.old r → TakesBytes J.judges result r bytes.now self.new }
    {
        let mut at = 0;
        while at < bytes.len() {
            match self.take_some(alloc, &bytes[at..]) {
                Ok(count) => at += count,
                Err(stop) => return Err(stop),
            }
        }
        Ok(())
    }

    // Takes the bytes after the last line feed, which are a line too.
    fn take_last(&mut self, alloc: Global) -> Result<(), Stop>
        requires some { (r : Reading) × IsReading J.judges self.old r }
        ensures { (r : Reading) → IsReading J.judges self.old r → Takes J.judges result (after_last r) self.new }
    {
        if self.line.is_empty() {
            return Ok(());
        }
        self.take_line(alloc)
    }

    // Whether a first line came.
    fn check_first(&self) -> Result<(), Stop>
        ensures { (r : Reading) → IsReading J.judges self.now r → Takes J.judges result (at_stage r.told.stage r) self.now }
    {
        match self.place {
            Progress::First => Err(stop(
                self.lines,
                Refusal::Bad {
                    reason: RecordReason::Header,
                },
            )),
            Progress::Body { .. } | Progress::Over => Ok(()),
        }
    }

    /// Takes the end of the input.
    pub(crate) fn finish(&mut self, alloc: Global) -> Result<(), Stop>
        requires some { (r : Reading) × IsReading J.judges self.old r }
        ensures { (r : Reading) → IsReading J.judges self.old r → Takes J.judges result (finished r) self.new }
    {
        match self.take_last(alloc) {
            Ok(()) => self.check_first(),
            Err(stop) => Err(stop),
        }
    }
}
