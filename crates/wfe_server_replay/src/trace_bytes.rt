// A trace's bytes as they come, whatever takes its lines.
ghost use Rattle.std.specs.Prelude.{◌≡◌, ◌≢◌, ◌<◌, ◌≤◌, ◌+◌, ◌==◌, ℕ, length, slice_index, take, IfOk, IfErr, MatchResult, None, Some, Ok, Err, true, false};
ghost use Rattle.wfe_server_replay.specs.Trace.{ArePlain, progress_start, bad_line, byte_refused, byte_taken, is_end, line_read, more_bytes};
ghost use Rattle.wfe_trace.specs.Reading.{IsItemWithin, judged, line_after};
ghost use Rattle.wfe_trace.specs.declared.reason.Reason.TheVariants.{NoEnd};

use arrayvec::ArrayVec;
use memchr::memchr;
use std::marker::Model;
use wfe_outside::Command;
use wfe_trace::{BadLine, Item, Mode, Reason, TraceState, read_line};

/// A trace of which some bytes came: its lines that are whole, and the line under way.
#[derive(Drop)]
pub struct TraceBytes {
    state: TraceState,
    line: ArrayVec<u8, 200>,
    count: u32,
    ended: bool,
}

impl Model for TraceBytes {
    ghost use Rattle.std.specs.Prelude.{◌≤◌, None};
    ghost use Rattle.wfe_server_replay.specs.Trace.{Progress};

    ghost Value = { Progress (Unit {0}) };

    ghost view = { λ b. record { reading = b.state; line = b.line.items; count = b.count; ended = b.ended; engine = None } };

    ghost invariant = { λ b. b.count ≤ 16777216 };
}

// The index of the first line feed, or the length where there is none.
fn feed_at(bytes: &[u8]) -> usize
    ensures within { result ≤ length bytes.now }
    ensures before { (k : ℕ) → k < result → slice_index bytes.now k ≢ 10 }
{
    match memchr(b'\n', bytes) {
        Some(at) => at,
        None => bytes.len(),
    }
}

impl TraceBytes {
    /// No byte came.
    pub fn new(mode: Mode) -> TraceBytes
        ensures { result ≡ progress_start mode }
    {
        TraceBytes {
            state: TraceState::new(mode),
            line: ArrayVec::new(),
            count: 0,
            ended: false,
        }
    }

    /// The number of the line under way.
    pub fn number(&self) -> u64
        ensures { result ≡ line_after self.now.reading }
    {
        self.state.lines().saturating_add(1)
    }

    // Why the next byte is bad, whatever it ends.
    fn refused(&self, byte: u8) -> Option<Reason>
        ensures { result ≡ byte_refused self.now byte }
    {
        if self.count >= 16_777_216 {
            Some(Reason::LongTrace)
        } else if self.ended {
            Some(Reason::AfterEnd)
        } else if byte == b'\n' {
            None
        } else if self.line.len() >= 200 {
            Some(Reason::LongLine)
        } else {
            None
        }
    }

    /// Takes one byte. Whether it ends the line under way, which is to be read then.
    pub fn push(&mut self, byte: u8) -> Result<bool, BadLine>
        ensures judged { MatchResult result
            (λ ends. (byte_refused self.old byte ≡ None) × ((byte == 10) ≡ ends))
            (λ bad. (byte_refused self.old byte ≡ Some bad.reason) × (bad.line ≡ line_after self.old.reading)) }
        ensures taken { MatchResult result (λ ends. self.new ≡ byte_taken self.old byte ends) (λ _. self.new ≡ self.old) }
    {
        if let Some(reason) = self.refused(byte) {
            let line = self.number();
            return Err(BadLine { line, reason });
        }
        self.count += 1;
        if byte == b'\n' {
            return Ok(true);
        }
        self.line.push(byte);
        Ok(false)
    }

    // How many bytes stand before the first line feed, where none of those is bad; and else 0.
    fn plain(&self, bytes: &[u8]) -> usize
        ensures { ArePlain self.now bytes.now result }
    {
        let room = self.line.remaining_capacity();
        let count = feed_at(bytes);
        if self.ended || count > room || count > 16_777_216 - self.count as usize {
            return 0;
        }
        count
    }

    // Adds bytes to the line under way, for which it has room, as the trace has.
    fn append(&mut self, bytes: &[u8])
        requires short { length self.old.line + length bytes.now ≤ 200 }
        requires few { self.old.count + length bytes.now ≤ 16777216 }
        ensures { self.new ≡ more_bytes self.old bytes.now }
    {
        let Ok(()) = self.line.try_extend_from_slice(bytes) else {
            unreachable!()
        };
        self.count += bytes.len() as u32;
    }

    /// Takes the bytes before the first line feed at once, where none of those is bad, and answers how many
    /// it took. Where one of them is bad it takes none.
    pub fn push_plain(&mut self, bytes: &[u8]) -> usize
        ensures plain { ArePlain self.old bytes.now result }
        ensures taken { self.new ≡ more_bytes self.old (take result bytes.now) }
    {
        let count = self.plain(bytes);
        self.append(&bytes[..count]);
        count
    }

    /// Reads the line under way, which is whole.
    pub fn read(&mut self) -> Result<Item, BadLine>
        ensures item { MatchResult result
            (λ item. judged self.old.reading self.old.line ≡ Ok item)
            (λ bad. judged self.old.reading self.old.line ≡ Err bad.reason) }
        ensures line { IfErr result (λ bad. bad.line ≡ line_after self.old.reading) }
        ensures after { MatchResult result (λ _. self.new ≡ line_read self.old) (λ _. self.new ≡ self.old) }
        ensures within { IfOk result (IsItemWithin self.old.reading) }
    {
        let item = read_line(&mut self.state, self.line.as_slice())?;
        self.line.clear();
        Ok(item)
    }

    /// Takes note of a line of the body: whether it is the line `end`.
    pub fn note(&mut self, command: &Command)
        ensures { self.new ≡ record self.old { ended = is_end command.now } }
    {
        self.ended = matches!(command, Command::End);
    }

    /// Whether the line under way has no byte.
    pub fn between_lines(&self) -> bool
        ensures { result ≡ (length self.now.line == 0) }
    {
        self.line.is_empty()
    }

    /// The input may end after the line `end` and nowhere else.
    pub fn check_end(&self) -> Result<(), BadLine>
        ensures { MatchResult result (λ _. self.now.ended ≡ true) (λ bad. (self.now.ended ≡ false) × (bad ≡ bad_line self.now NoEnd)) }
    {
        if self.ended {
            return Ok(());
        }
        let line = self.number();
        let reason = Reason::NoEnd;
        Err(BadLine { line, reason })
    }
}
