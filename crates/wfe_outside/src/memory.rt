// Sources and sinks in memory, which fail at the calls that they are told to fail at.
ghost use Rattle.std.specs.Prelude.{◌≡◌, ◌≤◌, ◌<◌, ◌+◌, ◌-◌, ◌++◌, ◌==◌, ◌&&◌, ◌||◌, ℕ, false, true, [], length, drop, take, min, not, Some, IfOk, OnErr, is_err, is_ok, IsOk};
ghost use Rattle.std.specs.Io.{ReadsAtMost, WritesAtMost};
ghost use Rattle.std.specs.Io.KnownBytes.{ReadConsumes, WriteAppends};
ghost use Rattle.wfe_outside.specs.Faults.{Rose, one_more};
ghost use Rattle.wfe_outside.specs.Memory.{Reader, Writer, is_next_named, has_no_room};

use crate::{Failed, Sink, Source};
use std::alloc::Global;
use std::marker::Model;
use wfe_defs::NoMemory;

/// Bytes in memory. The calls whose numbers, from 1, are listed fail; no number of 64 bits names one
/// after the last, so that the count of those that failed always rises.
#[derive(Drop)]
pub struct MemSource {
    bytes: Vec<u8>,
    fails: Vec<u64>,
    at: usize,
    calls: u64,
    faults: u64,
}

impl Model for MemSource {
    ghost use Rattle.std.specs.Prelude.{◌≤◌, drop, length};
    ghost use Rattle.wfe_outside.specs.Memory.{Reader};

    ghost Value = { Reader };

    ghost view = { λ s. record { left = drop s.at s.bytes.items; fails = s.fails.items; calls = s.calls; faults = s.faults } };

    ghost invariant = { λ s. (s.at ≤ length s.bytes.items) × (s.faults ≤ s.calls) };
}

impl MemSource {
    /// Copies the bytes and the numbers of the calls that fail.
    pub fn new(alloc: Global, bytes: &[u8], fails: &[u64]) -> Result<MemSource, NoMemory>
        ensures { IfOk result (λ s. s ≡ record { left = bytes.now; fails = fails.now; calls = 0; faults = 0 }) }
    {
        Ok(MemSource {
            bytes: copied(alloc, bytes)?,
            fails: copied(alloc, fails)?,
            at: 0,
            calls: 0,
            faults: 0,
        })
    }
}

impl Source for MemSource {
    ghost left = { λ s. Some s.left };

    ghost faults = { λ s. s.faults };

    ghost may_stand = { false };

    fn read(&mut self, buf: &mut [u8]) -> Result<usize, Failed>
        ensures bound { ReadsAtMost result buf.new }
        ensures bytes { ReadConsumes (Some self.old.left) (Some self.new.left) result buf.new }
        ensures later { self.old.faults ≤ self.new.faults }
        ensures cause { OnErr result (Rose false self.old.faults self.new.faults) }
        ensures fails_where_named { is_err result ≡ is_next_named self.old.fails self.old.calls }
        ensures takes_all_it_can { IfOk result (λ count. count ≡ min (length buf.old) (length self.old.left)) }
        ensures after { IfOk result (λ count. self.new ≡ record self.old { left = drop count self.old.left; calls = one_more self.old.calls }) }
        ensures after_failing { OnErr result (self.new ≡ record self.old { calls = self.old.calls + 1; faults = self.old.faults + 1 }) }
    {
        if self.calls < u64::MAX && self.fails.contains(&(self.calls + 1)) {
            self.calls += 1;
            self.faults += 1;
            return Err(Failed);
        }
        self.calls = self.calls.saturating_add(1);
        let count = copy_front(&self.bytes[self.at..], buf);
        self.at += count;
        Ok(count)
    }
}

/// Bytes in memory, all of which can be read.
#[derive(Drop)]
pub struct CleanSource {
    bytes: Vec<u8>,
    at: usize,
}

impl Model for CleanSource {
    ghost use Rattle.std.specs.Prelude.{◌≤◌, ℕ, List, drop, length};

    ghost Value = { List ℕ };

    ghost view = { λ s. drop s.at s.bytes.items };

    ghost invariant = { λ s. s.at ≤ length s.bytes.items };
}

impl CleanSource {
    /// Copies the bytes.
    pub fn new(alloc: Global, bytes: &[u8]) -> Result<CleanSource, NoMemory>
        ensures { IfOk result (λ s. s ≡ bytes.now) }
    {
        Ok(CleanSource {
            bytes: copied(alloc, bytes)?,
            at: 0,
        })
    }
}

impl Source for CleanSource {
    ghost left = { λ s. Some s };

    ghost faults = { λ _. 0 };

    ghost may_stand = { false };

    fn read(&mut self, buf: &mut [u8]) -> Result<usize, Failed>
        ensures bound { ReadsAtMost result buf.new }
        ensures bytes { ReadConsumes (Some self.old) (Some self.new) result buf.new }
        ensures later { 0 ≤ 0 }
        ensures cause { OnErr result (Rose false 0 0) }
        ensures never_fails { IsOk result }
        ensures takes_all_it_can { IfOk result (λ count. count ≡ min (length buf.old) (length self.old)) }
    {
        let count = copy_front(&self.bytes[self.at..], buf);
        self.at += count;
        Ok(count)
    }
}

/// A sink in memory with room for so many bytes. The calls whose numbers, from 1, are listed fail (no
/// number of 64 bits names one after the last), and so does a write of a piece with bytes where no room
/// is left. It may fail without end, so its counts stand still at the greatest number of 64 bits.
#[derive(Drop)]
pub struct MemSink {
    bytes: Vec<u8>,
    room: usize,
    fails: Vec<u64>,
    calls: u64,
    faults: u64,
}

impl Model for MemSink {
    ghost use Rattle.std.specs.Prelude.{◌≤◌, length, vec_capacity};
    ghost use Rattle.wfe_outside.specs.Memory.{Writer};

    ghost Value = { Writer };

    ghost view = { λ s. record { written = s.bytes.items; room = s.room; fails = s.fails.items; calls = s.calls; faults = s.faults } };

    ghost invariant = { λ s. (length s.bytes.items ≤ s.room) × (s.room ≤ vec_capacity s.bytes) };
}

impl MemSink {
    /// Reserves the room.
    pub fn new(alloc: Global, room: usize, fails: &[u64]) -> Result<MemSink, NoMemory>
        ensures { IfOk result (λ s. s ≡ record { written = []; room = room; fails = fails.now; calls = 0; faults = 0 }) }
    {
        let Ok(bytes) = Vec::with_capacity(alloc, room) else {
            return Err(NoMemory);
        };
        Ok(MemSink {
            bytes,
            room,
            fails: copied(alloc, fails)?,
            calls: 0,
            faults: 0,
        })
    }

    /// What was written so far.
    pub fn bytes(&self) -> &[u8]
        ensures { result.now ≡ self.now.written }
    {
        &self.bytes
    }
}

impl Sink for MemSink {
    ghost written = { λ s. Some s.written };

    ghost faults = { λ s. s.faults };

    ghost may_stand = { true };

    fn write(&mut self, piece: &[u8]) -> Result<usize, Failed>
        ensures bound { WritesAtMost result piece.now }
        ensures some { 0 < length piece.now → IfOk result (λ count. 0 < count) }
        ensures bytes { WriteAppends (Some self.old.written) (Some self.new.written) result piece.now }
        ensures later { self.old.faults ≤ self.new.faults }
        ensures cause { OnErr result (Rose true self.old.faults self.new.faults) }
        ensures fails_where_named_or_full { is_err result ≡ (is_next_named self.old.fails self.old.calls || has_no_room self.old piece.now) }
        ensures takes_all_it_can { IfOk result (λ count. count ≡ min (length piece.now) (self.old.room - length self.old.written)) }
        ensures after { IfOk result (λ count. self.new ≡ record self.old { written = self.old.written ++ take count piece.now; calls = one_more self.old.calls }) }
        ensures after_failing { OnErr result (self.new ≡ record self.old { calls = one_more self.old.calls; faults = one_more self.old.faults }) }
    {
        let named = self.calls < u64::MAX && self.fails.contains(&(1 + self.calls));
        self.calls = self.calls.saturating_add(1);
        let count = piece.len().min(self.room - self.bytes.len());
        if named || (count == 0 && !piece.is_empty()) {
            self.faults = self.faults.saturating_add(1);
            return Err(Failed);
        }
        match self.bytes.extend_from_slice(&piece[..count]) {
            Ok(()) => Ok(count),
            Err(_) => unreachable!(),
        }
    }
}

// A copy of the items.
fn copied<T: Copy + Drop>(alloc: Global, items: &[T]) -> Result<Vec<T>, NoMemory>
    ensures { IfOk result (λ v. v.items ≡ items.now) }
{
    match Vec::from_slice(alloc, items) {
        Ok(v) => Ok(v),
        Err(_) => Err(NoMemory),
    }
}

// Copies the first bytes that there are into the buffer, and answers how many.
fn copy_front(bytes: &[u8], buf: &mut [u8]) -> usize
    ensures count { result ≡ min (length buf.old) (length bytes.now) }
    ensures copied { take result buf.new ≡ take result bytes.now }
    ensures bytes { bytes.now ≡ take result buf.new ++ drop result bytes.now }
    ensures none { result ≡ 0 → 0 < length buf.new → length bytes.now ≡ 0 }
{
    let count = buf.len().min(bytes.len());
    buf[..count].copy_from_slice(&bytes[..count]);
    count
}
