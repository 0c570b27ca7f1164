// The words that are left of a line, and what single words say.
ghost use Rattle.std.specs.Prelude.{◌≡◌, ◌≢◌, ◌<◌, ◌≤◌, ℕ, option_map, length, slice_index};
ghost use Rattle.wfe_trace.specs.Words.{words};
ghost use Rattle.wfe_record_words.specs.Reader.{first as first_of, is_over as over, long as long_of, number_below as below_in, below as below_of, short as short_of, seat as seat_of, index as index_of, slot as slot_of, bucket as bucket_of, value as value_of, value_in as value_by, shown as shown_of, shown_in as shown_by, span as span_of, span_from as span_after, cut as cut_at, has as has_since, guard_in as guard_by, index_guard as index_guard_by, guard as guard_of, numbered_root as numbered_root_by, root_in as root_by, root as root_of};

use std::marker::Model;
use wfe_defs::{Guard, Interval, Root};
use wfe_trace::number_of;
use wfe_words::Config;

/// The words of a line that are left: a clause sees their list.
#[derive(Drop)]
pub struct Words<'a> {
    // What stands after the space behind the last word that was taken.
    rest: Option<&'a [u8]>,
}

impl<'a> Model for Words<'a> {
    ghost use Rattle.std.specs.Prelude.{ℕ, List, option_map};
    ghost use Rattle.wfe_trace.specs.Words.{words_after};

    ghost Value = { List (List ℕ) };

    ghost view = { λ w. words_after (option_map (λ rest. rest.now) w.rest) };
}

// The index of the first such byte, or the length where there is none.
#[inline(always)]
fn byte_at(bytes: &[u8], wanted: u8) -> usize
    ensures within { result ≤ length bytes.now }
    ensures before { (k : ℕ) → k < result → slice_index bytes.now k ≢ wanted }
    ensures found { result < length bytes.now → slice_index bytes.now result ≡ wanted }
{
    for (i, byte) in bytes.iter().enumerate() {
        if *byte == wanted {
            return i;
        }
    }
    bytes.len()
}

// What stands before the first such byte, and what stands after it.
#[inline(always)]
fn cut(bytes: &[u8], at: u8) -> (&[u8], Option<&[u8]>)
    ensures { cut_at at bytes.now ≡ (result.0.now, option_map (λ rest. rest.now) result.1) }
{
    let index = byte_at(bytes, at);
    if index < bytes.len() {
        (&bytes[..index], Some(&bytes[index + 1..]))
    } else {
        (bytes, None)
    }
}

/// The number that the word writes, where it is below the limit, which is 4,294,967,296 at most.
#[inline(always)]
#[tactic(auto, unfolding(crate::specs::Reader::number_below))]
pub fn number_below(word: &[u8], limit: u64) -> Option<u32>
    requires { limit ≤ 4294967296 }
    ensures { result ≡ below_in limit word.now }
{
    let number = number_of(word)?;
    if number < limit {
        Some(number as u32)
    } else {
        None
    }
}

/// Nothing, where records of the version have what this version brought.
pub fn since(first: u32, version: u32) -> Option<()>
    ensures { result ≡ has_since first version }
{
    if first <= version { Some(()) } else { None }
}

// The index word that a guard's word names after its letter.
#[inline(always)]
fn index_guard(word: &[u8], config: &Config) -> Option<Guard>
    ensures { result ≡ index_guard_by config.now (cut_at 46 word.now) }
{
    let (seat, index) = cut(word, b'.');
    let index = index?;
    Some(Guard::Index {
        seat: number_below(seat, config.seats as u64)?,
        index: number_below(index, config.indexes as u64)?,
    })
}

#[inline(always)]
#[tactic(auto, unfolding(crate::specs::Reader::guard_in))]
fn guard_in(word: &[u8], config: &Config) -> Option<Guard>
    ensures { result ≡ guard_by config.now word.now }
{
    match word {
        [b'h', seat @ ..] => Some(Guard::Helper {
            seat: number_below(seat, config.seats as u64)?,
        }),
        [b'v', seat @ ..] => Some(Guard::Whole {
            seat: number_below(seat, config.seats as u64)?,
        }),
        [b'i', rest @ ..] => index_guard(rest, config),
        _ => None,
    }
}

#[inline(always)]
fn numbered_root(word: &[u8], config: &Config) -> Option<Root>
    ensures { result ≡ numbered_root_by config.now word.now }
{
    match word {
        [b'b', bucket @ ..] => Some(Root::Bucket(number_below(bucket, config.buckets as u64)?)),
        [b'n', slot @ ..] => Some(Root::Next(number_below(slot, config.slots as u64 + 1)?)),
        _ => None,
    }
}

#[inline(always)]
#[tactic(auto, unfolding(crate::specs::Reader::root_in))]
fn root_in(word: &[u8], config: &Config) -> Option<Root>
    ensures { result ≡ root_by config.now word.now }
{
    if word == b"head".as_slice() {
        Some(Root::Head)
    } else if word == b"tail".as_slice() {
        Some(Root::Tail)
    } else {
        numbered_root(word, config)
    }
}

#[inline(always)]
#[tactic(auto, unfolding(crate::specs::Reader::value_in))]
fn value_in(word: &[u8]) -> Option<Option<u64>>
    ensures { result ≡ value_by word.now }
{
    if word == b"none".as_slice() {
        Some(None)
    } else {
        Some(Some(number_of(word)?))
    }
}

#[inline(always)]
#[tactic(auto, unfolding(crate::specs::Reader::shown_in))]
fn shown_in(word: &[u8], config: &Config) -> Option<Option<u32>>
    ensures { result ≡ shown_by config.now word.now }
{
    if word == b"none".as_slice() {
        Some(None)
    } else {
        Some(Some(number_below(word, config.slots as u64 + 1)?))
    }
}

impl<'a> Words<'a> {
    /// All words of a line.
    pub fn of(bytes: &'a [u8]) -> Words<'a>
        ensures { result ≡ words bytes.now }
    {
        Words { rest: Some(bytes) }
    }

    /// Takes the next word.
    #[inline(always)]
    #[tactic(auto, using(crate::proofs::Cuts::word_steps))]
    pub fn first(&mut self) -> Option<&'a [u8]>
        ensures { option_map (λ word. (word.now, self.new)) result ≡ first_of self.old }
    {
        let (word, rest) = cut(self.rest?, b' ');
        self.rest = rest;
        Some(word)
    }

    /// Whether no words are left.
    #[tactic(auto, using(crate::proofs::Cuts::word_steps))]
    pub fn is_over(&self) -> bool
        ensures { result ≡ over self.now }
    {
        match self.rest {
            None => true,
            Some(_) => false,
        }
    }

    /// A number of 64 bits.
    #[inline(always)]
    #[tactic(auto, unfolding(crate::specs::Reader::any_number))]
    pub fn long(&mut self) -> Option<u64>
        ensures { option_map (λ number. (number, self.new)) result ≡ long_of self.old }
    {
        number_of(self.first()?)
    }

    #[inline(always)]
    fn below(&mut self, limit: u64) -> Option<u32>
        requires { limit ≤ 4294967296 }
        ensures { option_map (λ number. (number, self.new)) result ≡ below_of limit self.old }
    {
        number_below(self.first()?, limit)
    }

    /// A number of 32 bits.
    #[inline(always)]
    pub fn short(&mut self) -> Option<u32>
        ensures { option_map (λ number. (number, self.new)) result ≡ short_of self.old }
    {
        self.below(4_294_967_296)
    }

    /// One of the seats.
    #[inline(always)]
    pub fn seat(&mut self, config: &Config) -> Option<u32>
        ensures { option_map (λ seat. (seat, self.new)) result ≡ seat_of config.now self.old }
    {
        self.below(config.seats as u64)
    }

    /// One of a seat's indexes.
    #[inline(always)]
    pub fn index(&mut self, config: &Config) -> Option<u32>
        ensures { option_map (λ index. (index, self.new)) result ≡ index_of config.now self.old }
    {
        self.below(config.indexes as u64)
    }

    /// A row, the queue's first one included.
    #[inline(always)]
    pub fn slot(&mut self, config: &Config) -> Option<u32>
        ensures { option_map (λ slot. (slot, self.new)) result ≡ slot_of config.now self.old }
    {
        self.below(config.slots as u64 + 1)
    }

    /// One of the buckets.
    #[inline(always)]
    pub fn bucket(&mut self, config: &Config) -> Option<u32>
        ensures { option_map (λ bucket. (bucket, self.new)) result ≡ bucket_of config.now self.old }
    {
        self.below(config.buckets as u64)
    }

    /// A number of 64 bits, or `none`.
    #[inline(always)]
    pub fn value(&mut self) -> Option<Option<u64>>
        ensures { option_map (λ value. (value, self.new)) result ≡ value_of self.old }
    {
        value_in(self.first()?)
    }

    /// A row that a guard publishes, or `none`.
    #[inline(always)]
    pub fn shown(&mut self, config: &Config) -> Option<Option<u32>>
        ensures { option_map (λ slot. (slot, self.new)) result ≡ shown_of config.now self.old }
    {
        shown_in(self.first()?, config)
    }

    #[inline(always)]
    fn span_from(&mut self, word: &[u8]) -> Option<Option<Interval>>
        ensures { option_map (λ span. (span, self.new)) result ≡ span_after word.now self.old }
    {
        let lo = number_below(word, 4_294_967_296)?;
        let hi = self.short()?;
        Some(Some(Interval { lo, hi }))
    }

    /// An interval, or `none`.
    #[inline(always)]
    pub fn span(&mut self) -> Option<Option<Interval>>
        ensures { option_map (λ span. (span, self.new)) result ≡ span_of self.old }
    {
        let word = self.first()?;
        if word == b"none".as_slice() {
            return Some(None);
        }
        self.span_from(word)
    }

    /// A guard: the helper word, an index word or the interval word of a seat.
    #[inline(always)]
    pub fn guard(&mut self, config: &Config) -> Option<Guard>
        ensures { option_map (λ guard. (guard, self.new)) result ≡ guard_of config.now self.old }
    {
        guard_in(self.first()?, config)
    }

    /// A word that links a row.
    #[inline(always)]
    pub fn root(&mut self, config: &Config) -> Option<Root>
        ensures { option_map (λ root. (root, self.new)) result ≡ root_of config.now self.old }
    {
        root_in(self.first()?, config)
    }
}
