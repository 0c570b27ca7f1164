// A row is written word by word, before it is linked.
ghost use Rattle.std.specs.Prelude.{◌≡◌, ◌<◌, ◌≤◌, ◌+◌, ◌*◌, length};
ghost use Rattle.wfe_core.specs.WriteRow.{first_written, last_written, pair_word as model_pair_word, row_word, writing};
ghost use Rattle.wfe_slots.specs.Rows.{pair_count, row_of};

use wfe_core::{Machine, Op, Post, Told};

/// What a row of the map or of the queue gets.
#[derive(Drop)]
pub enum Row {
    /// A bucket's version, and its pairs, which are the first `count` of these, 0 to 14, each a key and
    /// a value. The others are not written.
    Map {
        version: u64,
        count: u32,
        pairs: [(u64, u64); 14],
    },
    /// An item of the queue, with its number. Its next link is null.
    Queue {
        number: u64,
        value: u64,
    },
}

impl Row {
    // The places of the first and the last word that are written.
    #[inline(always)]
    fn first(&self) -> u32
        ensures { result ≡ first_written (row_of self.now) }
    {
        match self {
            Row::Map { .. } => 1,
            Row::Queue { .. } => 0,
        }
    }

    #[inline(always)]
    fn last(&self) -> u32
        requires few { pair_count self.now ≤ 14 }
        ensures { result ≡ last_written (row_of self.now) }
    {
        match self {
            Row::Map { count, pairs, .. } => 2 + 2 * pairs[..*count as usize].len() as u32,
            Row::Queue { .. } => 2,
        }
    }

    // The word at a place.
    #[inline(always)]
    fn word(&self, place: u32) -> u64
        requires few { pair_count self.now ≤ 14 }
        requires from { first_written (row_of self.now) ≤ place }
        requires to { place ≤ last_written (row_of self.now) }
        ensures { result ≡ row_word (row_of self.now) place }
    {
        match self {
            Row::Map {
                version,
                count,
                pairs,
            } => {
                let pairs = &pairs[..*count as usize];
                match place {
                    1 => *version,
                    2 => pairs.len() as u64,
                    _ => pair_word(pairs, place - 3),
                }
            }
            Row::Queue { number, value } => match place {
                0 => 0,
                1 => *number,
                _ => *value,
            },
        }
    }
}

// The words of pairs: keys and values by turns.
#[inline(always)]
fn pair_word(pairs: &[(u64, u64)], word: u32) -> u64
    requires { word < 2 * length pairs.now }
    ensures { result ≡ model_pair_word pairs.now (word + 3) }
{
    let pair = pairs[word as usize / 2];
    if word % 2 == 0 { pair.0 } else { pair.1 }
}

/// Writes a row that was allocated and not linked, one word a step: a map row's version, count and
/// pairs, or a queue row's next link, number and value.
#[derive(Drop)]
pub struct WriteRow {
    slot: u32,
    row: Row,
    place: u32,
    ghost few: { pair_count row ≤ 14 },
}

impl WriteRow {
    ghost use Rattle.wfe_slots.specs.Writes.{write_phase};

    /// The first word of this row's writing, in the row at this slot.
    #[inline(always)]
    pub fn new(slot: u32, row: Row) -> WriteRow
        requires few { pair_count row ≤ 14 }
        ensures { write_phase result ≡ writing slot (row_of row) }
    {
        WriteRow {
            slot,
            place: row.first(),
            row,
        }
    }
}

impl Machine for WriteRow {
    ghost use Rattle.wfe_core.specs.Phases.Ending.{Done};
    ghost use Rattle.wfe_slots.specs.Writes.{write_phase};

    type End = ();

    ghost phase = { write_phase };

    ghost ending = { λ _. Done };

    #[inline(always)]
    fn next_op(&self, post: &Post) -> Op {
        Op::Store {
            word: post.layout.row(self.slot, self.place),
            value: self.row.word(self.place),
        }
    }

    #[inline(always)]
    fn take(&mut self, _post: &mut Post, _found: u64, _told: &mut Told) -> Option<()> {
        if self.place == self.row.last() {
            return Some(());
        }
        self.place += 1;
        None
    }
}
