// The memory for closing a table, and the reading of its words.
ghost use Rattle.std.specs.Prelude.{◌≡◌, ◌<◌, ◌≤◌, ◌++◌, ◌∷◌, [], All, List, IfOk, IsTrue, length};
ghost use Rattle.law_reasons.specs.inv.history.History.{Item, record_of};
ghost use Rattle.wfe_core.specs.words.Place.{is_valid, words};
ghost use Rattle.wfe_table_end.specs.ClosedTable.{IsClosed, IsReached, Reaches};
ghost use Rattle.wfe_table_end.specs.Contents.{IsRead};
ghost use Rattle.wfe_table_end.specs.Room.{IsSpare};

use crate::reading::read_words;
use crate::{BucketRow, Closed};
use std::alloc::Global;
use std::marker::Model;
use wfe_core::{Layout, NoMemory};

/// All memory that closing a table takes, and the words of the table that were handed in so far. It is
/// seen as the layout and those words, by number from 0.
#[derive(Drop)]
pub struct ClosedRoom {
    layout: Layout,
    words: Vec<u64>,
    spare: Vec<BucketRow>,
    buckets: Vec<BucketRow>,
    queue: Vec<(u64, u64)>,
    used: Vec<u32>,
}

impl Model for ClosedRoom {
    ghost use Rattle.wfe_table_end.specs.Room.{HasRoom, Words};

    ghost Value = { Words };

    ghost view = { λ room. record { layout = room.layout; list = room.words.items } };

    ghost invariant = { HasRoom };
}

// An empty bucket with room for each pair of a row, for each bucket of the table.
fn spare_rows(alloc: Global, layout: Layout) -> Result<Vec<BucketRow>, NoMemory>
    ensures empty { IfOk result (λ rows. All (IsSpare layout) rows.items) }
    ensures count { IfOk result (λ rows. length rows.items ≡ layout.config.buckets) }
{
    let config = layout.config();
    let Ok(mut rows) = Vec::with_capacity(alloc, config.buckets as usize) else {
        return Err(NoMemory);
    };
    for _bucket in 0..config.buckets {
        let Ok(pairs) = Vec::with_capacity(alloc, config.pairs as usize) else {
            return Err(NoMemory);
        };
        if rows.push(BucketRow { version: 0, pairs }).is_err() {
            return Err(NoMemory);
        }
    }
    Ok(rows)
}

impl ClosedRoom {
    /// Room for all that a table of this layout can hold, and no words yet. Where there is no memory
    /// for it, it gives `NoMemory`.
    pub fn new(alloc: Global, layout: Layout) -> Result<ClosedRoom, NoMemory>
        requires { IsTrue (is_valid layout) }
        ensures { IfOk result (λ room. room ≡ record { layout = layout; list = [] }) }
    {
        let config = layout.config();
        let rows = config.slots as usize + 1;
        let Ok(words) = Vec::with_capacity(alloc, layout.words() as usize) else {
            return Err(NoMemory);
        };
        let Ok(buckets) = Vec::with_capacity(alloc, config.buckets as usize) else {
            return Err(NoMemory);
        };
        let Ok(queue) = Vec::with_capacity(alloc, rows) else {
            return Err(NoMemory);
        };
        let Ok(used) = Vec::with_capacity(alloc, rows) else {
            return Err(NoMemory);
        };
        let spare = spare_rows(alloc, layout)?;
        Ok(ClosedRoom {
            layout,
            words,
            spare,
            buckets,
            queue,
            used,
        })
    }

    /// Adds the table's next word. It takes no memory.
    pub fn push(&mut self, word: u64)
        requires { length self.old.list < words self.old.layout }
        ensures list { self.new.list ≡ self.old.list ++ word ∷ [] }
        ensures layout { self.new.layout ≡ self.old.layout }
    {
        let pushed = self.words.push(word).is_ok();
        prove!(pushed);
    }

    /// Reads what the table holds, once all its words are there: what the words show, and so what the
    /// record says of each history that comes to them. It takes no memory.
    pub fn read(self) -> Closed
        requires { IsReached self.layout self.list }
        ensures read { IsRead self.layout self.list result }
        ensures closed { (items : List Item) → Reaches self.layout self.list items → IsClosed self.layout (record_of self.layout items) result }
    {
        let ClosedRoom {
            layout,
            words,
            spare,
            buckets,
            queue,
            used,
        } = self;
        read_words(layout, &words, spare, buckets, queue, used)
    }
}
