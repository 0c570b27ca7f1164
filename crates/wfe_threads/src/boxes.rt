// Boxes outside the table that belong to rows. A worker makes one for each row that it retires, and frees
// it where the row goes back: then no thread can read the row any more, nor what belongs to it.
ghost use Rattle.std.specs.Prelude.{◌≡◌, ◌≤◌, ◌+◌, All, IfOk, length};

use std::alloc::Global;
use wfe_final::{Deleter, Finals, Ledger, NoMemory};
use wfe_table::Seat;

/// The greatest number of boxes that a worker frees.
const MOST: usize = 4_096;

/// A box on the heap. What stands in it is its number.
#[derive(Drop)]
struct Parcel {
    content: Box<u64>,
}

impl Deleter for Parcel {
    ghost identity = { λ p. p.content.value };

    fn id(&self) -> u64 {
        *self.content
    }

    fn delete(&mut self, slot: u32, ledger: &mut Ledger) {
        ledger.add(*self.content, slot);
    }
}

/// The boxes of one worker, by the rows to which they belong.
#[derive(Drop)]
pub struct Boxes {
    alloc: Global,
    /// The greatest row of the table.
    pub slots: u32,
    finals: Finals<Parcel>,
    ledger: Ledger,
    /// How many were made.
    pub made: u64,
    /// How many were freed.
    pub freed: u64,
    /// How many were not made, or not freed, as they had to be.
    pub faults: u64,
    ghost places: { length finals ≡ slots + 1 },
    ghost room: { 4096 ≤ length ledger.calls + ledger.spare },
}

impl Boxes {
    /// No boxes, for a table with so many rows beside the dummy.
    pub fn new(alloc: Global, slots: u32) -> Result<Boxes, NoMemory>
        ensures { IfOk result (λ boxes. boxes.slots ≡ slots) }
    {
        let finals = Finals::new(alloc, slots)?;
        let ledger = Ledger::new(alloc, MOST)?;
        Ok(Boxes {
            alloc,
            slots,
            finals,
            ledger,
            made: 0,
            freed: 0,
            faults: 0,
        })
    }

    /// After a call of the seat: the boxes of the rows that went back are freed, and the row that it
    /// retired gets one. What went back before the call was given a row is freed first, since the row that
    /// was retired may have been back and in use again before.
    pub fn follow(&mut self, seat: &Seat)
        requires { self.old.slots ≡ seat.now.track.local.post.layout.config.slots }
        ensures { self.new.slots ≡ self.old.slots }
    {
        let notes = seat.notes();
        let early = (notes.early as usize).min(notes.back.len());
        let (before, after) = notes.back.split_at(early);
        self.free(before);
        if let Some(life) = notes.retired {
            self.make(life.slot);
        }
        self.free(after);
    }

    // A box for a row that was retired.
    fn make(&mut self, slot: u32)
        requires { slot ≤ self.old.slots }
        ensures { self.new.slots ≡ self.old.slots }
    {
        let number = self.made.saturating_add(1);
        let Ok(content) = Box::new(self.alloc, number) else {
            self.faults = self.faults.saturating_add(1);
            return;
        };
        match self.finals.attach(slot, Parcel { content }) {
            Ok(()) => self.made = number,
            Err(_) => self.faults = self.faults.saturating_add(1),
        }
    }

    // Frees the boxes of these rows.
    fn free(&mut self, backs: &[u32])
        requires { All (λ slot. slot ≤ self.old.slots) backs.now }
        ensures { self.new.slots ≡ self.old.slots }
    {
        if backs.len() > MOST.saturating_sub(self.ledger.len()) {
            self.faults = self.faults.saturating_add(1);
            return;
        }
        let count = self.finals.settle(backs, &mut self.ledger);
        self.freed = self.freed.saturating_add(count.into());
    }
}
