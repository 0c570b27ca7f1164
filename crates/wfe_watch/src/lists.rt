// A counter of retire lists: how many rows wait in that of each seat. All its memory is taken when
// it is made.
ghost use Rattle.std.specs.Prelude.{◌≡◌, IfOk, length, slice_set};
ghost use Rattle.wfe_watch.specs.Lists.{handed_over, lists_after, no_lists, waiting_at, waiting_in_all};

use std::alloc::Global;
use std::marker::Model;
use wfe_defs::{Event, NoMemory};

/// For each seat the rows that wait in its retire list, each count 0 to the greatest u64. It is seen
/// as these counts, one for each seat from 0.
#[derive(Drop)]
pub struct ListCounter {
    counts: Vec<u64>,
}

impl Model for ListCounter {
    ghost use Rattle.std.specs.Prelude.{List, ℕ};

    ghost Value = { List ℕ };

    ghost view = { λ l. l.counts.items };
}

impl ListCounter {
    /// A counter for the seats below `seats`, whose lists are empty.
    pub fn new(alloc: Global, seats: u32) -> Result<ListCounter, NoMemory>
        ensures { IfOk result (λ lists. lists ≡ no_lists seats) }
    {
        match vec![in alloc; 0u64; seats as usize] {
            Ok(counts) => Ok(ListCounter { counts }),
            Err(_) => Err(NoMemory),
        }
    }

    /// How many rows wait in the list of the seat; in that of a seat that there is not, none.
    pub fn waiting(&self, seat: u32) -> u64
        ensures { result ≡ waiting_at self.now seat }
    {
        match self.counts.get(seat as usize) {
            Some(count) => *count,
            None => 0,
        }
    }

    // Sets the count of a seat, where there is such a seat.
    fn set(&mut self, seat: u32, rows: u64)
        ensures { self.new ≡ slice_set self.old seat rows }
    {
        if let Some(count) = self.counts.get_mut(seat as usize) {
            *count = rows;
        }
    }

    // The seat has the rows of another seat's list at the end of its own, and the other none.
    fn hand_over(&mut self, seat: u32, place: u32)
        ensures { self.new ≡ handed_over self.old seat place }
    {
        let rows = self.waiting(place);
        self.set(place, 0);
        self.set(seat, self.waiting(seat).saturating_add(rows));
    }

    /// Counts one more event of a seat, without memory.
    pub fn count(&mut self, seat: u32, event: &Event)
        ensures { self.new ≡ lists_after self.old seat event.now }
    {
        match event {
            Event::Retire { .. } => self.set(seat, self.waiting(seat).saturating_add(1)),
            Event::Back { .. } => self.set(seat, self.waiting(seat).saturating_sub(1)),
            Event::Adopted { place, .. } => self.hand_over(seat, *place),
            _ => {}
        }
    }

    /// How many rows wait in all lists.
    pub fn total(&self) -> u64
        ensures { result ≡ waiting_in_all self.now }
    {
        let mut rows: u64 = 0;
        for place in 0..self.counts.len() {
            rows = rows.saturating_add(self.counts[place]);
        }
        rows
    }
}
