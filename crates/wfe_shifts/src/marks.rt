// A mark for each row: a row that is named twice is at two places.
use std::alloc::{AllocError, Global};

/// The rows that were named so far.
#[derive(Drop)]
pub struct Marks {
    named: Vec<bool>,
    /// How often a row was named that had been before, or that the table does not have.
    pub twice: u64,
}

impl Marks {
    /// No row of a table with so many beside the dummy.
    pub fn new(alloc: Global, slots: u32) -> Result<Marks, AllocError> {
        let named = vec![in alloc; false; slots as usize + 1]?;
        Ok(Marks { named, twice: 0 })
    }

    /// How many rows the table has, the queue's dummy among them.
    pub fn rows(&self) -> u64 {
        self.named.len() as u64
    }

    /// These rows, by their slots.
    pub fn add(&mut self, slots: &[u32]) {
        for slot in slots {
            match self.named.as_mut_slice().get_mut(*slot as usize) {
                Some(named) if !*named => *named = true,
                _ => self.twice = self.twice.saturating_add(1),
            }
        }
    }
}
