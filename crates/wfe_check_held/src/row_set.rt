// A set of rows.
ghost use Rattle.std.specs.Prelude.{◌≡◌, [], OnOk};
ghost use Rattle.laws.specs.StateAt.{is_empty, is_one_of, without_row};
ghost use Rattle.wfe_check_held.specs.Rows.{with_row};

use std::alloc::Global;
use std::marker::Model;
use wfe_defs::NoMemory;

/// A set of rows, seen as a list of their slots without duplicates.
#[derive(Drop)]
pub struct RowSet {
    slots: Vec<u32>,
}

impl Model for RowSet {
    ghost use Rattle.std.specs.Prelude.{List, ℕ};

    ghost Value = { List ℕ };

    ghost view = { λ s. s.slots.items };
}

impl RowSet {
    /// An empty set. It has taken no memory.
    pub fn new(alloc: Global) -> RowSet
        ensures { result ≡ [] }
    {
        RowSet {
            slots: Vec::new(alloc),
        }
    }

    pub fn has(&self, slot: u32) -> bool
        ensures { result ≡ is_one_of slot self.now }
    {
        self.slots.contains(&slot)
    }

    pub fn is_bare(&self) -> bool
        ensures { result ≡ is_empty self.now }
    {
        self.slots.is_empty()
    }

    /// The rows, in the order in which they came.
    pub fn rows(&self) -> &[u32]
        ensures { result.now ≡ self.now }
    {
        &self.slots
    }

    /// Adds a row, where it is not there.
    pub fn insert(&mut self, slot: u32) -> Result<(), NoMemory>
        ensures { OnOk result (self.new ≡ with_row slot self.old) }
    {
        if self.has(slot) {
            return Ok(());
        }
        match self.slots.push(slot) {
            Ok(()) => Ok(()),
            Err(_) => Err(NoMemory),
        }
    }

    pub fn remove(&mut self, slot: u32)
        ensures { self.new ≡ without_row slot self.old }
    {
        self.slots.retain(|other| *other != slot);
    }
}
