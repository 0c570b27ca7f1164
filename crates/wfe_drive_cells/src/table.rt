// Words in an atomic table, whose one handle knows them all. (The table's own crate calls a handle a seat.)
ghost use Rattle.std.specs.Prelude.{◌≡◌};

use crate::{Cells, MakeCells, start_words};
use atomic_table::{Play, Seat, Table, TableRule};
use std::alloc::Global;
use std::marker::Model;
use wfe_core::{Layout, NoMemory, Op};

// What a handle knows: the words by number. Proofs alone speak of it, and no value is made.
#[derive(Drop)]
struct Known;

impl Model for Known {
    ghost use Rattle.std.specs.Prelude.{List, ℕ, []};

    ghost Value = { List ℕ };

    ghost view = { λ _. [] };
}

// There is one handle, and it knows the words; at first those that the table is made of.
struct KnowsAll;

impl TableRule<(), Known, Vec<u64>> for KnowsAll {
    ghost use Rattle.wfe_drive_cells.specs.TableSteps.{IsKnown};

    ghost holds = { λ _ state. IsKnown state };

    ghost first = { λ words. words.items };
}

// A step for each kind of operation: what the handle finds, and then knows.

struct LoadStep;

impl Play<(), Known> for LoadStep {
    ghost use Rattle.wfe_drive_cells.specs.TableSteps.{Loads};

    ghost then = { Loads };
}

struct StoreStep;

impl Play<(), Known> for StoreStep {
    ghost use Rattle.wfe_drive_cells.specs.TableSteps.{Stores};

    ghost then = { Stores };
}

struct CasStep;

impl Play<(), Known> for CasStep {
    ghost use Rattle.wfe_drive_cells.specs.TableSteps.{Exchanges};

    ghost then = { Exchanges };
}

struct OrStep;

impl Play<(), Known> for OrStep {
    ghost use Rattle.wfe_drive_cells.specs.TableSteps.{SetsBits};

    ghost then = { SetsBits };
}

struct AndStep;

impl Play<(), Known> for AndStep {
    ghost use Rattle.wfe_drive_cells.specs.TableSteps.{KeepsBits};

    ghost then = { KeepsBits };
}

/// Words of 64 bits in an atomic table, of which one owner has the handle. An operation is one atomic
/// step, and takes no memory; where there is none for the words, `make` gives `NoMemory`. It is seen
/// as the list of its words, by number.
#[derive(Drop)]
pub struct TableCells {
    table: Table<(), Known, Vec<u64>, KnowsAll, Global>,
    handle: Seat<(), Known>,
}

impl Model for TableCells {
    ghost use Rattle.std.specs.Prelude.{List, ℕ};
    ghost use Rattle.wfe_drive_cells.specs.Owned.{IsOwned};

    ghost Value = { List ℕ };

    ghost view = { λ cells. cells.handle.me.0 };

    ghost invariant = { IsOwned };
}

impl Cells for TableCells {
    ghost words = { λ list. list };

    fn perform(&mut self, _seat: u32, op: Op) -> u64 {
        let table = &self.table;
        let shared = &table.shared;
        let handle = &mut self.handle;
        match op {
            Op::Load { word } => shared.load::<LoadStep>(handle, word as usize),
            Op::Store { word, value } => {
                shared.store::<StoreStep>(handle, word as usize, value);
                0
            }
            Op::Cas { word, old, new } => {
                shared.compare_exchange::<CasStep>(handle, word as usize, old, new)
            }
            Op::Or { word, bits } => shared.fetch_or::<OrStep>(handle, word as usize, bits),
            Op::And { word, bits } => shared.fetch_and::<AndStep>(handle, word as usize, bits),
        }
    }
}

impl MakeCells for TableCells {
    fn make(alloc: Global, layout: Layout) -> Result<TableCells, NoMemory> {
        let words = start_words(alloc, layout)?;
        match Table::of_words(alloc, words.as_slice(), &words) {
            Ok((table, handle)) => Ok(TableCells { table, handle }),
            Err(_) => Err(NoMemory),
        }
    }
}
