//! The rig of replays: one unit is one step of the model (`rig.rt`), in a World of the invariant (`Reached.antt`). It is the
//! words of a table with its seats. `engine.rt` has the interface through which a trace is replayed.
#![tactic(auto)]

mod engine;
mod rig;
mod worlds;

pub use engine::Engine;
pub use rig::Rig;
pub use wfe_drive_cells::{Cells, MakeCells, PlainCells};
pub use worlds::{none_has_left, tables_stay};
