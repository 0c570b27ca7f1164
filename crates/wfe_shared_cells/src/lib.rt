//! Cells of objects of any type, read by reference while others replace them (`cells.rt`): a place has a share for each thread
//! (`shelves.rt`), a read lasts as long as its guard (`object.rt`), and what is left at the end comes back (`left.rt`).
#![tactic(auto)]

ghost use Rattle.std.specs.Prelude.{ℕ};

mod cells;
mod left;
mod object;
mod shelves;
mod user;

pub use cells::{Refused, RuledCells, Seen, SwapRefusal};
pub use left::Objects;
pub use object::Object;
pub use user::{Part, Reading, SharedUser, numbers_tell};
pub use wfe_cells::{Config, MakeError, PutIfRefusal, SchemeKind, usual};

/// A fact about each object, by the number under which it was offered to a cell.
pub trait Keeps<T> {
    ghost holds: { ℕ → T → Type 0 };
}

/// The rule that says nothing of an object.
pub struct Anything;

impl<T> Keeps<T> for Anything {
    ghost holds = { λ _ _. Unit {0} };
}

/// Cells whose objects need keep no fact.
pub type SharedCells<T> = RuledCells<T, Anything>;
