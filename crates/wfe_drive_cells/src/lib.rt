//! Words by number, which are the model's memory (`Bridge.antt`), and a replay's, which are atomic (`table.rt`); where threads'
//! words lie (`Spots.antt`). With the
//! operations on them; the model has its words by place. The atomic words have one owner, who makes each operation as one
//! atomic step.
#![tactic(auto)]

mod cells;
mod laws;
mod located;
mod spots;
mod table;

pub use cells::{Cells, MakeCells, PlainCells, start_words};
pub use laws::{calls_make_units, operations_make_steps, units_are_steps, words_lie_by_place};
pub use located::Located;
pub use spots::{Spots, spot_at};
pub use table::TableCells;
