//! Checker: rows, roots, the clock, what is due (`rows.rt`); counts that all parts use (`count.rt`). That is which rows are
//! taken, their lives and next links, the rows of the roots, the clock, and what has to be told next. Each value is that of the
//! record so far, and each answer that of the laws, though the record is not kept. What the parts share is here too: counts,
//! guards and positions by number, what schemes can do.
#![tactic(auto)]

mod count;
mod due;
mod guards;
mod row;
mod rows;
mod scheme;
mod shown;

pub use count::raised;
pub use guards::guard_count;
pub use rows::Rows;
pub use scheme::{is_of_rows, moves_clock};
pub use shown::{keeps, of_row, of_span};
