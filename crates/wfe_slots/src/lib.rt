//! Rows taken (`allocate.rt`, `walk.rt`), written, given up, and what a change of a row's pairs decides (`decision.rt`). One seat
//! does so: it walks over the claim words, writes a row (`write_row.rt`), or gives one up before it was linked (`give_up.rt`).
#![tactic(auto)]

mod allocate;
mod decision;
mod give_up;
mod pairs;
mod walk;
mod write_row;

pub use allocate::Allocate;
pub use decision::{changed_bucket, make_change, refused};
pub use give_up::GiveUp;
pub use pairs::Pairs;
pub use walk::{is_taken, slot_after};
pub use wfe_core::AllocateEnd;
pub use write_row::{Row, WriteRow};
