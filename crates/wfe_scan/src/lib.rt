//! A scan reads all guards and gives rows back (`scan.rt`, `guards.rt`). A seat reads each guard once, and then gives back the
//! rows of its retire list whose lives nothing keeps that it read.
#![tactic(auto)]

mod guards;
mod scan;
mod unmet;

pub use guards::{guard_at, guard_count, guard_word, shown_by};
pub use scan::{Scan, Scanner};
pub use unmet::first_unmet;
pub use wfe_core::{CallMachine, Desk, Notes, RetireList, ScanReport};
