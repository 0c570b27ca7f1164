//! A cut row gets its retire era and goes on the list (`retire.rt`).
#![tactic(auto)]

mod retire;

pub use retire::{Retire, birth_of};
pub use wfe_core::{CallMachine, Desk, Notes, RetireList, ScanReport};
