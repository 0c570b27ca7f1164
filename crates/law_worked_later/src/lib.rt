//! Worked records of what later trace versions have, and wrong ones (`Copies.antt`, `Leaves.antt`, `Hazards.antt`). That is rows
//! kept at more indexes than one, seats that leave, and hazard pointers. They are as those of `law_worked`. Each function here does
//! nothing, and carries a theorem.
#![tactic(auto)]

pub mod copied;
pub mod left;
pub mod seen;
