//! The text of the laws, a file each; what is read off records (`StateAt.antt`, `StructuresAt.antt`); which are good (`Good.antt`). A
//! law says what may be told where, as a test of an entry at its position in a record. What each history keeps beyond the laws stands
//! in the files `History..`. Each function here does nothing, and carries a theorem.
#![tactic(auto)]

mod good;

pub use good::{blank_is_good, cuts_are_good, good_grows, lawful_is_good};
