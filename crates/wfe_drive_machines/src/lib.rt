//! Calls of threads by machines (`under.rt`), and gets (`gets.rt`). Each kind of call has a loop of its own; a get drives a
//! machine where it asks for help, and where under 2GE its seat keeps a row. They are on the words of one seat, whatever holds
//! those words and whoever else changes them.
#![tactic(auto)]

mod gets;
mod under;

pub use gets::{GetUnder, drive_get};
pub use under::drive_under;
pub use wfe_bucketmap::{He, Hp, Ibr, Scheme, Wfe};
