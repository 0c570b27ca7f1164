//! Moves of the clock (`move_clock.rt`), and help for readers (`help_at.rt`). Under Wait-Free Eras (Nikolaev and Ravindran
//! 2020) a mover first answers each request that it sees pending, and hands its own reservation over to the reader.
#![tactic(auto)]

mod help_at;
mod move_clock;

pub use help_at::asking_word;
pub use move_clock::{MoveClock, tell_helper};
