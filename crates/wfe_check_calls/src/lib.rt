//! Checker: calls, cuts, blocks of scans (`seat.rt`), steps of protections (`step_count.rt`). That is of each seat's calls
//! whether one is under way, which it is, what it has done with its row, which rows it has cut, and how its scans come to
//! blocks; and of its steps how often an index word was published and whether its eras rose, how often an interval was raised,
//! whether a helper word has to be withdrawn, and how many rows went back. An entry is judged by this alone, at a cost that
//! does not grow with the record.
#![tactic(auto)]

mod blocks;
mod calls;
mod counts;
mod grant;
mod seat;
mod seat_steps;
mod step_count;
mod word;

pub use calls::Calls;
pub use step_count::Steps;
