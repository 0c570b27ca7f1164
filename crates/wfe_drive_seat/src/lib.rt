//! A seat of the rig, whatever its calls, and its part of a unit (`seat.rt`). That is its post, its desk and the call under way
//! on it.
#![tactic(auto)]

mod letting;
mod seat;

pub use seat::{Engaged, SeatState, fresh_seats, move_list};
