//! The rig whose seats leave and take lists over (`units.rt`, `Parts.antt`). It is seen as the rig's table with each such seat
//! as the model has it.
#![tactic(auto)]

mod part;
mod rig;
mod units;

pub use rig::LeaveRig;
