//! Hazard pointers: `protect.rt`, `clear.rt`. They are as Michael has them (2004): a protection publishes the link that it has
//! loaded and loads it again, until it is still the same, and a clear withdraws it.
#![tactic(auto)]

mod clear;
mod protect;

pub use clear::HpClear;
pub use protect::HpProtect;
