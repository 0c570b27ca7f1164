//! Hazard Eras: `protect.rt`, `clear.rt`. They are as Ramalhete and Correia have them (2017): a protection publishes an era and
//! tries until the clock has not moved since, and a clear withdraws it.
#![tactic(auto)]

mod clear;
mod protect;

pub use clear::HeClear;
pub use protect::HeProtect;
