//! 2GE intervals: `begin.rt`, `protect.rt`, `withdraw.rt`. They are as Wen and others have them (2018): a seat publishes one
//! interval of eras, a protection raises its upper end until that is the clock, and the interval is withdrawn at the end.
#![tactic(auto)]

mod begin;
mod protect;
mod withdraw;

pub use begin::IbrBegin;
pub use protect::IbrProtect;
pub use withdraw::{IbrFinish, IbrRelease};
