//! Events, calls, answers, commands (`event.rt`, `call.rt`). They are what a run tells and what a trace says.
#![tactic(auto)]

mod call;
mod command;
mod event;
mod fold;
mod lifetime;
mod shown;

pub use call::{Answer, Call, ClockMove};
pub use command::Command;
pub use event::{Event, Guard, Root};
pub use fold::{Change, fold_bucket};
pub use lifetime::{Interval, Lifetime, meets};
pub use shown::Shown;

/// Memory ran out.
#[derive(Clone, Copy, Debug, PartialEq, Eq)]
pub struct NoMemory;
