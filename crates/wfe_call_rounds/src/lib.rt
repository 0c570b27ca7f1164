//! How a call's rounds begin and end (`opening.rt`, `closing.rt`), and what comes after one (`leaving.rt`). They do so under
//! any scheme. After the last a row that was not linked is given up, or the row that was cut is retired (`reclaim.rt`), and when
//! that is due the clock is moved, where the scheme has it moved, and the list scanned (`tidy.rt`).
#![tactic(auto)]

mod closing;
mod ending;
mod last;
mod leaving;
mod opening;
mod reclaim;
mod then;
mod tidy;

pub use closing::{Closing, close, take_close};
pub use ending::{RoundEnd, no_room, with_clock};
pub use last::{Last, Over};
pub use leaving::{Leave, clear, pass, take_leave};
pub use opening::{Opening, open, take_open};
pub use reclaim::Reclaim;
pub use then::Then;
pub use tidy::Tidy;
pub use wfe_iface::{Follow, He, Hp, Ibr, Rounds, Scheme, Wfe};
pub use wfe_retire::birth_of;
