//! Puts and remove, over any scheme: one machine (`change.rt`, `change_at.rt`). The calls of the map that change no bucket are
//! handed on.
#![tactic(auto)]

mod change;
mod change_at;
mod change_ends;
mod change_state;
mod put;
mod put_if;
mod remove;

pub use put::Put;
pub use put_if::PutIf;
pub use remove::Remove;
pub use wfe_bucketmap_hold::{DropIndex, Hold, Release};
pub use wfe_bucketmap_read::{Advance, CopyIndex, Get, He, Hp, Ibr, Look, Scheme, Wfe};
