//! Cells for objects of one's own: their numbers, given back once no thread holds them (`user.rt`, `store.rt`), or their words
//! (`wide.rt`).
#![tactic(auto)]

mod blocks;
mod cells;
mod store;
mod swaps;
mod user;
mod wide;

pub use cells::Cells;
pub use store::none_is_lost;
pub use user::{Loaded, Swapped, User};
pub use wfe_table::{Config, EnqueueRefusal, MakeError, PutIfRefusal, SchemeKind, usual};
pub use wide::{Seen, SwapRefusal, WideCells, WideUser, versions_agree};
