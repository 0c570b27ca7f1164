//! Hold, release, drop: machines, a file each (`hold.rt`, `letting.rt`). A hold keeps the row of a key, over any scheme.
#![tactic(auto)]

mod drop_index;
mod hold;
mod hold_at;
mod letting;
mod release;

pub use drop_index::DropIndex;
pub use hold::Hold;
pub use release::Release;
