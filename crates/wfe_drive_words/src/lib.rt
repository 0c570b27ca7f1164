//! One seat's words (`words.rt`), threads' protections (`by_index.rt`) and gets (`get.rt`). The steps on these words follow one
//! another: those of a machine, or of a protection and a get without one.
#![tactic(auto)]

mod apart;
mod asking;
mod by_index;
mod facts;
mod found;
mod get;
mod get_span;
mod hazard;
mod machine;
mod path;
mod protect;
mod within;
mod words;

pub use apart::drive_apart;
pub use asking::{Bounded, try_within};
pub use by_index::ByIndex;
pub use facts::{answers_leave_groups, histories_ready_seats};
pub use get::{bucket_for, get_guarded, note_steps, root_for};
pub use get_span::{begin_span, get_ibr_in, store_none};
pub use machine::drive_on;
pub use path::{
    any_step, load_cell, load_clock, load_link, publish, publish_as, publishes_rows, step,
};
pub use protect::{Guarded, Tried, try_on, try_once};
pub use wfe_bucketmap_read::{He, Hp, Wfe};
pub use wfe_drive_cells::Located;
pub use wfe_fast::WfeProtect;
pub use within::{protect_within, store_span};
pub use words::Words;
