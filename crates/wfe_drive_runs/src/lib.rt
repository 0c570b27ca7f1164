//! Pieces of threads' calls (`opening.rt`, `rows.rt`, `retirement.rt`). They are on the words of one seat: runs of a machine, a
//! protection by which the seat is as the model's, the beginning and the end of a round, a row taken and written, a retirement,
//! and the steps at the queue's two ends (`tail.rt`, `front.rt`). Each serves every call.
#![tactic(auto)]

mod base_run;
mod clock_run;
mod fill;
mod follow;
mod followed_run;
mod front;
mod hold;
mod item;
mod item_row;
mod opening;
mod retirement;
mod round_end;
mod rows;
mod scan_run;
mod span;
mod tail;
mod tidy_run;

pub use base_run::run;
pub use fill::{store_cell, write_item};
pub use follow::follow_next;
pub use front::{read_end, swing_tail, take};
pub use hold::hold_by_index;
pub use item::Item;
pub use item_row::fill_item;
pub use opening::open_round;
pub use retirement::retire;
pub use round_end::{close_again, close_next, close_round};
pub use rows::{give_up, take_row};
pub use span::{close_span, hold_ibr, open_span};
pub use tail::{append, pass_tail, read_tail};
pub use tidy_run::tidy;
pub use wfe_call_rounds::{RoundEnd, no_room, with_clock};
pub use wfe_drive_words::{
    Located, Words, answers_leave_groups, bucket_for, drive_apart, drive_on, get_guarded,
    get_ibr_in, histories_ready_seats, load_cell, note_steps, step,
};
