//! Whole calls of threads (`drive.rt`): puts, remove, queue without machines. They are on the words of one seat, whatever holds
//! those words and whoever else changes them. A put or a remove makes rounds: each protects the bucket's root, reads its row,
//! decides, writes a row of its own and exchanges the root, one step after another; a call of the queue protects an end, reads
//! its row, and links an item or takes one. What is rare is handed to a machine in a loop of its own (`wfe_drive_machines`).
#![tactic(auto)]

mod alone;
mod change;
mod dequeue;
mod drive;
mod ending;
mod enqueue;
mod exchange;
mod fill;
mod kept;
mod opening;
mod read;
mod write;

pub use alone::{Alone, DequeueCall, EnqueueCall, PutCall};
pub use drive::{drive_alone, drive_call};
pub use wfe_drive_machines::{GetUnder, He, Hp, Ibr, Wfe, drive_get};
pub use wfe_drive_runs::{Located, Words, answers_leave_groups, bucket_for, histories_ready_seats};
