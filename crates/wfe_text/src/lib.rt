//! Words of a line and their numbers (`words.rt`), a record's lines printed (`print.rt`). No call here takes memory.
#![tactic(auto)]

mod law;
mod line;
mod phrase;
mod print;
mod words;

pub use law::event_line_is_of_one_event;
pub use line::Line;
pub use print::{print_count, print_event, print_header, print_table, print_watch};
pub use words::{Words, is, number_of, words_of};
