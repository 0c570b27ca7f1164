//! Reads an event's line of a record (`event.rt`, `Entry.antt`). A line is read without its line feed, as `wfe_text` prints it,
//! by the version and the setting of the first line, whose reader is handed on. No call here takes memory.
#![tactic(auto)]

mod event;

pub use event::read_event;
pub use wfe_record_words::{LAST_VERSION, read_header};
