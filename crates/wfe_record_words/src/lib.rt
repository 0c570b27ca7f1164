//! Reads the words of a record's line (`words.rt`), its first line (`header.rt`), events of keys and lists. It reads one word
//! after the other, and what single words say: numbers, guards, roots and values, each seat, index, row and bucket in its
//! range. Eras, versions, keys, values and counts may be any number that their type has. No call here takes memory.
#![tactic(auto)]

mod contents;
mod header;
mod words;

pub use contents::read_contents;
pub use header::{LAST_VERSION, exactly, read_header};
pub use words::{Words, number_below, since};
