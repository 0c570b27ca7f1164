//! A record's text, read line by line and judged (`reader.rt`, `check.rt`). It says what its first bad line is, or the line up
//! to which its entries are not good. Who judges is given.
#![tactic(auto)]

mod check;
mod judge;
mod kind;
mod law;
mod progress;
mod reader;
mod stops;
mod verdict;

pub use check::{Ending, Unread, check_by};
pub use judge::Judge;
pub use kind::{Kind, read_kind};
pub use law::{headers_are_texts, kinds_are_texts};
pub use progress::Progress;
pub use reader::Reader;
pub use stops::{BadLine, Refusal, Stop};
pub use verdict::Verdict;
pub use wfe_defs::{Event, NoMemory};
