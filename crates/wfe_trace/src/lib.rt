//! Reads a trace's lines (`read.rt`, `body.rt`), prints reasons (`print.rt`). Traces have the versions 1 to 5. No call here
//! takes memory.
#![tactic(auto)]

mod body;
mod item;
mod law;
mod print;
mod read;
mod reason;
mod setting;
mod verb;

pub use item::{Item, Mode};
pub use law::{lines_are_judged, record_lines_are_short, versions_have_their_lines};
pub use print::{print_bad, print_bad_record};
pub use read::{TraceState, read_line};
pub use reason::{BadLine, Reason, RecordReason, Status};
pub use setting::scheme_version;
pub use wfe_text::{
    Line, event_line_is_of_one_event, number_of, print_count, print_event, print_header,
    print_table, print_watch,
};
pub use wfe_words::{Config, Layout, SchemeKind};
