//! The table that threads share: its calls (`calls.rt`), seats that leave (`handover.rt`), news from one seat to another
//! (`news.rt`), and its end. Each call on its seats is one walk of its machine, one atomic step after another, whatever the other
//! threads do between them. A call takes no memory and never waits. The table's end is `close.rt`, or where seats have left
//! `close_left.rt`; what it holds then is read into memory that is taken before.
#![tactic(auto)]

mod calls;
mod close;
mod close_left;
mod close_said;
mod facts;
mod handover;
mod leaving;
mod left;
mod list;
mod news;
mod part;
mod places;
mod seat;
mod shared;
mod take;
mod words;

pub use close::CloseError;
pub use close_left::CloseLeftError;
pub use facts::{calls_keep_pace, seats_meet_no_more_than_there_is};
pub use handover::{adopt, leave};
pub use left::LeftSeat;
pub use news::News;
pub use seat::Seat;
pub use shared::Shared;
pub use wfe_core::{
    Answer, Call, ClockMove, Config, Guard, Interval, Layout, Lifetime, NoMemory, Notes,
    RetireList, ScanReport, SchemeKind, Shown,
};
pub use wfe_table_end::{
    AdoptEnd, BucketRow, Closed, ClosedRoom, Done, Empty, EnqueueRefusal, Got, Looked, MakeError,
    PutIfRefusal, PutRefusal, Queued, RemoveRefusal, Scanned, Taken, usual,
};
pub use wfe_words::{BadConfig, Field};
