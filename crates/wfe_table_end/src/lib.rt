//! What users of a threads' table are told: what its calls answer (`answers.rt`), why they refuse (`refusals.rt`), its usual setting
//! (`setting.rt`), and what it holds once it is closed, read off its words (`reading.rt`). All memory for reading is taken before the
//! table is closed (`room.rt`), and reading takes none.
#![tactic(auto)]

mod answers;
mod closed;
mod reading;
mod refusals;
mod room;
mod setting;

pub use answers::{AdoptEnd, Done, Got, Looked, Queued, Scanned, Taken};
pub use closed::{BucketRow, Closed};
pub use refusals::{Empty, EnqueueRefusal, MakeError, PutIfRefusal, PutRefusal, RemoveRefusal};
pub use room::ClosedRoom;
pub use setting::usual;
