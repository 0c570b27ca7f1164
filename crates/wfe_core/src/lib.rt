//! The model (`Machine.antt`, `Steps.antt`, `World.antt`), what machines share. That is what a seat does at each atomic step:
//! operations, local states, machines, and the World that they move; and in `src` the types and traits of the code.
#![tactic(auto)]

mod call;
mod desk;
mod ends;
mod hold_link;
mod laws;
mod links;
mod machine;
mod op;
mod post;
mod told;

pub use call::CallMachine;
pub use desk::{Desk, Notes, RetireList, ScanReport};
pub use ends::{AllocateEnd, FollowEnd, ProtectEnd};
pub use hold_link::{
    hold, index_word, linked_row, one_era, protect_end, publish_index, shown_word,
};
pub use laws::seats_stay_in_place;
pub use links::{link_word_number, root_at};
pub use machine::Machine;
pub use op::Op;
pub use post::Post;
pub use told::Told;
pub use wfe_defs::{
    Answer, Call, Change, ClockMove, Event, Guard, Interval, Lifetime, NoMemory, Root, Shown, meets,
};
pub use wfe_words::{
    Config, Layout, Life, Link, Request, Reservation, SchemeKind, Span, life_word, link_word,
    read_life, read_request, read_reservation, request_word, reservation_word, span_word,
};
