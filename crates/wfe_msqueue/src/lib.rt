//! Enqueue and dequeue over any scheme (`enqueue_at.rt`, `dequeue_at.rt`). They are the calls of the queue of Michael and Scott
//! (1996), each a machine.
#![tactic(auto)]

mod dequeue;
mod dequeue_at;
mod dequeue_state;
mod enqueue;
mod enqueue_at;
mod enqueue_state;
mod links;

pub use dequeue::Dequeue;
pub use enqueue::Enqueue;
