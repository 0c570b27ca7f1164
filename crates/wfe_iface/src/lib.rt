//! The four schemes behind one trait (`schemes.rt`), and `follow.rt`. So a call is written once for all of them. A dequeue
//! follows the head's next link by `follow.rt`.
#![tactic(auto)]

mod follow;
mod follow_at;
mod kept;
mod rounds;
mod scheme;
mod schemes;

pub use follow::Follow;
pub use rounds::Rounds;
pub use scheme::Scheme;
pub use schemes::{He, Hp, Ibr, Wfe};
pub use wfe_core::FollowEnd;
