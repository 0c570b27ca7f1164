// Where a dequeue stands.
use super::dequeue_at::DequeueAt;
use wfe_call_rounds::{Leave, Opening, RoundEnd};
use wfe_core::{FollowEnd, Machine, ProtectEnd};

// Before its first step, or before another round; the beginning of a round; the work on the rows; the
// protection of the row after the head's; the clear of index 1, with how the round ends; and the rest of
// the round's end, with what comes after it. Each has one machine at most.
#[derive(Drop)]
pub enum State<
    B: Machine<End = ()>,
    P: Machine<End = ProtectEnd>,
    W: Machine<End = FollowEnd>,
    C: Machine<End = ()>,
    F: Machine<End = ()>,
> {
    Starts,
    Opens(Opening<B, P>),
    Works(DequeueAt),
    Follows(W),
    ClearsNext(RoundEnd, C),
    Leaves(Leave<C, F>),
}
