// Where a change stands.
use super::change_at::ChangeAt;
use wfe_call_rounds::{Leave, Opening};
use wfe_core::{Machine, ProtectEnd};
use wfe_slots::{Allocate, WriteRow};

// Before its first step, or before another round; the beginning of a round; the work on the row; a row of
// its own; and the round's end, with what comes after it.
#[derive(Drop)]
pub enum State<
    B: Machine<End = ()>,
    P: Machine<End = ProtectEnd>,
    C: Machine<End = ()>,
    F: Machine<End = ()>,
> {
    Starts,
    Opens(Opening<B, P>),
    Works(ChangeAt),
    Fills(Fill),
    Leaves(Leave<C, F>),
}

// A row that is taken, and one that is written.
#[derive(Drop)]
pub enum Fill {
    Allocates(Allocate),
    Writes(WriteRow),
}
