// Where a get stands.
use crate::find::Find;
use wfe_call_rounds::{Closing, Opening};
use wfe_core::{Machine, ProtectEnd};

// Before its first step, the beginning of its round, the reads of the row, and the end of the round,
// with what it answers.
#[derive(Drop)]
pub enum GetAt<
    B: Machine<End = ()>,
    P: Machine<End = ProtectEnd>,
    C: Machine<End = ()>,
    F: Machine<End = ()>,
> {
    Starts,
    Opens(Opening<B, P>),
    Finds(Find),
    Closes {
        closing: Closing<C, F>,
        version: u64,
        value: Option<u64>,
    },
}
