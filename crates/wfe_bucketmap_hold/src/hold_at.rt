// Where a hold stands.
use wfe_call_rounds::{Closing, Opening};
use wfe_core::{Machine, ProtectEnd};

// Before its first step; the release of the row that was held before; before its round; the beginning
// of the round; and the end of the round where there is no row.
#[derive(Drop)]
pub enum HoldAt<
    B: Machine<End = ()>,
    P: Machine<End = ProtectEnd>,
    C: Machine<End = ()>,
    F: Machine<End = ()>,
    R: Machine<End = ()>,
> {
    Starts,
    Releases(R),
    Rounds,
    Opens(Opening<B, P>),
    Closes(Closing<C, F>),
}
