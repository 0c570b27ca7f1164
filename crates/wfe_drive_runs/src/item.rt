// What an enqueue keeps from round to round.

/// The row that was taken and not linked, whether a walk has failed, and the tail's row with its number.
#[derive(Clone, Copy)]
pub struct Item {
    pub value: u64,
    pub taken: Option<u32>,
    pub walked: bool,
    pub tail: u32,
    pub number: u64,
}
