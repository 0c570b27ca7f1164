// What lies where a handle points. No value of it is made: a box of the one or of the other lies there.
use crate::joined::Joined;
use wfe_table::Closed;

#[derive(Drop)]
pub enum Kept {
    Seated { joined: Joined },
    Closed { closed: Closed },
}
