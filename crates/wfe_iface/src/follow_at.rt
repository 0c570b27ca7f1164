// The step to come of a follow.
use wfe_core::{Machine, ProtectEnd};

// A step of the protection, or the load of the head again once the link led to a row.
#[derive(Drop)]
pub enum At<P: Machine<End = ProtectEnd>> {
    Protecting(P),
    Reloading { slot: u32, era: u32 },
}
