// Who is told of each call of a run.

/// Who is told of each call of a run, before it and after it. A worker goes on once the gate has
/// returned, so that a gate may hold workers back.
pub trait Gate: Sync {
    /// The seat's call of this number, from 1, is made next.
    fn enter(&self, seat: u32, call: u64);

    /// The seat's call of this number was answered.
    fn answered(&self, seat: u32, call: u64);
}

/// A gate that holds nobody back.
#[derive(Clone, Copy)]
pub struct OpenGate;

impl Gate for OpenGate {
    fn enter(&self, _seat: u32, _call: u64) {}

    fn answered(&self, _seat: u32, _call: u64) {}
}
