// Which deleters were called. All its memory is taken when it is made, so that a call can always be
// added where there is room for it.
ghost use Rattle.std.specs.Prelude.{◌≡◌, ◌<◌, ◌≤◌, [], length, IfOk, Some, slice_get};
ghost use Rattle.wfe_final.specs.Ledgers.{with_call};

use std::alloc::Global;
use std::marker::Model;
use wfe_outside::NoMemory;

/// The deleters that were called, each by its id with the slot for which it was, in order. It is seen
/// as that list, and as the number of calls for which there is room still.
#[derive(Drop)]
pub struct Ledger {
    calls: Vec<(u64, u32)>,
}

impl Model for Ledger {
    ghost use Rattle.std.specs.Prelude.{◌-◌};
    ghost use Rattle.std.specs.Vec.{vec_capacity, vec_len};
    ghost use Rattle.wfe_final.specs.Ledgers.{LedgerNow};

    ghost Value = { LedgerNow };

    ghost view = { λ l. record { calls = l.calls.items; spare = vec_capacity l.calls - vec_len l.calls } };
}

impl Ledger {
    /// An empty ledger with room for so many calls. `NoMemory`: memory ran out.
    pub fn new(alloc: Global, room: usize) -> Result<Ledger, NoMemory>
        ensures empty { IfOk result (λ ledger. ledger.calls ≡ []) }
        ensures room { IfOk result (λ ledger. room ≤ ledger.spare) }
    {
        match Vec::with_capacity(alloc, room) {
            Ok(calls) => Ok(Ledger { calls }),
            Err(_) => Err(NoMemory),
        }
    }

    /// Adds a call, for which there is room. It takes no memory.
    pub fn add(&mut self, id: u64, slot: u32)
        requires { 0 < self.old.spare }
        ensures { self.new ≡ with_call id slot self.old }
    {
        self.calls.push_reserved((id, slot));
    }

    /// How many calls there are.
    pub fn len(&self) -> usize
        ensures { result ≡ length self.now.calls }
    {
        self.calls.len()
    }

    /// One of them, by its place from 0: the deleter's id, and the slot.
    pub fn get(&self, place: usize) -> (u64, u32)
        requires { place < length self.now.calls }
        ensures { slice_get self.now.calls place ≡ Some result }
    {
        self.calls[place]
    }
}
