// What belongs to a slot, and is told once that the slot's last reader can be gone.
ghost use Rattle.std.specs.Prelude.{◌≡◌, ◌<◌, ℕ};
ghost use Rattle.wfe_final.specs.Ledgers.{with_call};

use crate::ledger::Ledger;

/// An object outside the table, as a file, a buffer or a node. It is called once, after its slot went
/// back, and is then dropped.
pub trait Deleter: Drop {
    /// Its id.
    ghost identity: { Self → ℕ };

    /// Its id.
    fn id(&self) -> u64
        ensures { result ≡ identity self.now };

    /// Its slot went back. It adds its id and the slot to the ledger, and nothing else.
    fn delete(&mut self, slot: u32, ledger: &mut Ledger)
        requires { 0 < ledger.old.spare }
        ensures { ledger.new ≡ with_call (identity self.old) slot ledger.old };
}
