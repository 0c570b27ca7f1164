// Why work ends early.
ghost use Rattle.std.specs.Prelude.{◌≡◌};

use wfe_outside::{Failed, NoMemory};

/// What the outside did not give.
#[derive(Clone, Copy, Debug, PartialEq, Eq)]
pub enum Fault {
    Write,
    Memory,
}

impl From<Failed> for Fault {
    ghost use Rattle.wfe_server_out.specs.declared.fault.Fault.TheVariants as faults;

    ghost from_gives = { λ _ fault. fault ≡ faults.Write };

    fn from(_: Failed) -> Fault {
        Fault::Write
    }
}

impl From<NoMemory> for Fault {
    ghost use Rattle.wfe_server_out.specs.declared.fault.Fault.TheVariants as faults;

    ghost from_gives = { λ _ fault. fault ≡ faults.Memory };

    fn from(_: NoMemory) -> Fault {
        Fault::Memory
    }
}
