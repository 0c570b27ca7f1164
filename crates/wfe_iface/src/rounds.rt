// The machines of a scheme's rounds, seen together.
use crate::Scheme;

/// Where the machines of a scheme's rounds stand, as one record. Each scheme has it.
pub trait Rounds: Scheme {
    ghost use Rattle.wfe_iface.specs.Schemes.{RoundPhases};

    /// Where each machine stands.
    ghost all_phases: { RoundPhases Self.Begin Self.Protect Self.Clear Self.Finish };
}

impl<S: Scheme> Rounds for S {
    ghost use Rattle.wfe_iface.specs.Schemes.{round_phases};

    ghost all_phases = { round_phases S.Begin.phase S.Protect.phase S.Clear.phase S.Finish.phase };
}
