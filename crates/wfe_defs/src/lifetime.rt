// Lifetimes of rows and the intervals that guards publish, both in eras.
ghost use Rattle.std.specs.Prelude.{◌≡◌};
ghost use Rattle.wfe_defs.specs.Meets.{meets as does_meet};

/// Eras that a guard publishes, both ends included.
#[derive(Clone, Copy, Debug, PartialEq, Eq)]
pub struct Interval {
    pub lo: u32,
    pub hi: u32,
}

/// The life of a row, in eras.
#[derive(Clone, Copy, Debug, PartialEq, Eq)]
pub struct Lifetime {
    pub slot: u32,
    /// The era in which the row was given.
    pub birth: u32,
    /// The era in which the row was retired, or 0 while it is not.
    pub retire: u32,
}

/// Whether a lifetime and an interval have an era in common. A row whose life meets no published
/// interval may be given back (Ramalhete and Correia 2017; Wen and others 2018).
pub fn meets(life: Lifetime, span: Interval) -> bool
    ensures { result ≡ does_meet life span }
{
    life.birth <= span.hi && (life.retire == 0 || span.lo <= life.retire)
}
