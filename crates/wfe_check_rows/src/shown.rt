// What guards publish.
ghost use Rattle.std.specs.Prelude.{◌≡◌};
ghost use Rattle.laws.specs.defs.Shown.{keeps as keeps_life, shown, shown_row};

use wfe_defs::{Interval, Lifetime, Shown, meets};

/// An interval, or none, as what a guard publishes.
pub fn of_span(span: Option<Interval>) -> Shown
    ensures { result ≡ shown span }
{
    match span {
        None => Shown::Nothing,
        Some(span) => Shown::Eras { span },
    }
}

/// A row, or none, as what a guard publishes.
pub fn of_row(slot: Option<u32>) -> Shown
    ensures { result ≡ shown_row slot }
{
    match slot {
        None => Shown::Nothing,
        Some(slot) => Shown::Row { slot },
    }
}

/// Whether what is published keeps a life.
pub fn keeps(life: Lifetime, value: Shown) -> bool
    ensures { result ≡ keeps_life life value }
{
    match value {
        Shown::Nothing => false,
        Shown::Eras { span } => meets(life, span),
        Shown::Row { slot } => life.slot == slot,
    }
}
