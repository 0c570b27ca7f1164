// What schemes can do.
ghost use Rattle.std.specs.Prelude.{◌≡◌};
ghost use Rattle.laws.specs.words.Schemes.{moves, publishes_rows};

use wfe_words::SchemeKind;

/// Whether index words publish rows, and no eras.
pub fn is_of_rows(scheme: SchemeKind) -> bool
    ensures { result ≡ publishes_rows scheme }
{
    match scheme {
        SchemeKind::Hp => true,
        _ => false,
    }
}

/// Whether retirements move the clock.
pub fn moves_clock(scheme: SchemeKind) -> bool
    ensures { result ≡ moves scheme }
{
    match scheme {
        SchemeKind::Hp => false,
        _ => true,
    }
}
