// The guards in the order in which a scan reads them.
ghost use Rattle.std.specs.Prelude.{◌≡◌, ◌<◌, ◌/◌, ◌%◌, ◌==◌, ◌&&◌};
ghost use Rattle.laws.specs.ScanLaw.{guard_at};
ghost use Rattle.laws.specs.StateAt.{same_guard};
ghost use Rattle.laws.specs.Ranges.{GuardIn};

use wfe_defs::Guard;
use wfe_words::{Config, SchemeKind};

/// Whether it is the guard that is read after so many.
pub fn is_guard(config: Config, guard: Guard, number: u64) -> bool
    requires range { GuardIn config guard }
    ensures { result ≡ same_guard guard (guard_at config number) }
{
    let seats = config.seats as u64;
    match config.scheme {
        SchemeKind::He | SchemeKind::Hp => is_word(config, guard, number),
        SchemeKind::Ibr => is_whole(guard, number),
        SchemeKind::Wfe => {
            if number < seats {
                is_helper(guard, number)
            } else {
                is_word(config, guard, number - seats)
            }
        }
    }
}

fn is_helper(guard: Guard, number: u64) -> bool
    ensures { result ≡ same_guard guard (Guard.Helper number) }
{
    match guard {
        Guard::Helper { seat } => seat as u64 == number,
        _ => false,
    }
}

fn is_whole(guard: Guard, number: u64) -> bool
    ensures { result ≡ same_guard guard (Guard.Whole number) }
{
    match guard {
        Guard::Whole { seat } => seat as u64 == number,
        _ => false,
    }
}

fn is_word(config: Config, guard: Guard, number: u64) -> bool
    requires range { GuardIn config guard }
    ensures { result ≡ same_guard guard (Guard.Index (number / config.indexes) (number % config.indexes)) }
{
    match guard {
        Guard::Index { seat, index } => {
            let indexes = config.indexes as u64;
            seat as u64 == number / indexes && index as u64 == number % indexes
        }
        _ => false,
    }
}
