// The rows that may go back: those whose lives nothing keeps that was read.
ghost use Rattle.std.specs.Prelude.{◌≡◌, drop};
ghost use Rattle.wfe_core.specs.defs.Shown.{keeps as is_kept, keeps_any};
ghost use Rattle.wfe_core.specs.Scan.{first_unmet as model_first_unmet};

use wfe_core::{Guard, Lifetime, RetireList, Shown, meets};

// What a guard published keeps a life.
#[inline(always)]
fn keeps(life: Lifetime, shown: Shown) -> bool
    ensures { result ≡ is_kept life shown }
{
    match shown {
        Shown::Nothing => false,
        Shown::Eras { span } => meets(life, span),
        Shown::Row { slot } => life.slot == slot,
    }
}

// Something that was read keeps a life.
#[inline(always)]
fn is_met(life: Lifetime, read: &[(Guard, Shown)]) -> bool
    ensures { result ≡ keeps_any life read.now }
{
    for seen in read {
        if keeps(life, seen.1) {
            return true;
        }
    }
    false
}

/// The first entry of the list from a place on whose life nothing keeps that was read, with its place.
#[inline(always)]
pub fn first_unmet(
    list: &RetireList,
    read: &[(Guard, Shown)],
    from: usize,
) -> Option<(usize, Lifetime)>
    ensures { result ≡ model_first_unmet read.now from (drop from list.now.lives) }
{
    let mut place = from;
    while place < list.len() {
        let life = list.get(place);
        if !is_met(life, read) {
            return Some((place, life));
        }
        place += 1;
    }
    None
}
