// What guards publish, and which intervals may follow one another.
ghost use Rattle.std.specs.Prelude.{◌≡◌};
ghost use Rattle.laws.specs.words.Schemes.{has_one_interval};
ghost use Rattle.laws.specs.EraLaw.{is_one_era as is_one_era_of, same_interval as same_intervals, span_rises};
ghost use Rattle.laws.specs.HoldLaw.{is_alike as alike, is_blank as blank, own_guard as guard_of};
ghost use Rattle.laws.specs.StateAt.{is_index as is_index_of, same_guard as same_guards, same_span as same_spans, seat_of as seat_of_guard};
ghost use Rattle.laws.specs.StructuresAt.{same_value};

use wfe_defs::{Guard, Interval, Shown};
use wfe_words::SchemeKind;

/// Whether one interval of eras stands for a seat, whatever index protects.
pub fn is_one_interval(scheme: SchemeKind) -> bool
    ensures { result ≡ has_one_interval scheme }
{
    match scheme {
        SchemeKind::Ibr => true,
        _ => false,
    }
}

/// The guard of an index of a seat.
pub fn own_guard(scheme: SchemeKind, seat: u32, index: u32) -> Guard
    ensures { result ≡ guard_of scheme seat index }
{
    if is_one_interval(scheme) {
        Guard::Whole { seat }
    } else {
        Guard::Index { seat, index }
    }
}

/// The seat of a guard.
pub fn seat_of(guard: Guard) -> u32
    ensures { result ≡ seat_of_guard guard }
{
    match guard {
        Guard::Helper { seat } | Guard::Index { seat, .. } | Guard::Whole { seat } => seat,
    }
}

/// Whether the guard is an index word.
pub fn is_index(guard: Guard) -> bool
    ensures { result ≡ is_index_of guard }
{
    match guard {
        Guard::Index { .. } => true,
        _ => false,
    }
}

/// Whether two guards are one.
pub fn same_guard(one: Guard, other: Guard) -> bool
    ensures { result ≡ same_guards one other }
{
    match (one, other) {
        (Guard::Helper { seat: a }, Guard::Helper { seat: b }) => a == b,
        (Guard::Index { seat: a, index: i }, Guard::Index { seat: b, index: j }) => {
            a == b && i == j
        }
        (Guard::Whole { seat: a }, Guard::Whole { seat: b }) => a == b,
        _ => false,
    }
}

/// Whether both publish nothing, or the same interval.
pub fn same_span(one: Option<Interval>, other: Option<Interval>) -> bool
    ensures { result ≡ same_spans one other }
{
    match (one, other) {
        (None, None) => true,
        (Some(a), Some(b)) => a.lo == b.lo && a.hi == b.hi,
        _ => false,
    }
}

/// Whether both are intervals, and the same.
pub fn same_interval(one: Option<Interval>, other: Option<Interval>) -> bool
    ensures { result ≡ same_intervals one other }
{
    match (one, other) {
        (Some(a), Some(b)) => a.lo == b.lo && a.hi == b.hi,
        _ => false,
    }
}

/// Whether an interval is one era, where the scheme asks for that.
pub fn is_one_era(scheme: SchemeKind, span: Option<Interval>) -> bool
    ensures { result ≡ is_one_era_of scheme span }
{
    match span {
        None => true,
        Some(span) => is_one_interval(scheme) || span.lo == span.hi,
    }
}

/// Whether an interval that follows another keeps its lower end and has a later upper end.
pub fn rises(old: Option<Interval>, span: Option<Interval>) -> bool
    ensures { result ≡ span_rises old span }
{
    match (old, span) {
        (Some(old), Some(span)) => span.lo == old.lo && old.hi < span.hi,
        _ => true,
    }
}

/// Whether both are the same row, or none.
pub fn same_row(one: Option<u32>, other: Option<u32>) -> bool
    ensures { result ≡ same_value one other }
{
    match (one, other) {
        (None, None) => true,
        (Some(a), Some(b)) => a == b,
        _ => false,
    }
}

/// Whether nothing is published.
pub fn is_blank(value: Shown) -> bool
    ensures { result ≡ blank value }
{
    match value {
        Shown::Nothing => true,
        _ => false,
    }
}

/// Whether something is published exactly where something stands.
pub fn is_alike(value: Shown, bare: bool) -> bool
    ensures { result ≡ alike value bare }
{
    match value {
        Shown::Nothing => bare,
        _ => !bare,
    }
}
