// The words that publish reservations or rows, in the order in which a scan reads them.
ghost use Rattle.std.specs.Prelude.{◌≡◌, ◌<◌, ◌≤◌, true};
ghost use Rattle.wfe_words.specs.Schemes.{publishes_rows as shows_rows};
ghost use Rattle.wfe_words.specs.Place.{has, is_valid, number as number_of};
ghost use Rattle.wfe_core.specs.defs.Shown.{shown, shown_row};
ghost use Rattle.wfe_core.specs.Guards.{guard_at as model_guard_at, guard_place, guards as model_guards, index_at as model_index_at, interval_in, eras_in as model_eras_in, published as model_published};
ghost use Rattle.wfe_core.specs.Ready.{ShownFits};
ghost use Rattle.wfe_core.specs.Scan.{reads_guard};
ghost use Rattle.wfe_core.specs.Valid.{Bounds, IsValid};

use wfe_core::{Event, Guard, Interval, Post, Shown, linked_row, one_era};
use wfe_words::{Config, Layout, SchemeKind, read_reservation, read_span};

/// How many guards a table of this setting has: the words that publish reservations or rows.
#[inline(always)]
pub fn guard_count(config: Config) -> u32
    requires { Bounds config }
    ensures { result ≡ model_guards config }
{
    match config.scheme {
        SchemeKind::He | SchemeKind::Hp => config.seats * config.indexes,
        SchemeKind::Ibr => config.seats,
        SchemeKind::Wfe => config.seats + config.seats * config.indexes,
    }
}

// The index word of a number, by seat and then index.
#[inline(always)]
fn index_at(config: Config, number: u32) -> Guard
    requires { Bounds config }
    ensures { result ≡ model_index_at config number }
{
    Guard::Index {
        seat: number / config.indexes,
        index: number % config.indexes,
    }
}

/// The guard that a scan reads after so many others. Under Wait-Free Eras the helper words come first:
/// a helper hands over to an index word before it withdraws its own, so what is handed over is met at
/// one of the two.
#[inline(always)]
pub fn guard_at(config: Config, number: u32) -> Guard
    requires { Bounds config }
    ensures { result ≡ model_guard_at config number }
{
    match config.scheme {
        SchemeKind::He | SchemeKind::Hp => index_at(config, number),
        SchemeKind::Ibr => Guard::Whole { seat: number },
        SchemeKind::Wfe => {
            if number < config.seats {
                Guard::Helper { seat: number }
            } else {
                index_at(config, number - config.seats)
            }
        }
    }
}

/// The number of a guard's word.
#[inline(always)]
pub fn guard_word(layout: Layout, guard: Guard) -> u32
    requires valid { is_valid layout ≡ true }
    requires there { has layout (guard_place guard) ≡ true }
    ensures { result ≡ number_of layout (guard_place guard) }
{
    match guard {
        Guard::Helper { seat } => layout.helper(seat),
        Guard::Index { seat, index } => layout.index(seat, index),
        Guard::Whole { seat } => layout.interval(seat),
    }
}

// The eras that a guard publishes with this word.
#[inline(always)]
fn eras_in(guard: Guard, word: u64) -> Option<Interval>
    ensures { result ≡ model_eras_in guard word }
{
    match guard {
        Guard::Whole { .. } => match read_span(word) {
            Some(Some(span)) => Some(Interval {
                lo: span.lo,
                hi: span.hi,
            }),
            _ => None,
        },
        _ => one_era(read_reservation(word).era),
    }
}

// The index words publish rows, and no eras.
#[inline(always)]
fn publishes_rows(config: Config) -> bool
    ensures { result ≡ shows_rows config.scheme }
{
    matches!(config.scheme, SchemeKind::Hp)
}

#[inline(always)]
fn eras_shown(span: Option<Interval>) -> Shown
    ensures { result ≡ shown span }
{
    match span {
        None => Shown::Nothing,
        Some(span) => Shown::Eras { span },
    }
}

#[inline(always)]
fn row_shown(slot: Option<u32>) -> Shown
    ensures { result ≡ shown_row slot }
{
    match slot {
        None => Shown::Nothing,
        Some(slot) => Shown::Row { slot },
    }
}

/// What a guard publishes with this word: a row under hazard pointers, else eras, or nothing.
#[inline(always)]
pub fn shown_by(post: &Post, guard: Guard, word: u64) -> Shown
    requires valid { IsValid post.now }
    requires fits { ShownFits (shows_rows post.now.layout.config.scheme) post.now word }
    ensures { result ≡ model_published (shows_rows post.now.layout.config.scheme) guard word }
{
    if publishes_rows(post.layout.config()) {
        row_shown(linked_row(word as u32))
    } else {
        eras_shown(eras_in(guard, word))
    }
}

// What a guard publishes with this word, and the event that tells so.
pub fn published(post: &Post, guard: Guard, word: u64) -> (Shown, Event)
    requires valid { IsValid post.now }
    requires fits { ShownFits (shows_rows post.now.layout.config.scheme) post.now word }
    ensures shown { result.0 ≡ model_published (shows_rows post.now.layout.config.scheme) guard word }
    ensures told { result.1 ≡ reads_guard (shows_rows post.now.layout.config.scheme) guard word }
{
    if publishes_rows(post.layout.config()) {
        let slot = linked_row(word as u32);
        (row_shown(slot), Event::Saw { guard, slot })
    } else {
        let span = eras_in(guard, word);
        (eras_shown(span), Event::Read { guard, span })
    }
}
