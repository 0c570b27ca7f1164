// A move of the clock, whatever the call does after it. Where movers answer pending requests their machine makes it.
ghost use Rattle.std.specs.Prelude.{◌≡◌, ◌≤◌, ◌+◌, false};
ghost use Rattle.wfe_core.specs.defs.declared.call.ClockMove.TheVariants.{Still as StillMove};
ghost use Rattle.wfe_core.specs.words.Place.Place.{Clock};
ghost use Rattle.wfe_core.specs.words.Schemes.{moves as do_move};
ghost use Rattle.wfe_core.specs.Calls.{AfterScan, ReadGuard, Runs, Scans, Tidies};
ghost use Rattle.wfe_core.specs.DeskHeld.{HasRoom};
ghost use Rattle.wfe_core.specs.Memory.{Cas as Exchanges};
ghost use Rattle.wfe_core.specs.Phases.Base.{Move as Moving};
ghost use Rattle.wfe_core.specs.Phases.MoveAt.{LoadEra};
ghost use Rattle.wfe_core.specs.Rounds.{first_tidy, helps as do_help};
ghost use Rattle.wfe_core.specs.Steps.{after_move};
ghost use Rattle.wfe_drive_words.specs.drive_cells.Spots.{spotted};
ghost use Rattle.wfe_drive_words.specs.Called.{Here, at_phase};
ghost use Rattle.wfe_drive_words.specs.Path.{Leads};

use crate::base_run::run;
use wfe_core::{ClockMove, Desk, Op, Post, SchemeKind};
use wfe_drive_words::{Located, Words, load_clock, step};
use wfe_help::MoveClock;

/// Moves the clock, where the scheme has retirements move it, and answers the outcome; `Still` where there is
/// none.
#[inline(always)]
pub fn move_clock<W: Words>(words: &mut W, post: &mut Post, desk: &mut Desk) -> ClockMove
    requires valid { W.valid words.old }
    requires later { W.later words.old }
    requires here { (later : AfterScan) × (after_move later StillMove ≡ later) × Here (W.at words.old) (at_phase (first_tidy later post.old) post.old desk.old) }
    requires room { HasRoom desk.old post.old.layout }
    ensures valid { W.valid words.new }
    ensures later { W.later words.new }
    ensures same { W.same words.old words.new }
    ensures rest { W.rest words.new ≤ W.rest words.old }
    ensures room { HasRoom desk.new post.new.layout }
    ensures layout { post.new.layout ≡ post.old.layout }
    ensures standing { post.new.standing ≡ post.old.standing }
    ensures leads { (later : AfterScan) → after_move later StillMove ≡ later → Here (W.at words.old) (at_phase (first_tidy later post.old) post.old desk.old)
        → Leads (W.at words.old) (W.at words.new) (W.stands words.old) (W.stands words.new)
        (at_phase (first_tidy later post.old) post.old desk.old) (at_phase (Scans (after_move later result) (ReadGuard 0)) post.new desk.new) }
{
    let scheme = post.layout.config().scheme;
    if helps(scheme) {
        return run(words, MoveClock::new(true), post, desk);
    }
    if moves(scheme) {
        return advance(words, post, desk);
    }
    ClockMove::Still
}

// Moves the clock where movers answer no requests, in two steps.
#[inline(always)]
fn advance<W: Words>(words: &mut W, post: &mut Post, _desk: &Desk) -> ClockMove
    requires valid { W.valid words.old }
    requires later { W.later words.old }
    requires here { (later : AfterScan) × Here (W.at words.old) (at_phase (Runs (Tidies later) (Moving (LoadEra false))) post.old _desk.now) }
    ensures valid { W.valid words.new }
    ensures later { W.later words.new }
    ensures same { W.same words.old words.new }
    ensures rest { W.rest words.new ≤ W.rest words.old }
    ensures layout { post.new.layout ≡ post.old.layout }
    ensures standing { post.new.standing ≡ post.old.standing }
    ensures leads { (later : AfterScan) → Here (W.at words.old) (at_phase (Runs (Tidies later) (Moving (LoadEra false))) post.old _desk.now)
        → Leads (W.at words.old) (W.at words.new) (W.stands words.old) (W.stands words.new)
        (at_phase (Runs (Tidies later) (Moving (LoadEra false))) post.old _desk.now) (at_phase (Scans (after_move later result) (ReadGuard 0)) post.new _desk.now) }
{
    let era = step(words, load_clock(post)) as u32;
    post.steps += 1;
    if era == post.layout.config().last_era {
        return ClockMove::EraSpent { era };
    }
    let found = step(words, raise_clock(post, era));
    post.steps += 1;
    if found == era as u64 {
        return ClockMove::Moved { era: era + 1 };
    }
    ClockMove::Other { seen: found as u32 }
}

// An exchange of the clock, from an era to the next one.
#[inline(always)]
fn raise_clock(post: &Post, era: u32) -> Located
    ensures { result ≡ spotted post.now.layout (Exchanges Clock era (era + 1)) }
{
    let word = post.layout.clock();
    let op = Op::Cas {
        word,
        old: era as u64,
        new: era as u64 + 1,
    };
    Located::alone(&post.layout, op)
}

// Whether retirements move the clock.
#[inline(always)]
fn moves(kind: SchemeKind) -> bool
    ensures { result ≡ do_move kind }
{
    match kind {
        SchemeKind::He | SchemeKind::Ibr | SchemeKind::Wfe => true,
        SchemeKind::Hp => false,
    }
}

// Whether those that move it answer pending requests first.
#[inline(always)]
fn helps(kind: SchemeKind) -> bool
    ensures { result ≡ do_help kind }
{
    match kind {
        SchemeKind::Wfe => true,
        SchemeKind::He | SchemeKind::Ibr | SchemeKind::Hp => false,
    }
}
