// A protection of the next link of the queue's head row, by which the seat is as the model's.
ghost use Rattle.std.specs.Prelude.{◌≡◌, ◌<◌, ◌≤◌, ◌+◌, ◌^◌, ℕ, IsSome, false};
ghost use Rattle.wfe_core.specs.Calls.{Runs, Why};
ghost use Rattle.wfe_core.specs.Dequeue.{follow_base};
ghost use Rattle.wfe_core.specs.DeskHeld.{HasRoom, desk_of};
ghost use Rattle.wfe_core.specs.Memory.{Load as Loads};
ghost use Rattle.wfe_core.specs.Phases.Base.{Reload};
ghost use Rattle.wfe_core.specs.Phases.Ending.{Followed as FollowedEnd};
ghost use Rattle.wfe_core.specs.Phases.ProtectAt.{PublishRequest};
ghost use Rattle.wfe_core.specs.Ready.{LinkFits, follow_within};
ghost use Rattle.wfe_core.specs.Rounds.{kept_row};
ghost use Rattle.wfe_core.specs.Valid.{IsValid};
ghost use Rattle.wfe_core.specs.defs.declared.event.Root.TheVariants.{Next as NextOf};
ghost use Rattle.wfe_core.specs.words.Place.Place.{Head};
ghost use Rattle.wfe_core.specs.words.Schemes.{has_one_interval};
ghost use Rattle.wfe_core.specs.words.declared.config.SchemeKind.TheVariants.{Ibr as IbrKind};
ghost use Rattle.wfe_drive_words.specs.drive_cells.Spots.{spotted};
ghost use Rattle.wfe_drive_words.specs.Called.{Here, at_phase};
ghost use Rattle.wfe_drive_runs.specs.Following.{followed_trial};
ghost use Rattle.wfe_drive_words.specs.Path.{held_at, protecting};
ghost use Rattle.wfe_drive_runs.specs.Pieces.{IsFree, IsSpanned, LeadsSo};

use crate::followed_run::run_followed;
use wfe_core::{Desk, FollowEnd, Interval, Op, Post, ProtectEnd, Root, SchemeKind};
use wfe_drive_words::{
    Bounded, ByIndex, Guarded, He, Hp, Located, Wfe, WfeProtect, Words, protect_within, step,
};

/// Protects the next link of the head's row at index 1, under any scheme, and holds the row to which it
/// leads where the head is still that row's. Under 2GE an interval stands. The type names the code that it is part of, which has
/// a copy of its own.
#[inline(always)]
pub fn follow_next<W: Words, C>(
    words: &mut W,
    post: &mut Post,
    desk: &mut Desk,
    parent: u32,
) -> FollowEnd
    requires valid { W.valid words.old }
    requires free { IsFree post.old }
    requires spanned { IsSpanned post.old }
    requires here { (why : Why) × Here (W.at words.old) (at_phase (Runs why (follow_base post.old.layout.config.scheme parent)) post.old desk.old) }
    requires room { HasRoom desk.old post.old.layout }
    ensures valid { W.valid words.new }
    ensures later { W.later words.new }
    ensures same { W.same words.old words.new }
    ensures rest { W.rest words.new < W.rest words.old }
    ensures room { HasRoom desk.new post.new.layout }
    ensures layout { post.new.layout ≡ post.old.layout }
    ensures free { IsFree post.new }
    ensures within { follow_within result post.new }
    ensures leads { (why : Why) → Here (W.at words.old) (at_phase (Runs why (follow_base post.old.layout.config.scheme parent)) post.old desk.old)
        → LeadsSo (W.at words.old) (W.at words.new) (W.stands words.old) (W.stands words.new) (at_phase (Runs why (follow_base post.old.layout.config.scheme parent)) post.old desk.old) why (FollowedEnd result) post.new desk.new }
{
    match post.layout.config().scheme {
        SchemeKind::Ibr => follow_ibr(words, post, desk, parent),
        _ => follow_by_index::<W, C>(words, post, desk, parent),
    }
}

// Under a scheme that clears an index by a step. Where tries are used up it asks for help.
#[inline(always)]
fn follow_by_index<W: Words, C>(
    words: &mut W,
    post: &mut Post,
    desk: &mut Desk,
    parent: u32,
) -> FollowEnd
    requires valid { W.valid words.old }
    requires clears { has_one_interval post.old.layout.config.scheme ≡ false }
    requires here { (why : Why) × Here (W.at words.old) (at_phase (Runs why (follow_base post.old.layout.config.scheme parent)) post.old desk.old) }
    requires room { HasRoom desk.old post.old.layout }
    ensures valid { W.valid words.new }
    ensures later { W.later words.new }
    ensures same { W.same words.old words.new }
    ensures rest { W.rest words.new < W.rest words.old }
    ensures room { HasRoom desk.new post.new.layout }
    ensures layout { post.new.layout ≡ post.old.layout }
    ensures within { follow_within result post.new }
    ensures leads { (why : Why) → Here (W.at words.old) (at_phase (Runs why (follow_base post.old.layout.config.scheme parent)) post.old desk.old)
        → LeadsSo (W.at words.old) (W.at words.new) (W.stands words.old) (W.stands words.new) (at_phase (Runs why (follow_base post.old.layout.config.scheme parent)) post.old desk.old) why (FollowedEnd result) post.new desk.new }
{
    match post.layout.config().scheme {
        SchemeKind::He => follow_under::<W, He>(words, post, desk, parent),
        SchemeKind::Wfe => follow_under::<W, Wfe>(words, post, desk, parent),
        SchemeKind::Hp => follow_under::<W, Hp>(words, post, desk, parent),
        SchemeKind::Ibr => unreachable!(),
    }
}

// The same under a scheme that a type names.
#[inline(always)]
fn follow_under<W: Words, P: ByIndex>(
    words: &mut W,
    post: &mut Post,
    desk: &mut Desk,
    parent: u32,
) -> FollowEnd
    requires valid { W.valid words.old }
    requires scheme { post.old.layout.config.scheme ≡ P.kind }
    requires here { (why : Why) × Here (W.at words.old) (at_phase (Runs why (follow_base post.old.layout.config.scheme parent)) post.old desk.old) }
    requires room { HasRoom desk.old post.old.layout }
    ensures valid { W.valid words.new }
    ensures later { W.later words.new }
    ensures same { W.same words.old words.new }
    ensures rest { W.rest words.new < W.rest words.old }
    ensures room { HasRoom desk.new post.new.layout }
    ensures layout { post.new.layout ≡ post.old.layout }
    ensures within { follow_within result post.new }
    ensures leads { (why : Why) → Here (W.at words.old) (at_phase (Runs why (follow_base post.old.layout.config.scheme parent)) post.old desk.old)
        → LeadsSo (W.at words.old) (W.at words.new) (W.stands words.old) (W.stands words.new) (at_phase (Runs why (follow_base post.old.layout.config.scheme parent)) post.old desk.old) why (FollowedEnd result) post.new desk.new }
{
    let place = *post;
    match P::protect(words, &place, 1, Root::Next(parent)) {
        Bounded::Within(guarded) => follow_link(words, post, desk, parent, guarded),
        Bounded::Used { steps } => ask(words, post, desk, parent, steps),
    }
}

// Under 2GE, within the interval that stands.
#[inline(always)]
fn follow_ibr<W: Words>(words: &mut W, post: &mut Post, _desk: &Desk, parent: u32) -> FollowEnd
    requires valid { W.valid words.old }
    requires scheme { post.old.layout.config.scheme ≡ IbrKind }
    requires span { IsSome post.old.span }
    requires here { (why : Why) × Here (W.at words.old) (at_phase (Runs why (follow_base IbrKind parent)) post.old _desk.now) }
    ensures valid { W.valid words.new }
    ensures later { W.later words.new }
    ensures same { W.same words.old words.new }
    ensures rest { W.rest words.new < W.rest words.old }
    ensures layout { post.new.layout ≡ post.old.layout }
    ensures kept { kept_row post.new ≡ kept_row post.old }
    ensures within { follow_within result post.new }
    ensures leads { (why : Why) → Here (W.at words.old) (at_phase (Runs why (follow_base IbrKind parent)) post.old _desk.now)
        → LeadsSo (W.at words.old) (W.at words.new) (W.stands words.old) (W.stands words.new) (at_phase (Runs why (follow_base IbrKind parent)) post.old _desk.now) why (FollowedEnd result) post.new _desk.now }
{
    let span = post.span.unwrap();
    let guarded = protect_within(words, post, Root::Next(parent), span.lo, span.hi);
    post.span = Some(Interval {
        lo: span.lo,
        hi: guarded.era,
    });
    follow_link(words, post, _desk, parent, guarded)
}

// The next link was protected: where it leads to a row the head is loaded again.
#[inline(always)]
fn follow_link<W: Words>(
    words: &mut W,
    post: &mut Post,
    _desk: &Desk,
    parent: u32,
    guarded: Guarded,
) -> FollowEnd
    requires valid { W.valid words.old }
    requires later { W.later words.old }
    requires few { post.old.steps < 2 ^ 62 }
    requires some { guarded.steps < 2 ^ 62 + 4 }
    requires here { (why : Why) × (n : ℕ) × Here (W.at words.old) (held_at (followed_trial why (desk_of _desk.now) 0 post.old.steps) 1 (NextOf parent) n guarded.link guarded.era (post.old.steps + guarded.steps) post.old) }
    ensures valid { W.valid words.new }
    ensures later { W.later words.new }
    ensures same { W.same words.old words.new }
    ensures rest { W.rest words.new ≤ W.rest words.old }
    ensures layout { post.new.layout ≡ post.old.layout }
    ensures kept { kept_row post.new ≡ kept_row post.old }
    ensures within { follow_within result post.new }
    ensures leads { (why : Why) (n : ℕ) → Here (W.at words.old) (held_at (followed_trial why (desk_of _desk.now) 0 post.old.steps) 1 (NextOf parent) n guarded.link guarded.era (post.old.steps + guarded.steps) post.old)
        → LeadsSo (W.at words.old) (W.at words.new) (W.stands words.old) (W.stands words.new) (held_at (followed_trial why (desk_of _desk.now) 0 post.old.steps) 1 (NextOf parent) n guarded.link guarded.era (post.old.steps + guarded.steps) post.old) why (FollowedEnd result) post.new _desk.now }
{
    post.steps += guarded.steps;
    if guarded.link == 0 {
        return FollowEnd::NoNext;
    }
    reload(words, post, _desk, parent, guarded.link - 1)
}

// The tries are used up after so many steps.
#[cold]
#[inline(never)]
fn ask<W: Words>(
    words: &mut W,
    post: &mut Post,
    desk: &mut Desk,
    parent: u32,
    steps: u64,
) -> FollowEnd
    requires valid { W.valid words.old }
    requires later { W.later words.old }
    requires here { (why : Why) × Here (W.at words.old) (protecting (followed_trial why (desk_of desk.old) steps (post.old.steps + steps)) 1 (NextOf parent) PublishRequest post.old) }
    requires room { HasRoom desk.old post.old.layout }
    ensures valid { W.valid words.new }
    ensures later { W.later words.new }
    ensures same { W.same words.old words.new }
    ensures rest { W.rest words.new < W.rest words.old }
    ensures room { HasRoom desk.new post.new.layout }
    ensures layout { post.new.layout ≡ post.old.layout }
    ensures within { follow_within result post.new }
    ensures leads { (why : Why) → Here (W.at words.old) (protecting (followed_trial why (desk_of desk.old) steps (post.old.steps + steps)) 1 (NextOf parent) PublishRequest post.old)
        → LeadsSo (W.at words.old) (W.at words.new) (W.stands words.old) (W.stands words.new) (protecting (followed_trial why (desk_of desk.old) steps (post.old.steps + steps)) 1 (NextOf parent) PublishRequest post.old) why (FollowedEnd result) post.new desk.new }
{
    post.steps += steps;
    let machine = WfeProtect::asking(1, Root::Next(parent), steps);
    match run_followed(words, machine, post, desk, parent) {
        ProtectEnd::Held { slot, .. } => reload(words, post, desk, parent, slot),
        ProtectEnd::Null => FollowEnd::NoNext,
    }
}

// The head is loaded again: where it is still the parent's link, the row is held from here on.
#[inline(always)]
fn reload<W: Words>(
    words: &mut W,
    post: &mut Post,
    _desk: &Desk,
    parent: u32,
    slot: u32,
) -> FollowEnd
    requires valid { W.valid words.old }
    requires later { W.later words.old }
    requires here { (why : Why) × (era : ℕ) × (n : ℕ) × Here (W.at words.old) (at_phase (Runs why (Reload parent 1 slot era n)) post.old _desk.now) }
    ensures valid { W.valid words.new }
    ensures later { W.later words.new }
    ensures same { W.same words.old words.new }
    ensures rest { W.rest words.new < W.rest words.old }
    ensures layout { post.new.layout ≡ post.old.layout }
    ensures kept { kept_row post.new ≡ kept_row post.old }
    ensures within { follow_within result post.new }
    ensures leads { (why : Why) (era n : ℕ) → Here (W.at words.old) (at_phase (Runs why (Reload parent 1 slot era n)) post.old _desk.now)
        → LeadsSo (W.at words.old) (W.at words.new) (W.stands words.old) (W.stands words.new) (at_phase (Runs why (Reload parent 1 slot era n)) post.old _desk.now) why (FollowedEnd result) post.new _desk.now }
{
    let seen = step(words, load_head(post));
    post.steps += 1;
    if seen != parent as u64 + 1 {
        return FollowEnd::RootMoved { seen };
    }
    post.standing[1] = Some(slot);
    FollowEnd::Followed { slot }
}

// A load of the queue's head.
#[inline(always)]
fn load_head(post: &Post) -> Located
    requires { IsValid post.now }
    ensures { result ≡ spotted post.now.layout (Loads Head) }
{
    let word = post.layout.head();
    Located::end(&post.layout, Op::Load { word })
}
