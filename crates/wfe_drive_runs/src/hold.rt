// A protection of a root by which the seat is as the model's, under the schemes that clear an index by a
// step.
ghost use Rattle.std.specs.Prelude.{◌≡◌, ◌<◌, ◌+◌, ◌^◌, ℕ, IfSome, false};
ghost use Rattle.wfe_core.specs.Calls.{Runs, Why};
ghost use Rattle.wfe_core.specs.DeskHeld.{HasRoom, desk_of};
ghost use Rattle.wfe_core.specs.Phases.Ending.{Protected as ProtectedEnd};
ghost use Rattle.wfe_core.specs.Phases.ProtectAt.{PublishRequest};
ghost use Rattle.wfe_core.specs.Ready.{IndexFits, LinkFits, SlotFits};
ghost use Rattle.wfe_core.specs.Rounds.{protect_base};
ghost use Rattle.wfe_core.specs.Valid.{IsValid};
ghost use Rattle.wfe_core.specs.words.Schemes.{has_one_interval};
ghost use Rattle.wfe_drive_words.specs.Called.{Here, at_phase};
ghost use Rattle.wfe_drive_runs.specs.Pieces.{IsStood, LeadsSo, Outer, asked_trial, end_of};
ghost use Rattle.wfe_drive_words.specs.Path.{protecting};

use crate::base_run::run;
use wfe_core::{Desk, Post, ProtectEnd, Root, SchemeKind};
use wfe_drive_words::{Bounded, ByIndex, Guarded, He, Hp, Wfe, WfeProtect, Words};

/// Protects a root, and answers the row that it holds from then on. Where tries are used up it asks for help.
#[inline(always)]
pub fn hold_by_index<W: Words>(
    words: &mut W,
    post: &mut Post,
    desk: &mut Desk,
    index: u32,
    root: Root,
) -> Option<u32>
    requires valid { W.valid words.old }
    requires clears { has_one_interval post.old.layout.config.scheme ≡ false }
    requires outer { Outer root }
    requires here { (why : Why) × Here (W.at words.old) (at_phase (Runs why (protect_base post.old.layout.config.scheme index root)) post.old desk.old) }
    requires room { HasRoom desk.old post.old.layout }
    ensures valid { W.valid words.new }
    ensures later { W.later words.new }
    ensures same { W.same words.old words.new }
    ensures rest { W.rest words.new < W.rest words.old }
    ensures room { HasRoom desk.new post.new.layout }
    ensures layout { post.new.layout ≡ post.old.layout }
    ensures fits { IfSome result (λ slot. SlotFits post.new slot) }
    ensures leads { (why : Why) → Here (W.at words.old) (at_phase (Runs why (protect_base post.old.layout.config.scheme index root)) post.old desk.old) → (era : ℕ)
        × LeadsSo (W.at words.old) (W.at words.new) (W.stands words.old) (W.stands words.new) (at_phase (Runs why (protect_base post.old.layout.config.scheme index root)) post.old desk.old) why (ProtectedEnd (end_of result era)) post.new desk.new }
{
    match post.layout.config().scheme {
        SchemeKind::He => hold_under::<W, He>(words, post, desk, index, root),
        SchemeKind::Wfe => hold_under::<W, Wfe>(words, post, desk, index, root),
        SchemeKind::Hp => hold_under::<W, Hp>(words, post, desk, index, root),
        SchemeKind::Ibr => unreachable!(),
    }
}

// The same under a scheme that a type names.
#[inline(always)]
fn hold_under<W: Words, P: ByIndex>(
    words: &mut W,
    post: &mut Post,
    desk: &mut Desk,
    index: u32,
    root: Root,
) -> Option<u32>
    requires valid { W.valid words.old }
    requires scheme { post.old.layout.config.scheme ≡ P.kind }
    requires outer { Outer root }
    requires here { (why : Why) × Here (W.at words.old) (at_phase (Runs why (protect_base post.old.layout.config.scheme index root)) post.old desk.old) }
    requires room { HasRoom desk.old post.old.layout }
    ensures valid { W.valid words.new }
    ensures later { W.later words.new }
    ensures same { W.same words.old words.new }
    ensures rest { W.rest words.new < W.rest words.old }
    ensures room { HasRoom desk.new post.new.layout }
    ensures layout { post.new.layout ≡ post.old.layout }
    ensures fits { IfSome result (λ slot. SlotFits post.new slot) }
    ensures leads { (why : Why) → Here (W.at words.old) (at_phase (Runs why (protect_base post.old.layout.config.scheme index root)) post.old desk.old) → (era : ℕ)
        × LeadsSo (W.at words.old) (W.at words.new) (W.stands words.old) (W.stands words.new) (at_phase (Runs why (protect_base post.old.layout.config.scheme index root)) post.old desk.old) why (ProtectedEnd (end_of result era)) post.new desk.new }
{
    let place = *post;
    match P::protect(words, &place, index, root) {
        Bounded::Within(guarded) => stand(post, index, guarded),
        Bounded::Used { steps } => ask(words, post, desk, index, root, steps),
    }
}

// The row to which a protected root leads stands at the index, if it leads to one.
#[inline(always)]
pub fn stand(post: &mut Post, index: u32, guarded: Guarded) -> Option<u32>
    requires own { IsValid post.old }
    requires index { IndexFits post.old index }
    requires fits { LinkFits post.old guarded.link }
    requires few { post.old.steps < 2 ^ 62 }
    requires some { guarded.steps < 2 ^ 62 + 4 }
    ensures stood { IsStood index guarded.link (record post.old { steps = post.old.steps + guarded.steps }) post.new result }
{
    post.steps += guarded.steps;
    if guarded.link == 0 {
        return None;
    }
    let slot = guarded.link - 1;
    post.standing[index as usize] = Some(slot);
    Some(slot)
}

// The tries are used up after so many steps.
#[cold]
#[inline(never)]
fn ask<W: Words>(
    words: &mut W,
    post: &mut Post,
    desk: &mut Desk,
    index: u32,
    root: Root,
    steps: u64,
) -> Option<u32>
    requires valid { W.valid words.old }
    requires later { W.later words.old }
    requires here { (why : Why) × Here (W.at words.old) (protecting (asked_trial why (desk_of desk.old) steps (post.old.steps + steps)) index root PublishRequest post.old) }
    requires room { HasRoom desk.old post.old.layout }
    ensures valid { W.valid words.new }
    ensures later { W.later words.new }
    ensures same { W.same words.old words.new }
    ensures rest { W.rest words.new < W.rest words.old }
    ensures room { HasRoom desk.new post.new.layout }
    ensures layout { post.new.layout ≡ post.old.layout }
    ensures fits { IfSome result (λ slot. SlotFits post.new slot) }
    ensures leads { (why : Why) → Here (W.at words.old) (protecting (asked_trial why (desk_of desk.old) steps (post.old.steps + steps)) index root PublishRequest post.old) → (era : ℕ)
        × LeadsSo (W.at words.old) (W.at words.new) (W.stands words.old) (W.stands words.new) (protecting (asked_trial why (desk_of desk.old) steps (post.old.steps + steps)) index root PublishRequest post.old) why (ProtectedEnd (end_of result era)) post.new desk.new }
{
    post.steps += steps;
    match run(words, WfeProtect::asking(index, root, steps), post, desk) {
        ProtectEnd::Held { slot, .. } => Some(slot),
        ProtectEnd::Null => None,
    }
}
