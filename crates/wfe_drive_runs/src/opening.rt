// A round begins, whatever its task: an interval under 2GE, where none stands, and then the protection of a
// root.
ghost use Rattle.std.specs.Prelude.{◌≡◌, ◌<◌, ℕ, IfSome};
ghost use Rattle.wfe_core.specs.Calls.{Opens, Task};
ghost use Rattle.wfe_core.specs.DeskHeld.{HasRoom};
ghost use Rattle.wfe_core.specs.Phases.Ending.{Protected as ProtectedEnd};
ghost use Rattle.wfe_core.specs.Ready.{SlotFits};
ghost use Rattle.wfe_core.specs.Rounds.{round};
ghost use Rattle.wfe_core.specs.words.declared.config.SchemeKind.TheVariants.{Ibr as IbrKind};
ghost use Rattle.wfe_drive_words.specs.Called.{Here, at_phase};
ghost use Rattle.wfe_drive_runs.specs.Pieces.{IsFree, IsSpanned, LeadsSo, Outer, Protects, end_of};

use crate::hold::hold_by_index;
use crate::span::{hold_ibr, open_span};
use wfe_core::{Desk, Post, Root, SchemeKind};
use wfe_drive_words::Words;

/// Begins a round that protects its root at index 0, under any scheme, and answers the row that it holds
/// from then on. The type names the code that it is part of, which has a copy of its own: too large a function is compiled
/// into its caller only where it has no other.
#[inline(always)]
pub fn open_round<W: Words, C>(
    words: &mut W,
    post: &mut Post,
    desk: &mut Desk,
    root: Root,
) -> Option<u32>
    requires valid { W.valid words.old }
    requires outer { Outer root }
    requires free { IsFree post.old }
    requires here { (task : Task) × Protects task root post.old × Here (W.at words.old) (at_phase (round task post.old) post.old desk.old) }
    requires room { HasRoom desk.old post.old.layout }
    ensures valid { W.valid words.new }
    ensures later { W.later words.new }
    ensures same { W.same words.old words.new }
    ensures rest { W.rest words.new < W.rest words.old }
    ensures room { HasRoom desk.new post.new.layout }
    ensures layout { post.new.layout ≡ post.old.layout }
    ensures free { IsFree post.new }
    ensures spanned { IsSpanned post.new }
    ensures fits { IfSome result (λ slot. SlotFits post.new slot) }
    ensures leads { (task : Task) → Protects task root post.old → Here (W.at words.old) (at_phase (round task post.old) post.old desk.old) → (era : ℕ)
        × LeadsSo (W.at words.old) (W.at words.new) (W.stands words.old) (W.stands words.new) (at_phase (round task post.old) post.old desk.old) (Opens task) (ProtectedEnd (end_of result era)) post.new desk.new }
{
    match post.layout.config().scheme {
        SchemeKind::Ibr => open_ibr(words, post, desk, root),
        _ => hold_by_index(words, post, desk, 0, root),
    }
}

// The same under 2GE.
#[inline(always)]
fn open_ibr<W: Words>(words: &mut W, post: &mut Post, desk: &Desk, root: Root) -> Option<u32>
    requires valid { W.valid words.old }
    requires scheme { post.old.layout.config.scheme ≡ IbrKind }
    requires outer { Outer root }
    requires free { IsFree post.old }
    requires here { (task : Task) × Protects task root post.old × Here (W.at words.old) (at_phase (round task post.old) post.old desk.now) }
    ensures valid { W.valid words.new }
    ensures later { W.later words.new }
    ensures same { W.same words.old words.new }
    ensures rest { W.rest words.new < W.rest words.old }
    ensures layout { post.new.layout ≡ post.old.layout }
    ensures free { IsFree post.new }
    ensures spanned { IsSpanned post.new }
    ensures fits { IfSome result (λ slot. SlotFits post.new slot) }
    ensures leads { (task : Task) → Protects task root post.old → Here (W.at words.old) (at_phase (round task post.old) post.old desk.now) → (era : ℕ)
        × LeadsSo (W.at words.old) (W.at words.new) (W.stands words.old) (W.stands words.new) (at_phase (round task post.old) post.old desk.now) (Opens task) (ProtectedEnd (end_of result era)) post.new desk.now }
{
    let span = open_span(words, post, desk);
    hold_ibr(words, post, desk, 0, root, span)
}
