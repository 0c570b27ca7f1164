// Rounds under 2GE of a seat that keeps no row: an interval begins where none stands, a root is protected
// within it, and the last round of a call ends it.
ghost use Rattle.std.specs.Prelude.{◌≡◌, ◌≤◌, ◌<◌, ◌+◌, [], ℕ, Some, None, IfSome, IsSome, slice_set};
ghost use Rattle.wfe_core.specs.words.declared.config.SchemeKind.TheVariants.{Ibr as IbrKind};
ghost use Rattle.wfe_core.specs.Calls.{Next, Runs, Task, Why};
ghost use Rattle.wfe_core.specs.Desks.{Desk as ModelDesk};
ghost use Rattle.wfe_core.specs.Phases.Ending.{Protected as ProtectedEnd};
ghost use Rattle.wfe_core.specs.Ready.{SlotFits};
ghost use Rattle.wfe_core.specs.Rounds.{closed, index_of, kept_row, opening, protect_base, round};
ghost use Rattle.wfe_drive_words.specs.drive_cells.Unit.{kept_desk};
ghost use Rattle.wfe_drive_words.specs.Called.{Here, at_phase};
ghost use Rattle.wfe_drive_words.specs.Path.{Leads};
ghost use Rattle.wfe_drive_runs.specs.Pieces.{Finishing, LeadsSo, Outer, TurnsTo, clearing_at, end_of};

use crate::hold::stand;
use wfe_core::{Desk, Interval, Post, Root};
use wfe_drive_words::{Words, begin_span, protect_within, step, store_none};

/// An interval begins where none stands. It answers the one that stands from then on.
#[inline(always)]
pub fn open_span<W: Words>(words: &mut W, post: &mut Post, _desk: &Desk) -> Interval
    requires valid { W.valid words.old }
    requires scheme { post.old.layout.config.scheme ≡ IbrKind }
    requires here { (task : Task) × Here (W.at words.old) (at_phase (round task post.old) post.old _desk.now) }
    ensures valid { W.valid words.new }
    ensures same { W.same words.old words.new }
    ensures rest { W.rest words.new ≤ W.rest words.old }
    ensures layout { post.new.layout ≡ post.old.layout }
    ensures standing { post.new.standing ≡ post.old.standing }
    ensures span { post.new.span ≡ Some result }
    ensures leads { (task : Task) → Here (W.at words.old) (at_phase (round task post.old) post.old _desk.now)
        → Leads (W.at words.old) (W.at words.new) (W.stands words.old) (W.stands words.new) (at_phase (round task post.old) post.old _desk.now) (at_phase (opening task post.new) post.new _desk.now) }
{
    match post.span {
        Some(span) => span,
        None => {
            let era = begin_span(words, post);
            let span = Interval { lo: era, hi: era };
            post.span = Some(span);
            post.steps += 2;
            span
        }
    }
}

/// Protects a root within the interval that stands, and answers the row that it holds from then on.
#[inline(always)]
pub fn hold_ibr<W: Words>(
    words: &mut W,
    post: &mut Post,
    _desk: &Desk,
    index: u32,
    root: Root,
    span: Interval,
) -> Option<u32>
    requires valid { W.valid words.old }
    requires scheme { post.old.layout.config.scheme ≡ IbrKind }
    requires span { post.old.span ≡ Some span }
    requires early { index < 2 }
    requires outer { Outer root }
    requires here { (why : Why) × Here (W.at words.old) (at_phase (Runs why (protect_base IbrKind index root)) post.old _desk.now) }
    ensures valid { W.valid words.new }
    ensures later { W.later words.new }
    ensures same { W.same words.old words.new }
    ensures rest { W.rest words.new < W.rest words.old }
    ensures layout { post.new.layout ≡ post.old.layout }
    ensures kept { kept_row post.new ≡ kept_row post.old }
    ensures spanned { IsSome post.new.span }
    ensures fits { IfSome result (λ slot. SlotFits post.new slot) }
    ensures leads { (why : Why) → Here (W.at words.old) (at_phase (Runs why (protect_base IbrKind index root)) post.old _desk.now) → (era : ℕ)
        × LeadsSo (W.at words.old) (W.at words.new) (W.stands words.old) (W.stands words.new) (at_phase (Runs why (protect_base IbrKind index root)) post.old _desk.now) why (ProtectedEnd (end_of result era)) post.new _desk.now }
{
    let guarded = protect_within(words, post, root, span.lo, span.hi);
    post.span = Some(Interval {
        lo: span.lo,
        hi: guarded.era,
    });
    stand(post, index, guarded)
}

/// Ends a round after which no other comes at once: nothing stands at index 0, and the interval ends by
/// a store.
#[inline(always)]
pub fn close_span<W: Words>(words: &mut W, post: &mut Post)
    requires valid { W.valid words.old }
    requires later { W.later words.old }
    requires scheme { post.old.layout.config.scheme ≡ IbrKind }
    requires free { kept_row post.old ≡ None }
    requires here { (task : Task) × (next : Next) × (desk : ModelDesk) × (index_of task ≡ 0) × Finishing next × Here (W.at words.old) (clearing_at task next post.old desk) }
    ensures valid { W.valid words.new }
    ensures later { W.later words.new }
    ensures same { W.same words.old words.new }
    ensures rest { W.rest words.new < W.rest words.old }
    ensures post { post.new ≡ record post.old { standing = slice_set post.old.standing 0 None; span = None; steps = post.old.steps + 1 } }
    ensures turns { (task : Task) (next : Next) (desk : ModelDesk) → index_of task ≡ 0 → Finishing next → Here (W.at words.old) (clearing_at task next post.old desk)
        → TurnsTo (W.at words.old) (W.at words.new) (W.stands words.old) (W.stands words.new) (clearing_at task next post.old desk) (closed task next post.new (kept_desk desk) []) }
{
    post.standing[0] = None;
    step(words, store_none(post));
    post.span = None;
    post.steps += 1;
}
