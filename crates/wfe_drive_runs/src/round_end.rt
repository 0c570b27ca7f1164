// A round ends: its indexes are cleared, and its interval ends, whatever comes after it.
ghost use Rattle.std.specs.Prelude.{◌≡◌, ◌≤◌, ◌<◌, ◌+◌, [], List, None, false, slice_set};
ghost use Rattle.wfe_core.specs.words.Schemes.{has_one_interval, publishes_rows as shows_rows};
ghost use Rattle.wfe_core.specs.Calls.{Again, Dequeues, Next, Runs, Task, Why};
ghost use Rattle.wfe_core.specs.Desks.{Desk as ModelDesk, noting};
ghost use Rattle.wfe_core.specs.Phases.Base.{Clear};
ghost use Rattle.wfe_core.specs.Rounds.{closed, index_of, round};
ghost use Rattle.wfe_core.specs.defs.declared.event.Event.{Event as ModelEvent};
ghost use Rattle.wfe_core.specs.Phases.Ending.{Done};
ghost use Rattle.wfe_core.specs.Steps.{resume};
ghost use Rattle.wfe_drive_words.specs.drive_cells.Unit.{kept_desk};
ghost use Rattle.wfe_drive_words.specs.Called.{Here};
ghost use Rattle.wfe_drive_words.specs.Path.{Leads};
ghost use Rattle.wfe_drive_runs.specs.Pieces.{Finishing, IsFree, TurnsTo, clearing_at, clearing_next_at, seat_of};

use crate::span::close_span;
use wfe_core::{Post, SchemeKind};
use wfe_drive_words::{Words, publish_as, publishes_rows, step};

// Clears an index of the seat by a store.
#[inline(always)]
fn clear<W: Words>(words: &mut W, post: &mut Post, index: u32)
    requires valid { W.valid words.old }
    requires later { W.later words.old }
    requires here { (why : Why) × (desk : ModelDesk) × Here (W.at words.old) (seat_of (Runs why (Clear (shows_rows post.old.layout.config.scheme) index)) post.old desk) }
    ensures valid { W.valid words.new }
    ensures later { W.later words.new }
    ensures same { W.same words.old words.new }
    ensures rest { W.rest words.new < W.rest words.old }
    ensures post { post.new ≡ record post.old { standing = slice_set post.old.standing index None; steps = post.old.steps + 1 } }
    ensures turns { (why : Why) (desk : ModelDesk) → Here (W.at words.old) (seat_of (Runs why (Clear (shows_rows post.old.layout.config.scheme) index)) post.old desk) → (told : List ModelEvent) × (noting (kept_desk desk) told ≡ kept_desk desk)
        × TurnsTo (W.at words.old) (W.at words.new) (W.stands words.old) (W.stands words.new) (seat_of (Runs why (Clear (shows_rows post.old.layout.config.scheme) index)) post.old desk) (resume why Done post.new (kept_desk desk) told) }
{
    step(words, publish_as(publishes_rows(post), post, index, 0));
    post.standing[index as usize] = None;
    post.steps += 1;
}

// Ends a round under a scheme that clears an index by a step: index 0 is cleared.
#[inline(always)]
fn close<W: Words>(words: &mut W, post: &mut Post)
    requires valid { W.valid words.old }
    requires later { W.later words.old }
    requires clears { has_one_interval post.old.layout.config.scheme ≡ false }
    requires here { (task : Task) × (next : Next) × (desk : ModelDesk) × (index_of task ≡ 0) × Here (W.at words.old) (clearing_at task next post.old desk) }
    ensures valid { W.valid words.new }
    ensures later { W.later words.new }
    ensures same { W.same words.old words.new }
    ensures rest { W.rest words.new < W.rest words.old }
    ensures post { post.new ≡ record post.old { standing = slice_set post.old.standing 0 None; steps = post.old.steps + 1 } }
    ensures turns { (task : Task) (next : Next) (desk : ModelDesk) → index_of task ≡ 0 → Here (W.at words.old) (clearing_at task next post.old desk)
        → TurnsTo (W.at words.old) (W.at words.new) (W.stands words.old) (W.stands words.new) (clearing_at task next post.old desk) (closed task next post.new (kept_desk desk) []) }
{
    clear(words, post, 0);
}

/// A dequeue clears index 1 first, under any scheme.
#[inline(always)]
pub fn close_next<W: Words>(words: &mut W, post: &mut Post)
    requires valid { W.valid words.old }
    requires later { W.later words.old }
    requires free { IsFree post.old }
    requires here { (next : Next) × (desk : ModelDesk) × Here (W.at words.old) (clearing_next_at next post.old desk) }
    ensures valid { W.valid words.new }
    ensures later { W.later words.new }
    ensures same { W.same words.old words.new }
    ensures rest { W.rest words.new ≤ W.rest words.old }
    ensures layout { post.new.layout ≡ post.old.layout }
    ensures free { IsFree post.new }
    ensures leads { (next : Next) (desk : ModelDesk) → Here (W.at words.old) (clearing_next_at next post.old desk)
        → Leads (W.at words.old) (W.at words.new) (W.stands words.old) (W.stands words.new) (clearing_next_at next post.old desk) (clearing_at Dequeues next post.new desk) }
{
    match post.layout.config().scheme {
        SchemeKind::Ibr => post.standing[1] = None,
        _ => clear(words, post, 1),
    }
}

/// Ends a round after which no other comes at once, under any scheme.
#[inline(always)]
pub fn close_round<W: Words>(words: &mut W, post: &mut Post)
    requires valid { W.valid words.old }
    requires later { W.later words.old }
    requires free { IsFree post.old }
    requires here { (task : Task) × (next : Next) × (desk : ModelDesk) × (index_of task ≡ 0) × Finishing next × Here (W.at words.old) (clearing_at task next post.old desk) }
    ensures valid { W.valid words.new }
    ensures later { W.later words.new }
    ensures same { W.same words.old words.new }
    ensures rest { W.rest words.new < W.rest words.old }
    ensures layout { post.new.layout ≡ post.old.layout }
    ensures free { IsFree post.new }
    ensures turns { (task : Task) (next : Next) (desk : ModelDesk) → index_of task ≡ 0 → Finishing next → Here (W.at words.old) (clearing_at task next post.old desk)
        → TurnsTo (W.at words.old) (W.at words.new) (W.stands words.old) (W.stands words.new) (clearing_at task next post.old desk) (closed task next post.new (kept_desk desk) []) }
{
    match post.layout.config().scheme {
        SchemeKind::Ibr => close_span(words, post),
        _ => close(words, post),
    }
}

/// Ends a round after which another comes at once, under any scheme. An interval stays.
#[inline(always)]
pub fn close_again<W: Words>(words: &mut W, post: &mut Post)
    requires valid { W.valid words.old }
    requires later { W.later words.old }
    requires free { IsFree post.old }
    requires here { (task : Task) × (desk : ModelDesk) × (index_of task ≡ 0) × Here (W.at words.old) (clearing_at task Again post.old desk) }
    ensures valid { W.valid words.new }
    ensures later { W.later words.new }
    ensures same { W.same words.old words.new }
    ensures rest { W.rest words.new ≤ W.rest words.old }
    ensures layout { post.new.layout ≡ post.old.layout }
    ensures free { IsFree post.new }
    ensures leads { (task : Task) (desk : ModelDesk) → index_of task ≡ 0 → Here (W.at words.old) (clearing_at task Again post.old desk)
        → Leads (W.at words.old) (W.at words.new) (W.stands words.old) (W.stands words.new) (clearing_at task Again post.old desk) (seat_of (round task post.new) post.new desk) }
{
    match post.layout.config().scheme {
        SchemeKind::Ibr => post.standing[0] = None,
        _ => close(words, post),
    }
}
