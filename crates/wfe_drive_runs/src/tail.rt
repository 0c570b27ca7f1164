// The steps of an enqueue on the tail's row: it is read, and an item is linked after it.
ghost use Rattle.std.specs.Prelude.{◌≡◌, ◌≤◌, ◌<◌, ◌==◌, ◌+◌, None};
ghost use Rattle.wfe_core.specs.words.Place.Place.{Row, Tail};
ghost use Rattle.wfe_core.specs.Calls.{Again, Enqueues, Enqueuing, ExchangeNext, LoadNumber, PassTail, Works};
ghost use Rattle.wfe_core.specs.Desks.{Desk as ModelDesk};
ghost use Rattle.wfe_core.specs.Enqueue.{at_next};
ghost use Rattle.wfe_core.specs.Memory.{Cas as Exchanges};
ghost use Rattle.wfe_core.specs.Ready.{SlotFits};
ghost use Rattle.wfe_core.specs.Valid.{IsValid};
ghost use Rattle.wfe_drive_words.specs.drive_cells.Spots.{spotted};
ghost use Rattle.wfe_drive_runs.specs.Items.{kept_of};
ghost use Rattle.wfe_call_rounds.specs.Endings.{next_of};
ghost use Rattle.wfe_drive_words.specs.Called.{Here};
ghost use Rattle.wfe_drive_words.specs.Path.{Leads};
ghost use Rattle.wfe_drive_runs.specs.Pieces.{clearing_at, seat_of};
ghost use Rattle.wfe_drive_words.specs.drive_cells.Unit.{kept_desk, seat_after};

use crate::item::Item;
use wfe_call_rounds::RoundEnd;
use wfe_core::{Answer, Op, Post};
use wfe_drive_words::{Located, Words, load_cell, step};

// Reads the number of the tail's row, and then its next link, which it answers.
#[inline(always)]
pub fn read_tail<W: Words>(words: &mut W, post: &mut Post, item: &mut Item) -> u32
    requires valid { W.valid words.old }
    requires later { W.later words.old }
    requires own { IsValid post.old }
    requires tail { SlotFits post.old item.old.tail }
    requires here { (desk : ModelDesk) × Here (W.at words.old) (seat_of (Works (Enqueuing (kept_of item.old) LoadNumber)) post.old desk) }
    ensures valid { W.valid words.new }
    ensures later { W.later words.new }
    ensures same { W.same words.old words.new }
    ensures rest { W.rest words.new ≤ W.rest words.old }
    ensures post { post.new ≡ record post.old { steps = post.old.steps + 2 } }
    ensures item { item.new ≡ record item.old { number = item.new.number } }
    ensures leads { (desk : ModelDesk) → Here (W.at words.old) (seat_of (Works (Enqueuing (kept_of item.old) LoadNumber)) post.old desk)
        → Leads (W.at words.old) (W.at words.new) (W.stands words.old) (W.stands words.new) (seat_of (Works (Enqueuing (kept_of item.old) LoadNumber)) post.old desk)
        (seat_after (at_next (kept_of item.new) result post.new (kept_desk desk) (result == 0))) }
{
    let place = *post;
    let first = place.layout.row(item.tail, 0);
    let number = step(words, load_cell(&place, item.tail, first, 1));
    let next = step(words, load_cell(&place, item.tail, first, 0)) as u32;
    item.number = number;
    post.steps += 2;
    next
}

// A tail that lags is moved on to the next row.
#[inline(always)]
pub fn pass_tail<W: Words>(words: &mut W, post: &mut Post, item: &Item, next: u32)
    requires valid { W.valid words.old }
    requires later { W.later words.old }
    requires here { (desk : ModelDesk) × Here (W.at words.old) (seat_of (Works (Enqueuing (kept_of item.now) (PassTail next))) post.old desk) }
    ensures valid { W.valid words.new }
    ensures later { W.later words.new }
    ensures same { W.same words.old words.new }
    ensures rest { W.rest words.new ≤ W.rest words.old }
    ensures post { post.new ≡ record post.old { steps = post.old.steps + 1 } }
    ensures leads { (desk : ModelDesk) → Here (W.at words.old) (seat_of (Works (Enqueuing (kept_of item.now) (PassTail next))) post.old desk)
        → Leads (W.at words.old) (W.at words.new) (W.stands words.old) (W.stands words.new) (seat_of (Works (Enqueuing (kept_of item.now) (PassTail next))) post.old desk)
        (clearing_at (Enqueues (kept_of item.now)) Again post.new desk) }
{
    step(words, move_tail(post, item.tail, next));
    post.steps += 1;
}

// Links the row that was written after the tail's, if that is still the last, and moves the tail.
#[inline(always)]
pub fn append<W: Words>(words: &mut W, post: &mut Post, item: &mut Item, slot: u32) -> RoundEnd
    requires valid { W.valid words.old }
    requires later { W.later words.old }
    requires here { (desk : ModelDesk) × Here (W.at words.old) (seat_of (Works (Enqueuing (kept_of item.old) (ExchangeNext slot))) post.old desk) }
    ensures valid { W.valid words.new }
    ensures later { W.later words.new }
    ensures same { W.same words.old words.new }
    ensures rest { W.rest words.new ≤ W.rest words.old }
    ensures layout { post.new.layout ≡ post.old.layout }
    ensures standing { post.new.standing ≡ post.old.standing }
    ensures leads { (desk : ModelDesk) → Here (W.at words.old) (seat_of (Works (Enqueuing (kept_of item.old) (ExchangeNext slot))) post.old desk)
        → Leads (W.at words.old) (W.at words.new) (W.stands words.old) (W.stands words.new) (seat_of (Works (Enqueuing (kept_of item.old) (ExchangeNext slot))) post.old desk)
        (clearing_at (Enqueues (kept_of item.new)) (next_of result) post.new desk) }
{
    let place = *post;
    let found = step(words, link_next(&place, item.tail, slot));
    if found != 0 {
        post.steps += 1;
        return RoundEnd::Again;
    }
    item.taken = None;
    step(words, move_tail(&place, item.tail, slot + 1));
    post.steps += 2;
    RoundEnd::Answers(Answer::Queued {
        number: item.number + 1,
    })
}

// An exchange of the tail, from the link to one row to this link.
#[inline(always)]
fn move_tail(post: &Post, tail: u32, link: u32) -> Located
    requires valid { IsValid post.now }
    requires tail { SlotFits post.now tail }
    ensures { result ≡ spotted post.now.layout (Exchanges Tail (tail + 1) link) }
{
    let word = post.layout.tail();
    let op = Op::Cas {
        word,
        old: tail as u64 + 1,
        new: link as u64,
    };
    Located::end(&post.layout, op)
}

// An exchange of a row's next link, from none to the link to another row.
#[inline(always)]
fn link_next(post: &Post, tail: u32, slot: u32) -> Located
    requires valid { IsValid post.now }
    requires tail { SlotFits post.now tail }
    ensures { result ≡ spotted post.now.layout (Exchanges (Row tail 0) 0 (slot + 1)) }
{
    let word = post.layout.row(tail, 0);
    let op = Op::Cas {
        word,
        old: 0,
        new: slot as u64 + 1,
    };
    Located::dense(&post.layout, op)
}
