// The steps of a dequeue on the rows at the queue's front.
ghost use Rattle.std.specs.Prelude.{◌≡◌, ◌≤◌, ◌+◌};
ghost use Rattle.wfe_core.specs.words.Place.Place.{Head, Tail};
ghost use Rattle.wfe_core.specs.Calls.{Dequeuing, LoadTail, TakeNumber, Works};
ghost use Rattle.wfe_core.specs.Calls as calls;
ghost use Rattle.wfe_core.specs.Desks.{Desk as ModelDesk};
ghost use Rattle.wfe_core.specs.Dequeue.{follow_base};
ghost use Rattle.wfe_core.specs.Memory.{Cas as Exchanges, Load as Loads};
ghost use Rattle.wfe_core.specs.Ready.{SlotFits};
ghost use Rattle.wfe_core.specs.Valid.{IsValid};
ghost use Rattle.wfe_call_rounds.specs.Endings.{next_of};
ghost use Rattle.wfe_drive_words.specs.drive_cells.Spots.{spotted};
ghost use Rattle.wfe_drive_words.specs.Called.{Here};
ghost use Rattle.wfe_drive_words.specs.Path.{Leads};
ghost use Rattle.wfe_drive_runs.specs.Pieces.{clearing_next_at, seat_of};

use wfe_call_rounds::RoundEnd;
use wfe_core::{Answer, ClockMove, Op, Post};
use wfe_drive_words::{Located, Words, load_cell, step};

// Loads the queue's tail.
#[inline(always)]
pub fn read_end<W: Words>(words: &mut W, post: &mut Post, _head: u32) -> u64
    requires valid { W.valid words.old }
    requires later { W.later words.old }
    requires here { (desk : ModelDesk) × Here (W.at words.old) (seat_of (Works (Dequeuing (LoadTail _head))) post.old desk) }
    ensures valid { W.valid words.new }
    ensures later { W.later words.new }
    ensures same { W.same words.old words.new }
    ensures rest { W.rest words.new ≤ W.rest words.old }
    ensures post { post.new ≡ record post.old { steps = post.old.steps + 1 } }
    ensures leads { (desk : ModelDesk) → Here (W.at words.old) (seat_of (Works (Dequeuing (LoadTail _head))) post.old desk)
        → Leads (W.at words.old) (W.at words.new) (W.stands words.old) (W.stands words.new) (seat_of (Works (Dequeuing (LoadTail _head))) post.old desk)
        (seat_of (calls.Runs (calls.FollowsHead _head result) (follow_base post.new.layout.config.scheme _head)) post.new desk) }
{
    let tail = step(words, load_end(post));
    post.steps += 1;
    tail
}

// A tail that lags is moved on.
#[inline(always)]
pub fn swing_tail<W: Words>(words: &mut W, post: &mut Post, head: u32, next: u32)
    requires valid { W.valid words.old }
    requires later { W.later words.old }
    requires here { (desk : ModelDesk) × Here (W.at words.old) (seat_of (Works (Dequeuing (calls.SwingTail head next))) post.old desk) }
    ensures valid { W.valid words.new }
    ensures later { W.later words.new }
    ensures same { W.same words.old words.new }
    ensures rest { W.rest words.new ≤ W.rest words.old }
    ensures post { post.new ≡ record post.old { steps = post.old.steps + 1 } }
    ensures leads { (desk : ModelDesk) → Here (W.at words.old) (seat_of (Works (Dequeuing (calls.SwingTail head next))) post.old desk)
        → Leads (W.at words.old) (W.at words.new) (W.stands words.old) (W.stands words.new) (seat_of (Works (Dequeuing (calls.SwingTail head next))) post.old desk)
        (clearing_next_at calls.Again post.new desk) }
{
    step(words, move_end(post, head, next));
    post.steps += 1;
}

// Reads the item after the head's row, and moves the head to it; then the row that the head left is to be
// retired. Another round comes where the head has moved.
#[inline(always)]
pub fn take<W: Words>(words: &mut W, post: &mut Post, head: u32, next: u32) -> RoundEnd
    requires valid { W.valid words.old }
    requires later { W.later words.old }
    requires own { IsValid post.old }
    requires next { SlotFits post.old next }
    requires here { (desk : ModelDesk) × Here (W.at words.old) (seat_of (Works (Dequeuing (TakeNumber head next))) post.old desk) }
    ensures valid { W.valid words.new }
    ensures later { W.later words.new }
    ensures same { W.same words.old words.new }
    ensures rest { W.rest words.new ≤ W.rest words.old }
    ensures post { post.new ≡ record post.old { steps = post.old.steps + 3 } }
    ensures leads { (desk : ModelDesk) → Here (W.at words.old) (seat_of (Works (Dequeuing (TakeNumber head next))) post.old desk)
        → Leads (W.at words.old) (W.at words.new) (W.stands words.old) (W.stands words.new) (seat_of (Works (Dequeuing (TakeNumber head next))) post.old desk)
        (clearing_next_at (next_of result) post.new desk) }
{
    let place = *post;
    let first = place.layout.row(next, 0);
    let number = step(words, load_cell(&place, next, first, 1));
    let value = step(words, load_cell(&place, next, first, 2));
    let found = step(words, move_head(&place, head, next));
    post.steps += 3;
    if found != head as u64 + 1 {
        return RoundEnd::Again;
    }
    RoundEnd::Retires {
        slot: head,
        answer: Answer::Taken {
            number,
            value,
            clock: ClockMove::Still,
        },
    }
}

// A load of the tail.
#[inline(always)]
fn load_end(post: &Post) -> Located
    requires { IsValid post.now }
    ensures { result ≡ spotted post.now.layout (Loads Tail) }
{
    let word = post.layout.tail();
    Located::end(&post.layout, Op::Load { word })
}

// An exchange of the tail, or of the head, from the link to one row to that to the next.
#[inline(always)]
fn move_end(post: &Post, head: u32, next: u32) -> Located
    requires valid { IsValid post.now }
    requires head { SlotFits post.now head }
    requires next { SlotFits post.now next }
    ensures { result ≡ spotted post.now.layout (Exchanges Tail (head + 1) (next + 1)) }
{
    let word = post.layout.tail();
    let op = Op::Cas {
        word,
        old: head as u64 + 1,
        new: next as u64 + 1,
    };
    Located::end(&post.layout, op)
}

#[inline(always)]
fn move_head(post: &Post, head: u32, next: u32) -> Located
    requires valid { IsValid post.now }
    requires head { SlotFits post.now head }
    requires next { SlotFits post.now next }
    ensures { result ≡ spotted post.now.layout (Exchanges Head (head + 1) (next + 1)) }
{
    let word = post.layout.head();
    let op = Op::Cas {
        word,
        old: head as u64 + 1,
        new: next as u64 + 1,
    };
    Located::end(&post.layout, op)
}
