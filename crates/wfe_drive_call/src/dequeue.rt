// A dequeue, round by round: the head's row and the row after it are protected, the item there is read,
// and the head is moved to it; then the row that the head left is retired.
ghost use Rattle.std.specs.Prelude.{◌≡◌, ◌≤◌, ◌<◌};
ghost use Rattle.wfe_core.specs.defs.declared.call.Call.TheVariants.{Dequeue as DequeueCall};
ghost use Rattle.wfe_core.specs.Calls.{Dequeues, Dequeuing, Idle, LoadTail, Works};
ghost use Rattle.wfe_core.specs.DeskHeld.{HasRoom, desk_of};
ghost use Rattle.wfe_core.specs.Rounds.{round};
ghost use Rattle.wfe_core.specs.Steps.{first_phase};
ghost use Rattle.wfe_drive_runs.specs.call_rounds.Endings.{next_of};
ghost use Rattle.wfe_drive_runs.specs.drive_words.Called.{Here, at_phase};
ghost use Rattle.wfe_drive_runs.specs.drive_words.Path.{Closes, Leads};
ghost use Rattle.wfe_drive_runs.specs.Pieces.{IsFree, IsSpanned, clearing_at, clearing_next_at};

use crate::ending::end_round;
use wfe_core::{Answer, Desk, FollowEnd, Post, Root};
use wfe_drive_runs::{
    RoundEnd, Words, close_next, follow_next, open_round, read_end, swing_tail, take,
};

/// Makes a dequeue from its first step to its answer. Under 2GE its seat keeps no row. The type names the
/// code that it is part of, as of a change.
#[inline(always)]
pub fn dequeue_item<W: Words, C>(words: &mut W, post: &mut Post, desk: &mut Desk) -> Answer
    requires valid { W.valid words.old }
    requires free { IsFree post.old }
    requires here { Here (W.at words.old) (at_phase (first_phase DequeueCall post.old) post.old desk.old) }
    requires room { HasRoom desk.old post.old.layout }
    ensures valid { W.valid words.new }
    ensures same { W.same words.old words.new }
    ensures room { HasRoom desk.new post.new.layout }
    ensures made { Closes result (W.at words.old) (W.at words.new) (W.stands words.old) (W.stands words.new)
        (at_phase (first_phase DequeueCall post.old) post.old desk.old) (at_phase Idle post.new desk.new) }
{
    loop {
        let ending = take_item::<W, C>(words, post, desk);
        match end_round(words, post, desk, None, ending) {
            Some(answer) => return answer,
            None => {}
        }
    }
}

// A round up to its end. (It has no hint, as a round of a change.)
fn take_item<W: Words, C>(words: &mut W, post: &mut Post, desk: &mut Desk) -> RoundEnd
    requires valid { W.valid words.old }
    requires free { IsFree post.old }
    requires here { Here (W.at words.old) (at_phase (round Dequeues post.old) post.old desk.old) }
    requires room { HasRoom desk.old post.old.layout }
    ensures valid { W.valid words.new }
    ensures later { W.later words.new }
    ensures same { W.same words.old words.new }
    ensures rest { W.rest words.new < W.rest words.old }
    ensures room { HasRoom desk.new post.new.layout }
    ensures layout { post.new.layout ≡ post.old.layout }
    ensures free { IsFree post.new }
    ensures leads { Leads (W.at words.old) (W.at words.new) (W.stands words.old) (W.stands words.new)
        (at_phase (round Dequeues post.old) post.old desk.old) (clearing_at Dequeues (next_of result) post.new (desk_of desk.new)) }
{
    match open_round::<W, C>(words, post, desk, Root::Head) {
        Some(head) => {
            let ending = take_next::<W, C>(words, post, desk, head);
            close_next(words, post);
            ending
        }
        None => RoundEnd::Again,
    }
}

// The head's row is held.
#[inline(always)]
fn take_next<W: Words, C>(words: &mut W, post: &mut Post, desk: &mut Desk, head: u32) -> RoundEnd
    requires valid { W.valid words.old }
    requires later { W.later words.old }
    requires free { IsFree post.old }
    requires spanned { IsSpanned post.old }
    requires here { Here (W.at words.old) (at_phase (Works (Dequeuing (LoadTail head))) post.old desk.old) }
    requires room { HasRoom desk.old post.old.layout }
    ensures valid { W.valid words.new }
    ensures later { W.later words.new }
    ensures same { W.same words.old words.new }
    ensures rest { W.rest words.new ≤ W.rest words.old }
    ensures room { HasRoom desk.new post.new.layout }
    ensures layout { post.new.layout ≡ post.old.layout }
    ensures free { IsFree post.new }
    ensures leads { Leads (W.at words.old) (W.at words.new) (W.stands words.old) (W.stands words.new)
        (at_phase (Works (Dequeuing (LoadTail head))) post.old desk.old) (clearing_next_at (next_of result) post.new (desk_of desk.new)) }
{
    let tail = read_end(words, post, head);
    match follow_next::<W, C>(words, post, desk, head) {
        FollowEnd::Followed { slot } => {
            if tail == head as u64 + 1 {
                swing_tail(words, post, head, slot);
                return RoundEnd::Again;
            }
            take(words, post, head, slot)
        }
        FollowEnd::NoNext => RoundEnd::Answers(Answer::Empty),
        FollowEnd::RootMoved { .. } => RoundEnd::Again,
    }
}
