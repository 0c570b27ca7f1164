// An enqueue, round by round: the tail's row is protected, an item is written and linked after it, and
// the tail is moved; a round that another enqueue was before is made again.
ghost use Rattle.std.specs.Prelude.{◌≡◌, ◌≤◌, ◌<◌};
ghost use Rattle.wfe_core.specs.defs.declared.call.Call.TheVariants.{Enqueue as EnqueueCall};
ghost use Rattle.wfe_core.specs.Calls.{Enqueues, Fills, Idle, Runs};
ghost use Rattle.wfe_core.specs.DeskHeld.{HasRoom, desk_of};
ghost use Rattle.wfe_core.specs.Enqueue.{filling};
ghost use Rattle.wfe_core.specs.Rounds.{round};
ghost use Rattle.wfe_core.specs.Steps.{first_phase};
ghost use Rattle.wfe_drive_runs.specs.Items.{kept_of};
ghost use Rattle.wfe_drive_runs.specs.call_rounds.Endings.{next_of};
ghost use Rattle.wfe_drive_runs.specs.drive_words.Called.{Here, at_phase};
ghost use Rattle.wfe_drive_runs.specs.drive_words.Path.{Closes, Leads};
ghost use Rattle.wfe_drive_runs.specs.Pieces.{IsFree, clearing_at};

use crate::ending::end_round;
use wfe_core::{Answer, Desk, Post, Root};
use wfe_drive_runs::{
    Item, RoundEnd, Words, append, fill_item, no_room, open_round, pass_tail, read_tail,
};

/// Makes an enqueue from its first step to its answer. Under 2GE its seat keeps no row. The type names the
/// code that it is part of, as of a change.
#[inline(always)]
pub fn enqueue_item<W: Words, C>(
    words: &mut W,
    post: &mut Post,
    desk: &mut Desk,
    value: u64,
) -> Answer
    requires valid { W.valid words.old }
    requires free { IsFree post.old }
    requires here { Here (W.at words.old) (at_phase (first_phase (EnqueueCall value) post.old) post.old desk.old) }
    requires room { HasRoom desk.old post.old.layout }
    ensures valid { W.valid words.new }
    ensures same { W.same words.old words.new }
    ensures room { HasRoom desk.new post.new.layout }
    ensures made { Closes result (W.at words.old) (W.at words.new) (W.stands words.old) (W.stands words.new)
        (at_phase (first_phase (EnqueueCall value) post.old) post.old desk.old) (at_phase Idle post.new desk.new) }
{
    let mut item = Item {
        value,
        taken: None,
        walked: false,
        tail: 0,
        number: 0,
    };
    loop {
        let ending = link_item::<W, C>(words, post, desk, &mut item);
        match end_round(words, post, desk, item.taken, ending) {
            Some(answer) => return answer,
            None => {}
        }
    }
}

// A round up to its end. (It has no hint, as a round of a change.)
fn link_item<W: Words, C>(
    words: &mut W,
    post: &mut Post,
    desk: &mut Desk,
    item: &mut Item,
) -> RoundEnd
    requires valid { W.valid words.old }
    requires free { IsFree post.old }
    requires here { Here (W.at words.old) (at_phase (round (Enqueues (kept_of item.old)) post.old) post.old desk.old) }
    requires room { HasRoom desk.old post.old.layout }
    ensures valid { W.valid words.new }
    ensures later { W.later words.new }
    ensures same { W.same words.old words.new }
    ensures rest { W.rest words.new < W.rest words.old }
    ensures room { HasRoom desk.new post.new.layout }
    ensures layout { post.new.layout ≡ post.old.layout }
    ensures free { IsFree post.new }
    ensures leads { Leads (W.at words.old) (W.at words.new) (W.stands words.old) (W.stands words.new)
        (at_phase (round (Enqueues (kept_of item.old)) post.old) post.old desk.old)
        (clearing_at (Enqueues (kept_of item.new)) (next_of result) post.new (desk_of desk.new)) }
{
    match open_round::<W, C>(words, post, desk, Root::Tail) {
        Some(tail) => item.tail = tail,
        None => return RoundEnd::Again,
    }
    let next = read_tail(words, post, item);
    if next != 0 {
        pass_tail(words, post, item, next);
        return RoundEnd::Again;
    }
    if item.number == post.layout.config().last_version {
        return RoundEnd::Answers(Answer::Spent {
            number: item.number,
        });
    }
    link_filled(words, post, desk, item)
}

// The tail's row is the last, and another number is left.
#[inline(always)]
fn link_filled<W: Words>(
    words: &mut W,
    post: &mut Post,
    desk: &mut Desk,
    item: &mut Item,
) -> RoundEnd
    requires valid { W.valid words.old }
    requires later { W.later words.old }
    requires here { Here (W.at words.old) (at_phase (Runs (Fills (Enqueues (kept_of item.old))) (filling (kept_of item.old))) post.old desk.old) }
    requires room { HasRoom desk.old post.old.layout }
    ensures valid { W.valid words.new }
    ensures later { W.later words.new }
    ensures same { W.same words.old words.new }
    ensures rest { W.rest words.new ≤ W.rest words.old }
    ensures room { HasRoom desk.new post.new.layout }
    ensures layout { post.new.layout ≡ post.old.layout }
    ensures standing { post.new.standing ≡ post.old.standing }
    ensures leads { Leads (W.at words.old) (W.at words.new) (W.stands words.old) (W.stands words.new)
        (at_phase (Runs (Fills (Enqueues (kept_of item.old))) (filling (kept_of item.old))) post.old desk.old)
        (clearing_at (Enqueues (kept_of item.new)) (next_of result) post.new (desk_of desk.new)) }
{
    let walked = item.walked;
    match fill_item(words, post, desk, item) {
        Some(slot) => append(words, post, item, slot),
        None => no_room(walked),
    }
}
