// The end of a round, whatever its task: its protection is over, and then another round comes or the answer.
ghost use Rattle.std.specs.Prelude.{◌≡◌, ◌<◌, ◌≤◌, IfNone, MatchOption};
ghost use Rattle.wfe_core.specs.defs.declared.call.ClockMove.TheVariants.{Still as StillMove};
ghost use Rattle.wfe_core.specs.Calls.{Answering, Idle, MakeRoom as MakeRoomNext, Retiring, Task};
ghost use Rattle.wfe_core.specs.DeskHeld.{HasRoom, desk_of};
ghost use Rattle.wfe_core.specs.Rounds.{index_of, round, taken_of, with_clock as model_with_clock};
ghost use Rattle.wfe_drive_runs.specs.call_rounds.Endings.{next_of};
ghost use Rattle.wfe_drive_runs.specs.drive_words.Called.{Here, at_phase};
ghost use Rattle.wfe_drive_runs.specs.drive_words.Path.{Closes, Leads};
ghost use Rattle.wfe_drive_runs.specs.Pieces.{IsFree, clearing_at};

use wfe_core::{Answer, Desk, Post};
use wfe_drive_runs::{
    RoundEnd, Words, close_again, close_round, give_up, note_steps, retire, tidy, with_clock,
};

// No row was free: the clock is moved, where retirements move it, and the list scanned, and then another
// round comes.
#[cold]
#[inline(never)]
fn make_room<W: Words>(words: &mut W, post: &mut Post, desk: &mut Desk)
    requires valid { W.valid words.old }
    requires later { W.later words.old }
    requires free { IsFree post.old }
    requires room { HasRoom desk.old post.old.layout }
    requires here { (task : Task) × (index_of task ≡ 0) × Here (W.at words.old) (clearing_at task MakeRoomNext post.old (desk_of desk.old)) }
    ensures valid { W.valid words.new }
    ensures later { W.later words.new }
    ensures same { W.same words.old words.new }
    ensures rest { W.rest words.new < W.rest words.old }
    ensures room { HasRoom desk.new post.new.layout }
    ensures layout { post.new.layout ≡ post.old.layout }
    ensures free { IsFree post.new }
    ensures leads { (task : Task) → index_of task ≡ 0 → Here (W.at words.old) (clearing_at task MakeRoomNext post.old (desk_of desk.old))
        → Leads (W.at words.old) (W.at words.new) (W.stands words.old) (W.stands words.new) (clearing_at task MakeRoomNext post.old (desk_of desk.old)) (at_phase (round task post.new) post.new desk.new) }
{
    close_round(words, post);
    tidy(words, post, desk);
}

// The call is answered. A row that was taken and not linked is given up first.
#[inline(always)]
fn answer_call<W: Words>(
    words: &mut W,
    post: &mut Post,
    desk: &mut Desk,
    taken: Option<u32>,
    answer: Answer,
) -> Answer
    requires valid { W.valid words.old }
    requires later { W.later words.old }
    requires free { IsFree post.old }
    requires room { HasRoom desk.old post.old.layout }
    requires here { (task : Task) × (index_of task ≡ 0) × (taken_of task ≡ taken) × Here (W.at words.old) (clearing_at task (Answering answer) post.old (desk_of desk.old)) }
    ensures valid { W.valid words.new }
    ensures same { W.same words.old words.new }
    ensures room { HasRoom desk.new post.new.layout }
    ensures closes { (task : Task) → index_of task ≡ 0 → taken_of task ≡ taken → Here (W.at words.old) (clearing_at task (Answering answer) post.old (desk_of desk.old))
        → Closes result (W.at words.old) (W.at words.new) (W.stands words.old) (W.stands words.new) (clearing_at task (Answering answer) post.old (desk_of desk.old)) (at_phase Idle post.new desk.new) }
{
    close_round(words, post);
    match taken {
        Some(slot) => give_up(words, post, desk, slot, answer),
        None => {
            note_steps(desk, post.steps);
            answer
        }
    }
}

// The row that was cut is retired, and the call is answered.
#[inline(always)]
fn retire_cut<W: Words>(
    words: &mut W,
    post: &mut Post,
    desk: &mut Desk,
    slot: u32,
    answer: Answer,
) -> Answer
    requires valid { W.valid words.old }
    requires later { W.later words.old }
    requires free { IsFree post.old }
    requires room { HasRoom desk.old post.old.layout }
    requires here { (task : Task) × (index_of task ≡ 0) × Here (W.at words.old) (clearing_at task (Retiring slot (model_with_clock answer StillMove)) post.old (desk_of desk.old)) }
    ensures valid { W.valid words.new }
    ensures same { W.same words.old words.new }
    ensures room { HasRoom desk.new post.new.layout }
    ensures closes { (task : Task) → index_of task ≡ 0 → Here (W.at words.old) (clearing_at task (Retiring slot (model_with_clock answer StillMove)) post.old (desk_of desk.old))
        → Closes result (W.at words.old) (W.at words.new) (W.stands words.old) (W.stands words.new) (clearing_at task (Retiring slot (model_with_clock answer StillMove)) post.old (desk_of desk.old)) (at_phase Idle post.new desk.new) }
{
    close_round(words, post);
    let clock = retire(words, post, desk, slot);
    with_clock(answer, clock)
}

// Ends a round of a call that has taken this row and not linked it, if any, and answers where the call is
// over.
#[inline(always)]
pub fn end_round<W: Words>(
    words: &mut W,
    post: &mut Post,
    desk: &mut Desk,
    taken: Option<u32>,
    ending: RoundEnd,
) -> Option<Answer>
    requires valid { W.valid words.old }
    requires later { W.later words.old }
    requires free { IsFree post.old }
    requires room { HasRoom desk.old post.old.layout }
    requires here { (task : Task) × (index_of task ≡ 0) × (taken_of task ≡ taken) × Here (W.at words.old) (clearing_at task (next_of ending) post.old (desk_of desk.old)) }
    ensures valid { W.valid words.new }
    ensures same { W.same words.old words.new }
    ensures room { HasRoom desk.new post.new.layout }
    ensures goes_on { IfNone result ((W.rest words.new ≤ W.rest words.old) × (post.new.layout ≡ post.old.layout) × IsFree post.new) }
    ensures ends { (task : Task) → index_of task ≡ 0 → taken_of task ≡ taken → Here (W.at words.old) (clearing_at task (next_of ending) post.old (desk_of desk.old)) → MatchOption result
        (Leads (W.at words.old) (W.at words.new) (W.stands words.old) (W.stands words.new)
        (clearing_at task (next_of ending) post.old (desk_of desk.old)) (at_phase (round task post.new) post.new desk.new))
        (λ answer. Closes answer (W.at words.old) (W.at words.new) (W.stands words.old) (W.stands words.new)
        (clearing_at task (next_of ending) post.old (desk_of desk.old)) (at_phase Idle post.new desk.new)) }
{
    match ending {
        RoundEnd::Again => {
            close_again(words, post);
            None
        }
        RoundEnd::MakeRoom => {
            make_room(words, post, desk);
            None
        }
        RoundEnd::Answers(answer) => Some(answer_call(words, post, desk, taken, answer)),
        RoundEnd::Retires { slot, answer } => Some(retire_cut(words, post, desk, slot, answer)),
    }
}
