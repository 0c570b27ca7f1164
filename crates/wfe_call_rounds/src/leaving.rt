// A call leaves a round: an index is cleared, then comes what the scheme ends with, and then what comes
// after the round.
ghost use Rattle.std.specs.Prelude.{◌≡◌, ◌≤◌, ◌+◌, [], length, List};
ghost use Rattle.wfe_core.specs.defs.declared.event.Event.{Event};
ghost use Rattle.wfe_core.specs.Calls.{Task};
ghost use Rattle.wfe_core.specs.DeskHeld.{HasRoom, desk_of};
ghost use Rattle.wfe_core.specs.Desks.{Desk as ModelDesk};
ghost use Rattle.wfe_core.specs.Rounds.{clearing, closed as model_closed, index_of, taken_of};
ghost use Rattle.wfe_core.specs.Steps.{call_op, phase_turn};
ghost use Rattle.wfe_core.specs.Valid.{IsValid};
ghost use Rattle.wfe_core.specs.declared.post.Post.{Post as ModelPost};
ghost use Rattle.wfe_call_rounds.specs.Endings.{next_of};
ghost use Rattle.wfe_call_rounds.specs.Leavings.{IsLeavePlausible, IsLeaveReady, leave_at, leave_of, leave_phase, left, over_turn};
ghost use Rattle.wfe_call_rounds.specs.Steps.{SameSeat};
ghost use Rattle.wfe_call_rounds.specs.Turns.{Keeps, stood};

use crate::closing::{Closing, close, take_close};
use crate::ending::RoundEnd;
use crate::last::{Last, Over};
use crate::then::Then;
use crate::{Reclaim, Tidy};
use wfe_core::{Answer, Desk, Machine, Op, Post, Told};
use wfe_iface::{Rounds, Scheme};
use wfe_slots::GiveUp;

/// The last machines of a round, with how it ends, and what comes after them.
#[derive(Drop)]
pub enum Leave<C: Machine<End = ()>, F: Machine<End = ()>> {
    Closes(RoundEnd, Closing<C, F>),
    Ends(Last),
}

impl<C: Machine<End = ()>, F: Machine<End = ()>> Leave<C, F> {
    /// The operation that the call asks for.
    #[inline(always)]
    pub fn next_op(&self, post: &Post, desk: &Desk) -> Op
        requires valid { IsValid post.now }
        requires ready { IsLeaveReady C.phase F.phase self.now post.now (desk_of desk.now) }
        ensures { (task : Task) → result ≡ call_op (leave_phase C.phase F.phase task self.now) post.now }
    {
        match self {
            Leave::Closes(_, closing) => closing.next_op(post),
            Leave::Ends(last) => last.next_op(post, desk),
        }
    }
}

// Where a call stands under one scheme whose round ends.
type LeaveOf<S> = Leave<<S as Scheme>::Clear, <S as Scheme>::Finish>;

// A round is over: another begins, at once or after a scan, or the call answers. A row that was taken and
// not linked is given up first, and one that was cut is retired.
#[inline(always)]
fn closed<S: Scheme>(taken: Option<u32>, ending: RoundEnd) -> Then<LeaveOf<S>>
    ensures { (task : Task) (post : ModelPost) (desk : ModelDesk) (told : List Event) → taken ≡ taken_of task → post.layout.config.scheme ≡ S.kind → model_closed task (next_of ending) post desk told ≡ stood (leave_at ⟦<S as Rounds>⟧.all_phases task) task result post desk told }
{
    match ending {
        RoundEnd::Again => Then::Begins,
        RoundEnd::MakeRoom => {
            Then::Stands(Leave::Ends(Last::Tidies(Tidy::new(S::MOVES, S::HELPS))))
        }
        RoundEnd::Answers(answer) => match taken {
            Some(slot) => Then::Stands(Leave::Ends(Last::GivesUp(answer, GiveUp::new(slot)))),
            None => Then::Answers(answer),
        },
        RoundEnd::Retires { slot, answer } => {
            Then::Stands(Leave::Ends(Last::Reclaims(answer, Reclaim::new(slot))))
        }
    }
}

/// A round ends: index 0 is cleared, and then comes what the scheme ends with. `taken` is the row that
/// the call has taken and not linked.
#[inline(always)]
pub fn clear<S: Scheme>(
    taken: Option<u32>,
    ending: RoundEnd,
    post: &mut Post,
    told: &mut Told,
) -> Then<Leave<S::Clear, S::Finish>>
    requires valid { IsValid post.old }
    requires scheme { post.old.layout.config.scheme ≡ S.kind }
    requires few { length told.old ≤ 6 }
    ensures turn { (task : Task) (desk : ModelDesk) → 0 ≡ index_of task → taken ≡ taken_of task → clearing task (next_of ending) post.old desk told.old ≡ stood (leave_at ⟦<S as Rounds>⟧.all_phases task) task result post.new desk told.new }
    ensures seat { SameSeat post.old post.new told.new (length told.old + 1) }
{
    match close::<S>(post, told, 0, ending.is_again()) {
        Some(closing) => Then::Stands(Leave::Closes(ending, closing)),
        None => closed::<S>(taken, ending),
    }
}

/// What comes after what is over.
#[inline(always)]
pub fn pass<S: Scheme>(taken: Option<u32>, over: Over) -> Then<Leave<S::Clear, S::Finish>>
    ensures { (task : Task) (post : ModelPost) (desk : ModelDesk) (told : List Event) → taken ≡ taken_of task → post.layout.config.scheme ≡ S.kind → over_turn task over post desk told ≡ stood (leave_at ⟦<S as Rounds>⟧.all_phases task) task result post desk told }
{
    match over {
        Over::Round(ending) => closed::<S>(taken, ending),
        Over::Call(answer) => Then::Answers(answer),
    }
}

/// Takes what the operation of a round's last machines found, or of what comes after them.
#[inline(always)]
pub fn take_leave<S: Scheme>(
    at: &mut Leave<S::Clear, S::Finish>,
    post: &mut Post,
    desk: &mut Desk,
    found: u64,
    told: &mut Told,
) -> Option<Over>
    requires valid { IsValid post.old }
    requires scheme { post.old.layout.config.scheme ≡ S.kind }
    requires room { HasRoom desk.old post.old.layout }
    requires ready { IsLeaveReady S.Clear.phase S.Finish.phase at.old post.old (desk_of desk.old) }
    requires plausible { IsLeavePlausible S.Clear.phase S.Finish.phase at.old post.old found }
    requires empty { told.old ≡ [] }
    ensures turn { (task : Task) → phase_turn (leave_of ⟦<S as Rounds>⟧.all_phases task at.old) post.old (desk_of desk.old) found ≡ left task result post.new (desk_of desk.new) told.new (leave_of ⟦<S as Rounds>⟧.all_phases task at.new) }
    ensures kept { Keeps post.old post.new desk.old desk.new told.new 2 }
{
    match at {
        Leave::Closes(ending, closing) => {
            if take_close::<S>(closing, ending.is_again(), post, found, told) {
                return Some(Over::Round(*ending));
            }
            None
        }
        Leave::Ends(last) => last.take(S::MOVES, S::HELPS, post, desk, found, told),
    }
}
