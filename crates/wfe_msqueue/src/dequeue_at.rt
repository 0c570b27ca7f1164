// The work of a dequeue on its rows, between the protections of a round.
ghost use Rattle.std.specs.Prelude.{◌≡◌, ◌≤◌, ◌+◌, ◌==◌, [], ◌∷◌, length, List, IfSome};
ghost use Rattle.wfe_core.specs.defs.declared.event.Event.{Event as ModelEvent};
ghost use Rattle.wfe_core.specs.defs.declared.event.Event.TheVariants.{Cut as CutTold, Link as LinkTold, Taken as TakenTold};
ghost use Rattle.wfe_core.specs.defs.declared.event.Root.TheVariants.{Head};
ghost use Rattle.wfe_core.specs.CallReady.{dequeue_plausible, dequeue_ready};
ghost use Rattle.wfe_core.specs.Calls.{ClearsNext, Dequeues, FollowsHead, Opens, Phase, Runs};
ghost use Rattle.wfe_core.specs.Dequeue.{dequeue_move, dequeue_turn, followed_row};
ghost use Rattle.wfe_core.specs.Desks.{Desk};
ghost use Rattle.wfe_core.specs.Memory.{numbered};
ghost use Rattle.wfe_core.specs.Phases.{Base, Ending};
ghost use Rattle.wfe_core.specs.Phases.Ending.{Followed, Protected};
ghost use Rattle.wfe_core.specs.Valid.{IsValid};
ghost use Rattle.wfe_core.specs.declared.post.Post.{Post as ModelPost};
ghost use Rattle.wfe_call_rounds.specs.Endings.{next_of};
ghost use Rattle.wfe_call_rounds.specs.Leavings.{left as model_left};
ghost use Rattle.wfe_call_rounds.specs.Steps.{came};
ghost use Rattle.wfe_msqueue.specs.Dequeues.{LedWithin, at_of, led, ran};
ghost use Rattle.wfe_msqueue.specs.declared.dequeue_at.Dequeued.TheVariants.{Goes};

use super::links::{link_to, tell_link};
use wfe_call_rounds::{Over, RoundEnd};
use wfe_core::{Answer, ClockMove, Event, FollowEnd, Op, Post, ProtectEnd, Root, Told};

// The step to come. `head` is the row that the head led to, `next` the row after it.
#[derive(Clone, Copy)]
pub enum DequeueAt {
    LoadTail {
        head: u32,
    },
    SwingTail {
        head: u32,
        next: u32,
    },
    TakeNumber {
        head: u32,
        next: u32,
    },
    TakeValue {
        head: u32,
        next: u32,
        number: u64,
    },
    ExchangeHead {
        head: u32,
        next: u32,
        number: u64,
        value: u64,
    },
}

// What a dequeue keeps while the row after the head's is protected: the head's row and the tail's link.
#[derive(Clone, Copy)]
pub struct Kept {
    pub head: u32,
    pub tail: u64,
}

// What a step leads to: the work's next one; the protection of the row after the head's; the round's end,
// where index 1 is to be cleared, and where index 0 alone is; or what comes where the round or the call is
// over.
pub enum Dequeued {
    Goes(DequeueAt),
    Follows { head: u32, tail: u64 },
    Ends(RoundEnd),
    Clears(RoundEnd),
    Passes(Over),
}

// What comes where a round ends has made a step.
#[inline(always)]
pub fn left(over: Option<Over>) -> Option<Dequeued>
    ensures turn { (post : ModelPost) (desk : Desk) (told : List ModelEvent) (phase : Phase) → model_left Dequeues over post desk told phase ≡ ran result post desk told phase }
    ensures within { (post : ModelPost) → IfSome result (λ step. LedWithin step post) }
{
    match over {
        Some(over) => Some(Dequeued::Passes(over)),
        None => None,
    }
}

// The clear of index 1 has made a step. Where it is over, index 0 comes next.
#[inline(always)]
pub fn cleared(ending: RoundEnd, end: Option<()>) -> Option<Dequeued>
    ensures turn { (means : _ → Ending) (base : Base) (post : ModelPost) (desk : Desk) (told : List ModelEvent) → came means (ClearsNext (next_of ending)) base end post desk told ≡ ran result post desk told (Runs (ClearsNext (next_of ending)) base) }
    ensures within { (post : ModelPost) → IfSome result (λ step. LedWithin step post) }
{
    match end {
        Some(()) => Some(Dequeued::Clears(ending)),
        None => None,
    }
}

// The head's protection has made a step. Where it is over, and leads to a row, the work begins.
#[inline(always)]
pub fn reached(end: Option<ProtectEnd>) -> Option<Dequeued>
    ensures turn { (base : Base) (post : ModelPost) (desk : Desk) (told : List ModelEvent) → came Protected (Opens Dequeues) base end post desk told ≡ ran result post desk told (Runs (Opens Dequeues) base) }
    ensures within { (post : ModelPost) → IfSome result (λ step. LedWithin step post) }
{
    match end {
        Some(ProtectEnd::Held { slot, .. }) => {
            Some(Dequeued::Goes(DequeueAt::LoadTail { head: slot }))
        }
        Some(ProtectEnd::Null) => Some(Dequeued::Clears(RoundEnd::Again)),
        None => None,
    }
}

// The protection of the row after the head's has made a step. Where it is over, the tail lags, or the
// row is read, or there is none.
#[inline(always)]
pub fn followed(head: u32, tail: u64, end: Option<FollowEnd>) -> Option<Dequeued>
    ensures turn { (base : Base) (post : ModelPost) (desk : Desk) (told : List ModelEvent) → came Followed (FollowsHead head tail) base end post desk told ≡ ran result post desk told (Runs (FollowsHead head tail) base) }
    ensures within { (post : ModelPost) → IfSome result (λ step. LedWithin step post) }
{
    match end {
        Some(FollowEnd::Followed { slot }) => {
            Some(Dequeued::Goes(after_follow(head, tail, slot)))
        }
        Some(FollowEnd::NoNext) => Some(Dequeued::Ends(RoundEnd::Answers(Answer::Empty))),
        Some(FollowEnd::RootMoved { .. }) => Some(Dequeued::Ends(RoundEnd::Again)),
        None => None,
    }
}

// The work once the row after the head's is held: a tail that lags is moved on first.
#[inline(always)]
fn after_follow(head: u32, tail: u64, next: u32) -> DequeueAt
    ensures { (post : ModelPost) (desk : Desk) (told : List ModelEvent) → followed_row head next post desk told (tail == head + 1) ≡ led (Goes result) post desk told }
{
    if tail == link_to(head) {
        return DequeueAt::SwingTail { head, next };
    }
    DequeueAt::TakeNumber { head, next }
}

impl DequeueAt {
    // The operation of the step.
    #[inline(always)]
    pub fn next_op(&self, post: &Post) -> Op
        requires valid { IsValid post.now }
        requires ready { dequeue_ready (at_of self.now) post.now }
        ensures { result ≡ numbered post.now.layout (dequeue_move (at_of self.now)) }
    {
        match *self {
            DequeueAt::LoadTail { .. } => Op::Load {
                word: post.layout.tail(),
            },
            DequeueAt::SwingTail { head, next } => Op::Cas {
                word: post.layout.tail(),
                old: link_to(head),
                new: link_to(next),
            },
            DequeueAt::TakeNumber { next, .. } => Op::Load {
                word: post.layout.row(next, 1),
            },
            DequeueAt::TakeValue { next, .. } => Op::Load {
                word: post.layout.row(next, 2),
            },
            DequeueAt::ExchangeHead { head, next, .. } => Op::Cas {
                word: post.layout.head(),
                old: link_to(head),
                new: link_to(next),
            },
        }
    }

    // What the word that was found leads to. An exchange is told.
    #[inline(always)]
    pub fn take(self, post: &Post, found: u64, told: &mut Told) -> Dequeued
        requires ready { dequeue_ready (at_of self) post.now }
        requires empty { told.old ≡ [] }
        ensures turn { (desk : Desk) → dequeue_turn (at_of self) post.now desk found ≡ led result post.now desk told.new }
        ensures within { LedWithin result post.now }
        ensures few { length told.new ≤ 3 }
    {
        match self {
            DequeueAt::LoadTail { head } => Dequeued::Follows { head, tail: found },
            DequeueAt::SwingTail { head, next } => {
                tell_link(told, Root::Tail, next, found == link_to(head));
                Dequeued::Ends(RoundEnd::Again)
            }
            DequeueAt::TakeNumber { head, next } => Dequeued::Goes(DequeueAt::TakeValue {
                head,
                next,
                number: found,
            }),
            DequeueAt::TakeValue { head, next, number } => {
                Dequeued::Goes(DequeueAt::ExchangeHead {
                    head,
                    next,
                    number,
                    value: found,
                })
            }
            DequeueAt::ExchangeHead {
                head,
                next,
                number,
                value,
            } => {
                if found != link_to(head) {
                    return Dequeued::Ends(RoundEnd::Again);
                }
                tell_taken(told, head, next, number, value);
                let answer = Answer::Taken {
                    number,
                    value,
                    clock: ClockMove::Still,
                };
                Dequeued::Ends(RoundEnd::Retires { slot: head, answer })
            }
        }
    }
}

// Tells that the head has passed a row, and that the item after it is taken.
#[inline(always)]
fn tell_taken(told: &mut Told, head: u32, next: u32, number: u64, value: u64)
    requires { told.old ≡ [] }
    ensures { told.new ≡ LinkTold Head next ∷ CutTold head ∷ TakenTold number value ∷ [] }
{
    told.push(Event::Link {
        root: Root::Head,
        slot: next,
    });
    told.push(Event::Cut { slot: head });
    told.push(Event::Taken { number, value });
}
