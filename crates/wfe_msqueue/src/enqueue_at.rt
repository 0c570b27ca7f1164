// The work of an enqueue on its rows, between the protections of a round.
ghost use Rattle.std.specs.Prelude.{◌≡◌, ◌<◌, ◌≤◌, ◌+◌, [], ◌∷◌, length, List, IfSome};
ghost use Rattle.wfe_core.specs.defs.declared.event.Event.{Event as ModelEvent};
ghost use Rattle.wfe_core.specs.defs.declared.event.Event.TheVariants.{Link as LinkTold, Queued as QueuedTold};
ghost use Rattle.wfe_core.specs.defs.declared.event.Root.TheVariants.{Next as NextOf};
ghost use Rattle.wfe_core.specs.CallReady.{EnqueueFits, enqueue_plausible, enqueue_ready};
ghost use Rattle.wfe_core.specs.Calls.{EnqueueKept, Enqueues, Fills, Opens, Phase, Runs};
ghost use Rattle.wfe_core.specs.Desks.{Desk};
ghost use Rattle.wfe_core.specs.Enqueue.{enqueue_move, enqueue_turn, new_item};
ghost use Rattle.wfe_core.specs.Memory.{numbered};
ghost use Rattle.wfe_core.specs.Phases.{Base};
ghost use Rattle.wfe_core.specs.Phases.Ending.{Allocated, Protected};
ghost use Rattle.wfe_core.specs.Steps.{written_row};
ghost use Rattle.wfe_core.specs.Valid.{IsValid};
ghost use Rattle.wfe_core.specs.WriteRow.{writing};
ghost use Rattle.wfe_core.specs.declared.post.Post.{Post as ModelPost};
ghost use Rattle.wfe_slots.specs.Writes.{write_phase};
ghost use Rattle.wfe_call_rounds.specs.Leavings.{left as model_left};
ghost use Rattle.wfe_call_rounds.specs.Steps.{came};
ghost use Rattle.wfe_msqueue.specs.Enqueues.{LedWithin, at_of, kept_of, led, ran};

use super::links::{link_to, tell_link};
use wfe_call_rounds::{Over, RoundEnd, no_room};
use wfe_core::{AllocateEnd, Answer, Event, Op, Post, ProtectEnd, Root, Told};
use wfe_slots::{Row, WriteRow};

// What an enqueue keeps: its value, the row that it has taken and not linked, whether a walk for one
// has failed, and, from the tail loaded last, the tail's row and that row's number.
#[derive(Clone, Copy)]
pub struct Kept {
    pub value: u64,
    pub taken: Option<u32>,
    pub walked: bool,
    pub tail: u32,
    pub number: u64,
}

impl Kept {
    // The tail's protection has made a step. Where it is over, and leads to a row, the work begins.
    #[inline(always)]
    pub fn reached(&mut self, end: Option<ProtectEnd>) -> Option<Enqueued>
        ensures turn { (base : Base) (post : ModelPost) (desk : Desk) (told : List ModelEvent) → came Protected (Opens (Enqueues (kept_of self.old))) base end post desk told ≡ ran (kept_of self.new) result post desk told (Runs (Opens (Enqueues (kept_of self.new))) base) }
        ensures within { IfSome result (λ step. LedWithin (kept_of self.new) step) }
    {
        match end {
            Some(ProtectEnd::Held { slot, .. }) => {
                self.tail = slot;
                Some(Enqueued::Goes(EnqueueAt::LoadNumber))
            }
            Some(ProtectEnd::Null) => Some(Enqueued::Ends(RoundEnd::Again)),
            None => None,
        }
    }

    // A walk for a row has made a step. Where one has failed for the first time, a scan may make room.
    #[inline(always)]
    pub fn allocated(&mut self, end: Option<AllocateEnd>) -> Option<Enqueued>
        requires number { self.old.number + 1 < 18446744073709551616 }
        ensures turn { (base : Base) (post : ModelPost) (desk : Desk) (told : List ModelEvent) → came Allocated (Fills (Enqueues (kept_of self.old))) base end post desk told ≡ ran (kept_of self.new) result post desk told (Runs (Fills (Enqueues (kept_of self.new))) base) }
        ensures within { IfSome result (λ step. LedWithin (kept_of self.new) step) }
    {
        match end {
            Some(AllocateEnd::Given { slot, .. }) => {
                self.taken = Some(slot);
                Some(Enqueued::Fills)
            }
            Some(AllocateEnd::Full) => {
                let ending = no_room(self.walked);
                self.walked = true;
                Some(Enqueued::Ends(ending))
            }
            None => None,
        }
    }

    // The row that is to be written: the next number, and the value.
    #[inline(always)]
    pub fn write(&self, slot: u32) -> WriteRow
        requires { self.now.number + 1 < 18446744073709551616 }
        ensures { write_phase result ≡ writing slot (new_item (kept_of self.now)) }
    {
        let row = Row::Queue {
            number: self.number + 1,
            value: self.value,
        };
        WriteRow::new(slot, row)
    }

    // The row is written: it is to be linked.
    #[inline(always)]
    pub fn written(&self) -> Enqueued
        ensures turn { (post : ModelPost) (desk : Desk) (told : List ModelEvent) → written_row (Enqueues (kept_of self.now)) post desk told ≡ led (kept_of self.now) result post desk told }
        ensures within { LedWithin (kept_of self.now) result }
    {
        let slot = match self.taken {
            Some(slot) => slot,
            None => 0,
        };
        Enqueued::Goes(EnqueueAt::ExchangeNext { slot })
    }
}

// The step to come. A slot is the new row's.
#[derive(Clone, Copy)]
pub enum EnqueueAt {
    LoadNumber,
    LoadNext,
    // The tail lags: it is passed on to the link that its row has.
    PassTail { next: u64 },
    ExchangeNext { slot: u32 },
    ExchangeTail { slot: u32 },
}

// What a step leads to: the work's next one; a row to be filled; the round's end, where index 0 is to be
// cleared; or what comes where the round or the call is over.
pub enum Enqueued {
    Goes(EnqueueAt),
    Fills,
    Ends(RoundEnd),
    Passes(Over),
}

// What comes where a round ends has made a step.
#[inline(always)]
pub fn left(over: Option<Over>) -> Option<Enqueued>
    ensures turn { (kept : EnqueueKept) (post : ModelPost) (desk : Desk) (told : List ModelEvent) (phase : Phase) → model_left (Enqueues kept) over post desk told phase ≡ ran kept result post desk told phase }
    ensures within { (kept : EnqueueKept) → IfSome result (λ step. LedWithin kept step) }
{
    match over {
        Some(over) => Some(Enqueued::Passes(over)),
        None => None,
    }
}

impl EnqueueAt {
    // The operation of the step.
    #[inline(always)]
    pub fn next_op(&self, kept: &Kept, post: &Post) -> Op
        requires valid { IsValid post.now }
        requires fits { EnqueueFits post.now (kept_of kept.now) }
        requires ready { enqueue_ready (kept_of kept.now) (at_of self.now) post.now }
        ensures { result ≡ numbered post.now.layout (enqueue_move (kept_of kept.now) (at_of self.now)) }
    {
        match *self {
            EnqueueAt::LoadNumber => Op::Load {
                word: post.layout.row(kept.tail, 1),
            },
            EnqueueAt::LoadNext => Op::Load {
                word: post.layout.row(kept.tail, 0),
            },
            EnqueueAt::PassTail { next } => Op::Cas {
                word: post.layout.tail(),
                old: link_to(kept.tail),
                new: next,
            },
            EnqueueAt::ExchangeNext { slot } => Op::Cas {
                word: post.layout.row(kept.tail, 0),
                old: 0,
                new: link_to(slot),
            },
            EnqueueAt::ExchangeTail { slot } => Op::Cas {
                word: post.layout.tail(),
                old: link_to(kept.tail),
                new: link_to(slot),
            },
        }
    }

    // What the word that was found leads to. An exchange is told.
    #[inline(always)]
    pub fn take(self, kept: &mut Kept, post: &Post, found: u64, told: &mut Told) -> Enqueued
        requires valid { IsValid post.now }
        requires fits { EnqueueFits post.now (kept_of kept.old) }
        requires ready { enqueue_ready (kept_of kept.old) (at_of self) post.now }
        requires plausible { enqueue_plausible (at_of self) post.now found }
        requires empty { told.old ≡ [] }
        ensures turn { (desk : Desk) → enqueue_turn (kept_of kept.old) (at_of self) post.now desk found ≡ led (kept_of kept.new) result post.now desk told.new }
        ensures within { LedWithin (kept_of kept.new) result }
        ensures few { length told.new ≤ 2 }
    {
        match self {
            EnqueueAt::LoadNumber => {
                kept.number = found;
                Enqueued::Goes(EnqueueAt::LoadNext)
            }
            EnqueueAt::LoadNext => {
                if found != 0 {
                    return Enqueued::Goes(EnqueueAt::PassTail { next: found });
                }
                if kept.number == post.layout.config().last_version {
                    return Enqueued::Ends(RoundEnd::Answers(Answer::Spent {
                        number: kept.number,
                    }));
                }
                Enqueued::Fills
            }
            EnqueueAt::PassTail { next } => {
                let slot = (next - 1) as u32;
                tell_link(told, Root::Tail, slot, found == link_to(kept.tail));
                Enqueued::Ends(RoundEnd::Again)
            }
            EnqueueAt::ExchangeNext { slot } => {
                if found != 0 {
                    return Enqueued::Ends(RoundEnd::Again);
                }
                tell_queued(told, kept, slot);
                kept.taken = None;
                Enqueued::Goes(EnqueueAt::ExchangeTail { slot })
            }
            EnqueueAt::ExchangeTail { slot } => {
                tell_link(told, Root::Tail, slot, found == link_to(kept.tail));
                Enqueued::Ends(RoundEnd::Answers(Answer::Queued {
                    number: kept.number + 1,
                }))
            }
        }
    }
}

// Tells that the tail's row leads to the new one, and that the item has the next number.
#[inline(always)]
fn tell_queued(told: &mut Told, kept: &Kept, slot: u32)
    requires empty { told.old ≡ [] }
    requires number { kept.now.number + 1 < 18446744073709551616 }
    ensures { told.new ≡ LinkTold (NextOf kept.now.tail) slot ∷ QueuedTold (kept.now.number + 1) kept.now.value ∷ [] }
{
    told.push(Event::Link {
        root: Root::Next(kept.tail),
        slot,
    });
    told.push(Event::Queued {
        number: kept.number + 1,
        value: kept.value,
    });
}
