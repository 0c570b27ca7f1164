// What the ends of a change's machines lead to.
ghost use Rattle.std.specs.Prelude.{◌≡◌, ◌<◌, ◌+◌, List, IfSome};
ghost use Rattle.wfe_core.specs.defs.declared.event.Event.{Event as ModelEvent};
ghost use Rattle.wfe_core.specs.CallReady.{ChangeFits};
ghost use Rattle.wfe_core.specs.Calls.{ChangeKept, Changes, Fills, Opens, Phase, Runs};
ghost use Rattle.wfe_core.specs.Change.{new_row};
ghost use Rattle.wfe_core.specs.Desks.{Desk};
ghost use Rattle.wfe_core.specs.Phases.{Base};
ghost use Rattle.wfe_core.specs.Phases.Ending.{Allocated, Protected};
ghost use Rattle.wfe_core.specs.Steps.{written_row};
ghost use Rattle.wfe_core.specs.Valid.{IsValid};
ghost use Rattle.wfe_core.specs.WriteRow.{writing};
ghost use Rattle.wfe_core.specs.declared.post.Post.{Post as ModelPost};
ghost use Rattle.wfe_slots.specs.Writes.{write_phase};
ghost use Rattle.wfe_call_rounds.specs.Leavings.{left as model_left};
ghost use Rattle.wfe_call_rounds.specs.Steps.{came};
ghost use Rattle.wfe_bucketmap.specs.Changes.{LedWithin, kept_of, led, ran};

use super::change_at::{ChangeAt, Changed, Kept};
use wfe_call_rounds::{Over, no_room};
use wfe_core::{AllocateEnd, Post, ProtectEnd};
use wfe_slots::{Row, WriteRow};

// The root's protection has made a step. Where it is over, the row is read, or there is none yet.
#[inline(always)]
pub fn reached(kept: &mut Kept, end: Option<ProtectEnd>, post: &Post) -> Option<Changed>
    requires valid { IsValid post.now }
    requires fits { ChangeFits post.now (kept_of kept.old) }
    ensures turn { (base : Base) (desk : Desk) (told : List ModelEvent) → came Protected (Opens (Changes (kept_of kept.old))) base end post.now desk told ≡ ran (kept_of kept.new) result post.now desk told (Runs (Opens (Changes (kept_of kept.new))) base) }
    ensures within { IfSome result (λ step. LedWithin (kept_of kept.new) step) }
{
    match end {
        Some(ProtectEnd::Held { slot, .. }) => {
            kept.protected(slot as u64 + 1);
            Some(Changed::Goes(ChangeAt::LoadVersion { slot }))
        }
        Some(ProtectEnd::Null) => {
            kept.protected(0);
            Some(kept.decide(post))
        }
        None => None,
    }
}

// A walk for a row has made a step. Where one has failed for the first time, a scan may make room.
#[inline(always)]
pub fn allocated(kept: &mut Kept, end: Option<AllocateEnd>) -> Option<Changed>
    requires version { (kept_of kept.old).version + 1 < 18446744073709551616 }
    ensures turn { (base : Base) (post : ModelPost) (desk : Desk) (told : List ModelEvent) → came Allocated (Fills (Changes (kept_of kept.old))) base end post desk told ≡ ran (kept_of kept.new) result post desk told (Runs (Fills (Changes (kept_of kept.new))) base) }
    ensures within { IfSome result (λ step. LedWithin (kept_of kept.new) step) }
{
    match end {
        Some(AllocateEnd::Given { slot, .. }) => {
            kept.taken = Some(slot);
            Some(Changed::Fills)
        }
        Some(AllocateEnd::Full) => {
            let ending = no_room(kept.walked);
            kept.walked = true;
            Some(Changed::Ends(ending))
        }
        None => None,
    }
}

// The row that is to be written: the next version, and the pairs.
#[inline(always)]
pub fn write(kept: &Kept, slot: u32) -> WriteRow
    requires { (kept_of kept.now).version + 1 < 18446744073709551616 }
    ensures { write_phase result ≡ writing slot (new_row (kept_of kept.now)) }
{
    let (count, pairs) = kept.pairs.row();
    let row = Row::Map {
        version: kept.version + 1,
        count,
        pairs,
    };
    WriteRow::new(slot, row)
}

// The row is written: it is to be linked.
#[inline(always)]
pub fn written(kept: &Kept) -> Changed
    ensures turn { (post : ModelPost) (desk : Desk) (told : List ModelEvent) → written_row (Changes (kept_of kept.now)) post desk told ≡ led (kept_of kept.now) result post desk told }
    ensures within { LedWithin (kept_of kept.now) result }
{
    let slot = match kept.taken {
        Some(slot) => slot,
        None => 0,
    };
    Changed::Goes(ChangeAt::ExchangeRoot { slot })
}

// What comes where a round ends has made a step.
#[inline(always)]
pub fn left(over: Option<Over>) -> Option<Changed>
    ensures turn { (kept : ChangeKept) (post : ModelPost) (desk : Desk) (told : List ModelEvent) (phase : Phase) → model_left (Changes kept) over post desk told phase ≡ ran kept result post desk told phase }
    ensures within { (kept : ChangeKept) → IfSome result (λ step. LedWithin kept step) }
{
    match over {
        Some(over) => Some(Changed::Passes(over)),
        None => None,
    }
}
