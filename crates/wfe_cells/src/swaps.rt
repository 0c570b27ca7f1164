// Cells of words are changed: the words go into a bucket that no cell names, and then the cell is to name that. The bucket that it named
// before is the thread's, for its next swap; so a swap queues none, and a take one at most, before it changes the cell.
ghost use Rattle.std.specs.Prelude.{◌≡◌, ◌≢◌, ◌≤◌, ◌<◌, ◌+◌, IfErr, IfNone, IfOk, IfSome, None, OnOk, Some, [], length, ℕ};
ghost use Rattle.wfe_table.specs.Public.{IsOf};
ghost use Rattle.wfe_table.specs.history.History.{record_of};
ghost use Rattle.wfe_cells.specs.Only.{IsDequeue, IsGet, IsOfPlace, IsOfSwap, IsOfTake, IsOnly, IsPutOf, IsQueueing, IsTaking};
ghost use Rattle.wfe_cells.specs.Reasons.{HasNoBlock, HasNone, IsLater, IsNotGiven, IsNotQueued, IsQuiet, IsRefused, IsRefusedAt, IsStaleAt, KeepsAll, KeepsBlocks, block_named, queues, takes};
ghost use Rattle.wfe_cells.specs.Stores.{is_object};
ghost use Rattle.wfe_cells.specs.Wide.{IsIn, IsNamed, IsNext, IsPlaced, IsShown};

use crate::blocks::{BUCKETS, buckets, write};
use crate::wide::{Seen, SwapRefusal, WideUser};
use wfe_table::{EnqueueRefusal, PutIfRefusal, Seat, Shared};

// The object that the cell names, or 0, where it is at the version that was seen.
fn current(shared: &Shared, seat: &mut Seat, seen: Seen) -> Result<u64, SwapRefusal>
    requires of { IsOf seat.old shared.now }
    requires cell { seen.cell < shared.now.layout.config.buckets }
    ensures of { IsOf seat.new shared.now }
    ensures quiet { IsQuiet seat.old seat.new }
    ensures only { IsOnly IsGet seat.old seat.new }
    ensures named { IfOk result (IsNamed shared.now.layout seat.new.track.past seen) }
    ensures refused { IfErr result (IsStaleAt shared.now.layout seat.old seat.new seen) }
{
    let got = shared.get(seat, seen.cell);
    if got.version != seen.version {
        return Err(SwapRefusal::Stale {
            version: got.version,
        });
    }
    Ok(got.value.unwrap_or(0))
}

// Gives the cell this object, or none for 0, where it is at the version that was seen.
fn exchange(shared: &Shared, seat: &mut Seat, seen: Seen, object: u64) -> Result<Seen, SwapRefusal>
    requires of { IsOf seat.old shared.now }
    requires cell { seen.cell < shared.now.layout.config.buckets }
    ensures of { IsOf seat.new shared.now }
    ensures quiet { IsQuiet seat.old seat.new }
    ensures only { IsOnly (IsPutOf seen result) seat.old seat.new }
    ensures next { IfOk result (IsNext shared.now.layout seat.new.track.past seen object) }
    ensures refused { IfErr result (IsNotGiven shared.now.layout seat.old seat.new seen object) }
{
    match shared.put_if(seat, seen.cell, object, seen.version) {
        Ok(done) => Ok(Seen {
            cell: seen.cell,
            version: done.version,
            object,
        }),
        Err(PutIfRefusal::Stale { version }) => Err(SwapRefusal::Stale { version }),
        Err(refusal) => Err(SwapRefusal::Refused { refusal }),
    }
}

// Puts the words into this bucket, and has the cell name it.
fn place(
    shared: &Shared,
    seat: &mut Seat,
    block: u64,
    seen: Seen,
    words: &[u64],
) -> Result<Seen, SwapRefusal>
    requires of { IsOf seat.old shared.now }
    requires cell { seen.cell < shared.now.layout.config.buckets }
    requires block { block < shared.now.layout.config.buckets }
    requires some { 1 ≤ length words.now }
    requires few { length words.now ≤ 14 }
    ensures of { IsOf seat.new shared.now }
    ensures quiet { IsQuiet seat.old seat.new }
    ensures only { IsOnly (IsOfPlace shared.now.layout.config.buckets block seen result) seat.old seat.new }
    ensures placed { IfOk result (IsPlaced shared.now.layout seat.new.track.past seen block words.now) }
    ensures refused { IfErr result (IsRefusedAt shared.now.layout seat.old seat.new seen (Some block) words.now) }
{
    let object = match write(shared, seat, block, words) {
        Ok(object) => object,
        Err(refusal) => return Err(SwapRefusal::Refused { refusal }),
    };
    match exchange(shared, seat, seen, object) {
        Ok(now) => Ok(now),
        Err(refusal) => Err(refusal),
    }
}

// The bucket that the thread has kept.
fn take_spare(shared: &Shared, spare: &mut Option<u64>) -> Option<u64>
    ensures spare { spare.new ≡ None }
    ensures some { IfSome result (λ block. (spare.old ≡ Some block) × (block < shared.now.layout.config.buckets)) }
    ensures none { IfNone result (IfSome spare.old (λ block. shared.now.layout.config.buckets ≤ block)) }
{
    let Some(block) = spare.take() else {
        return None;
    };
    if block < buckets(shared) {
        Some(block)
    } else {
        None
    }
}

// The one that waits in the queue's front.
fn take_queued(shared: &Shared, seat: &mut Seat) -> Option<u64>
    requires of { IsOf seat.old shared.now }
    ensures of { IsOf seat.new shared.now }
    ensures later { IsLater seat.old seat.new }
    ensures only { IsOnly IsDequeue seat.old seat.new }
    ensures some { IfSome result (λ block. block < shared.now.layout.config.buckets) }
    ensures takes { (block : ℕ) → block < shared.now.layout.config.buckets → takes block seat.new ≡ takes block seat.old + is_object block result }
    ensures queues { (block : ℕ) → queues block seat.new ≡ queues block seat.old }
    ensures none { IfNone result (HasNone shared.now.layout seat.old seat.new) }
{
    let Ok(taken) = shared.dequeue(seat) else {
        return None;
    };
    if taken.value < buckets(shared) {
        Some(taken.value)
    } else {
        None
    }
}

// A bucket that no cell names.
fn take_block(shared: &Shared, user: &mut WideUser) -> Option<u64>
    requires of { IsOf user.old.seat shared.now }
    ensures of { IsOf user.new.seat shared.now }
    ensures later { IsLater user.old.seat user.new.seat }
    ensures only { IsOnly (IsTaking shared.now.layout.config.buckets user.old.spare) user.old.seat user.new.seat }
    ensures spare { user.new.spare ≡ None }
    ensures some { IfSome result (λ block. block < shared.now.layout.config.buckets) }
    ensures kept { KeepsBlocks shared.now.layout.config.buckets user.old user.new None result }
    ensures none { IfNone result (HasNoBlock shared.now.layout user.old user.new) }
{
    match take_spare(shared, &mut user.spare) {
        Some(block) => Some(block),
        None => match take_queued(shared, &mut user.seat) {
            Some(queued) => Some(queued),
            None => None,
        },
    }
}

// The bucket that an object names.
fn block_in(object: u64) -> Option<u64>
    ensures { result ≡ block_named object }
{
    if object == 0 {
        None
    } else {
        Some(object % BUCKETS)
    }
}

// Puts the words into a bucket that no cell names, and has the cell name it.
pub(crate) fn swap_within(
    shared: &Shared,
    user: &mut WideUser,
    seen: Seen,
    words: &[u64],
) -> Result<Seen, SwapRefusal>
    requires of { IsOf user.old.seat shared.now }
    requires cell { seen.cell < shared.now.layout.config.buckets }
    requires some { 1 ≤ length words.now }
    requires few { length words.now ≤ 14 }
    ensures of { IsOf user.new.seat shared.now }
    ensures later { IsLater user.old.seat user.new.seat }
    ensures only { IsOnly (IsOfSwap shared.now.layout.config.buckets seen user.old.spare user.new.spare result) user.old.seat user.new.seat }
    ensures shown { IfOk result (λ now. IsShown shared.now.layout user.new.seat.track.past seen.cell now words.now) }
    ensures some { IfOk result (λ now. now.object ≢ 0) }
    ensures next { IfOk result (λ now. now.version ≡ seen.version + 1) }
    ensures kept { KeepsAll shared.now.layout user.old user.new seen result }
    ensures refused { IfErr result (IsRefused shared.now.layout user.old user.new seen words.now) }
{
    let replaced = match current(shared, &mut user.seat, seen) {
        Ok(object) => object,
        Err(refusal) => return Err(refusal),
    };
    let Some(block) = take_block(shared, user) else {
        return Err(SwapRefusal::NoBlock);
    };
    match place(shared, &mut user.seat, block, seen, words) {
        Ok(now) => {
            user.spare = block_in(replaced);
            Ok(now)
        }
        Err(refusal) => {
            user.spare = Some(block);
            Err(refusal)
        }
    }
}

// Queues the bucket that the thread has kept, for others.
pub(crate) fn give_back(shared: &Shared, user: &mut WideUser) -> Result<(), EnqueueRefusal>
    requires of { IsOf user.old.seat shared.now }
    ensures of { IsOf user.new.seat shared.now }
    ensures later { IsLater user.old.seat user.new.seat }
    ensures only { IsOnly (IsQueueing user.old.spare) user.old.seat user.new.seat }
    ensures spare { OnOk result (user.new.spare ≡ None) }
    ensures kept { KeepsBlocks shared.now.layout.config.buckets user.old user.new None None }
    ensures refused { IfErr result (IsNotQueued shared.now.layout user.old user.new) }
{
    let Some(block) = user.spare else {
        return Ok(());
    };
    match shared.enqueue(&mut user.seat, block) {
        Ok(_queued) => {
            user.spare = None;
            Ok(())
        }
        Err(refusal) => Err(refusal),
    }
}

// Has the cell name none, where it is at the version that was seen.
pub(crate) fn take_within(
    shared: &Shared,
    user: &mut WideUser,
    seen: Seen,
) -> Result<Seen, SwapRefusal>
    requires of { IsOf user.old.seat shared.now }
    requires cell { seen.cell < shared.now.layout.config.buckets }
    ensures of { IsOf user.new.seat shared.now }
    ensures later { IsLater user.old.seat user.new.seat }
    ensures only { IsOnly (IsOfTake seen user.old.spare result) user.old.seat user.new.seat }
    ensures shown { IfOk result (λ now. IsIn (record_of shared.now.layout user.new.seat.track.past) seen.cell now) }
    ensures none { IfOk result (λ now. now.object ≡ 0) }
    ensures next { IfOk result (λ now. now.version ≡ seen.version + 1) }
    ensures kept { KeepsAll shared.now.layout user.old user.new seen result }
    ensures refused { IfErr result (IsRefused shared.now.layout user.old user.new seen []) }
{
    let taken = match current(shared, &mut user.seat, seen) {
        Ok(object) => object,
        Err(refusal) => return Err(refusal),
    };
    match give_back(shared, user) {
        Ok(()) => {}
        Err(refusal) => return Err(SwapRefusal::NotQueued { refusal }),
    }
    match exchange(shared, &mut user.seat, seen, 0) {
        Ok(now) => {
            user.spare = block_in(taken);
            Ok(now)
        }
        Err(refusal) => Err(refusal),
    }
}
