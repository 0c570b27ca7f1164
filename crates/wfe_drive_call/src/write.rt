// The stores of a new row: the version, the count, and each pair in order.
ghost use Rattle.std.specs.Prelude.{◌≡◌, ◌<◌, ◌≤◌, ◌+◌, length};
ghost use Rattle.wfe_core.specs.words.Place.{number};
ghost use Rattle.wfe_core.specs.words.Place.Place.{Row};
ghost use Rattle.wfe_core.specs.Calls.{ExchangeRoot};
ghost use Rattle.wfe_core.specs.DeskHeld.{desk_of};
ghost use Rattle.wfe_core.specs.Steps.{slot_in};
ghost use Rattle.wfe_core.specs.Valid.{IsValid};
ghost use Rattle.wfe_drive_runs.specs.drive_words.Called.{Here};
ghost use Rattle.wfe_drive_runs.specs.drive_words.Path.{Leads};
ghost use Rattle.wfe_drive_call.specs.Changing.{kept_of, step_post, works_at, writes_at, wrote_at};

use crate::kept::Kept;
use wfe_core::{Desk, Post};
use wfe_drive_runs::{Words, step, store_cell};

// Writes the pairs, once the count is written, after so many steps of the call, and answers the steps
// after it.
#[inline(always)]
fn write_pairs<W: Words>(
    words: &mut W,
    post: &Post,
    _desk: &Desk,
    kept: &Kept,
    slot: u32,
    first: u32,
    before: u64,
) -> u64
    requires valid { W.valid words.old }
    requires later { W.later words.old }
    requires own { IsValid post.now }
    requires slot { slot ≤ post.now.layout.config.slots }
    requires first { first ≡ number post.now.layout (Row slot 0) }
    requires few { length (kept_of kept.now).pairs ≤ post.now.layout.config.pairs }
    requires here { Here (W.at words.old) (wrote_at (kept_of kept.now) slot 2 (step_post post.now before) (desk_of _desk.now)) }
    ensures valid { W.valid words.new }
    ensures later { W.later words.new }
    ensures same { W.same words.old words.new }
    ensures rest { W.rest words.new ≤ W.rest words.old }
    ensures leads { Leads (W.at words.old) (W.at words.new) (W.stands words.old) (W.stands words.new)
        (wrote_at (kept_of kept.now) slot 2 (step_post post.now before) (desk_of _desk.now))
        (works_at (kept_of kept.now) (ExchangeRoot (slot_in (kept_of kept.now).taken)) (step_post post.now result) (desk_of _desk.now)) }
{
    let count = kept.pairs.len() as u32;
    let mut steps = before;
    let mut pair = 0;
    while pair < count {
        let (key, value) = kept.pairs.get(pair as usize);
        step(words, store_cell(post, slot, first, 3 + 2 * pair, key));
        step(words, store_cell(post, slot, first, 4 + 2 * pair, value));
        steps += 2;
        pair += 1;
    }
    steps
}

// Writes a row, after so many steps of the call, and answers the steps after it.
#[inline(always)]
pub fn write_row<W: Words>(
    words: &mut W,
    post: &Post,
    _desk: &Desk,
    kept: &Kept,
    slot: u32,
    before: u64,
) -> u64
    requires valid { W.valid words.old }
    requires later { W.later words.old }
    requires own { IsValid post.now }
    requires slot { slot ≤ post.now.layout.config.slots }
    requires few { length (kept_of kept.now).pairs ≤ post.now.layout.config.pairs }
    requires here { Here (W.at words.old) (writes_at (kept_of kept.now) slot 1 (step_post post.now before) (desk_of _desk.now)) }
    ensures valid { W.valid words.new }
    ensures later { W.later words.new }
    ensures same { W.same words.old words.new }
    ensures rest { W.rest words.new ≤ W.rest words.old }
    ensures leads { Leads (W.at words.old) (W.at words.new) (W.stands words.old) (W.stands words.new)
        (writes_at (kept_of kept.now) slot 1 (step_post post.now before) (desk_of _desk.now))
        (works_at (kept_of kept.now) (ExchangeRoot (slot_in (kept_of kept.now).taken)) (step_post post.now result) (desk_of _desk.now)) }
{
    let place = *post;
    let first = place.layout.row(slot, 0);
    let count = kept.pairs.len() as u64;
    step(words, store_cell(&place, slot, first, 1, kept.version + 1));
    step(words, store_cell(&place, slot, first, 2, count));
    let desk = _desk;
    write_pairs(words, &place, desk, kept, slot, first, before + 2)
}
