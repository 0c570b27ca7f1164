// The reads of the bucket's row: the version, the count, and each pair in order.
ghost use Rattle.std.specs.Prelude.{◌≡◌, ◌<◌, ◌≤◌, ◌+◌, []};
ghost use Rattle.wfe_core.specs.words.Place.{number};
ghost use Rattle.wfe_core.specs.words.Place.Place.{Row};
ghost use Rattle.wfe_core.specs.Calls.{LoadVersion};
ghost use Rattle.wfe_core.specs.DeskHeld.{desk_of};
ghost use Rattle.wfe_core.specs.Valid.{IsValid};
ghost use Rattle.wfe_drive_runs.specs.drive_words.Called.{Here};
ghost use Rattle.wfe_drive_runs.specs.drive_words.Path.{Leads};
ghost use Rattle.wfe_drive_call.specs.Changing.{kept_of, pairs_at, read_at, step_post, works_at};

use crate::kept::Kept;
use wfe_core::{Desk, Post};
use wfe_drive_runs::{Words, load_cell, step};

// Reads the pairs of a row that has so many, after so many steps of the call, and answers the steps
// after it.
#[inline(always)]
fn read_pairs<W: Words>(
    words: &mut W,
    post: &Post,
    _desk: &Desk,
    kept: &mut Kept,
    slot: u32,
    first: u32,
    count: u32,
    before: u64,
) -> u64
    requires valid { W.valid words.old }
    requires later { W.later words.old }
    requires own { IsValid post.now }
    requires slot { slot ≤ post.now.layout.config.slots }
    requires first { first ≡ number post.now.layout (Row slot 0) }
    requires count { count ≤ post.now.layout.config.pairs }
    requires none { (kept_of kept.old).pairs ≡ [] }
    requires here { Here (W.at words.old) (pairs_at (kept_of kept.old) slot count (step_post post.now before) (desk_of _desk.now)) }
    ensures valid { W.valid words.new }
    ensures later { W.later words.new }
    ensures same { W.same words.old words.new }
    ensures rest { W.rest words.new ≤ W.rest words.old }
    ensures leads { Leads (W.at words.old) (W.at words.new) (W.stands words.old) (W.stands words.new)
        (pairs_at (kept_of kept.old) slot count (step_post post.now before) (desk_of _desk.now)) (read_at (kept_of kept.new) (step_post post.now result) (desk_of _desk.now)) }
{
    let mut steps = before;
    let mut pair = 0;
    while pair < count {
        let key = step(words, load_cell(post, slot, first, 3 + 2 * pair));
        let value = step(words, load_cell(post, slot, first, 4 + 2 * pair));
        kept.pairs.push(key, value);
        steps += 2;
        pair += 1;
    }
    steps
}

// Reads a row, after so many steps of the call, and answers the steps after it.
#[inline(always)]
pub fn read_row<W: Words>(
    words: &mut W,
    post: &Post,
    _desk: &Desk,
    kept: &mut Kept,
    slot: u32,
    before: u64,
) -> u64
    requires valid { W.valid words.old }
    requires later { W.later words.old }
    requires own { IsValid post.now }
    requires slot { slot ≤ post.now.layout.config.slots }
    requires none { (kept_of kept.old).pairs ≡ [] }
    requires here { Here (W.at words.old) (works_at (kept_of kept.old) (LoadVersion slot) (step_post post.now before) (desk_of _desk.now)) }
    ensures valid { W.valid words.new }
    ensures later { W.later words.new }
    ensures same { W.same words.old words.new }
    ensures rest { W.rest words.new ≤ W.rest words.old }
    ensures leads { Leads (W.at words.old) (W.at words.new) (W.stands words.old) (W.stands words.new)
        (works_at (kept_of kept.old) (LoadVersion slot) (step_post post.now before) (desk_of _desk.now)) (read_at (kept_of kept.new) (step_post post.now result) (desk_of _desk.now)) }
{
    let place = *post;
    let first = place.layout.row(slot, 0);
    let version = step(words, load_cell(&place, slot, first, 1));
    kept.version = version;
    let count = step(words, load_cell(&place, slot, first, 2)) as u32;
    let desk = _desk;
    read_pairs(words, &place, desk, kept, slot, first, count, before + 2)
}
