// A queue row is written, one word a step.
ghost use Rattle.std.specs.Prelude.{◌≡◌, ◌<◌, ◌+◌, [], true};
ghost use Rattle.wfe_core.specs.words.Place.Place.{Row};
ghost use Rattle.wfe_core.specs.words.Place.{has, number as number_of};
ghost use Rattle.wfe_core.specs.Calls.{Runs, Why};
ghost use Rattle.wfe_core.specs.Desks.{Desk as ModelDesk};
ghost use Rattle.wfe_core.specs.Memory.{Store as Stores};
ghost use Rattle.wfe_core.specs.Phases.{QueueRow};
ghost use Rattle.wfe_core.specs.Phases.Base.{Write};
ghost use Rattle.wfe_core.specs.Phases.Ending.{Done};
ghost use Rattle.wfe_core.specs.Ready.{SlotFits};
ghost use Rattle.wfe_core.specs.Steps.{resume};
ghost use Rattle.wfe_core.specs.Valid.{IsValid};
ghost use Rattle.wfe_drive_words.specs.drive_cells.Spots.{spotted};
ghost use Rattle.wfe_drive_words.specs.drive_cells.Unit.{kept_desk};
ghost use Rattle.wfe_drive_words.specs.Called.{Here};
ghost use Rattle.wfe_drive_runs.specs.Pieces.{TurnsTo, seat_of};

use wfe_core::{Op, Post};
use wfe_drive_words::{Located, Words, step};

/// Writes an item with its number into a row of the seat's, with no next link.
#[inline(always)]
pub fn write_item<W: Words>(words: &mut W, post: &mut Post, slot: u32, number: u64, value: u64)
    requires valid { W.valid words.old }
    requires later { W.later words.old }
    requires own { IsValid post.old }
    requires slot { SlotFits post.old slot }
    requires here { (why : Why) × (desk : ModelDesk) × Here (W.at words.old) (seat_of (Runs why (Write slot (QueueRow number value) 0)) post.old desk) }
    ensures valid { W.valid words.new }
    ensures later { W.later words.new }
    ensures same { W.same words.old words.new }
    ensures rest { W.rest words.new < W.rest words.old }
    ensures post { post.new ≡ record post.old { steps = post.old.steps + 3 } }
    ensures turns { (why : Why) (desk : ModelDesk) → Here (W.at words.old) (seat_of (Runs why (Write slot (QueueRow number value) 0)) post.old desk)
        → TurnsTo (W.at words.old) (W.at words.new) (W.stands words.old) (W.stands words.new) (seat_of (Runs why (Write slot (QueueRow number value) 0)) post.old desk) (resume why Done post.new (kept_desk desk) []) }
{
    let place = *post;
    let first = place.layout.row(slot, 0);
    step(words, store_cell(&place, slot, first, 0, 0));
    step(words, store_cell(&place, slot, first, 1, number));
    step(words, store_cell(&place, slot, first, 2, value));
    post.steps += 3;
}

// A store of a word of a row, of which the number of the first word is known.
#[inline(always)]
pub fn store_cell(post: &Post, _slot: u32, first: u32, place: u32, value: u64) -> Located
    requires valid { IsValid post.now }
    requires there { has post.now.layout (Row _slot place) ≡ true }
    requires first { first ≡ number_of post.now.layout (Row _slot 0) }
    ensures { result ≡ spotted post.now.layout (Stores (Row _slot place) value) }
{
    let word = first + place;
    Located::dense(&post.layout, Op::Store { word, value })
}
