// A row is taken, unless the call has one, and the item is written into it.
ghost use Rattle.std.specs.Prelude.{◌≡◌, ◌≤◌, ◌<◌, ◌+◌, Some};
ghost use Rattle.wfe_core.specs.Calls.{Enqueues, Enqueuing, ExchangeNext, Fills, Runs, Works};
ghost use Rattle.wfe_core.specs.DeskHeld.{HasRoom, desk_of};
ghost use Rattle.wfe_core.specs.Enqueue.{filling, new_item};
ghost use Rattle.wfe_core.specs.WriteRow.{writing};
ghost use Rattle.wfe_drive_runs.specs.Items.{filled_at, kept_of};
ghost use Rattle.wfe_drive_words.specs.Called.{Here, at_phase};
ghost use Rattle.wfe_drive_words.specs.Path.{Leads};

use crate::fill::write_item;
use crate::item::Item;
use crate::rows::take_row;
use wfe_core::{AllocateEnd, Desk, Post};
use wfe_drive_words::Words;

// Answers the row that has the item now, or none where no row was free.
#[inline(always)]
pub fn fill_item<W: Words>(
    words: &mut W,
    post: &mut Post,
    desk: &mut Desk,
    item: &mut Item,
) -> Option<u32>
    requires valid { W.valid words.old }
    requires later { W.later words.old }
    requires here { Here (W.at words.old) (at_phase (Runs (Fills (Enqueues (kept_of item.old))) (filling (kept_of item.old))) post.old desk.old) }
    requires room { HasRoom desk.old post.old.layout }
    ensures valid { W.valid words.new }
    ensures later { W.later words.new }
    ensures same { W.same words.old words.new }
    ensures rest { W.rest words.new ≤ W.rest words.old }
    ensures room { HasRoom desk.new post.new.layout }
    ensures layout { post.new.layout ≡ post.old.layout }
    ensures standing { post.new.standing ≡ post.old.standing }
    ensures leads { Leads (W.at words.old) (W.at words.new) (W.stands words.old) (W.stands words.new)
        (at_phase (Runs (Fills (Enqueues (kept_of item.old))) (filling (kept_of item.old))) post.old desk.old)
        (filled_at result (kept_of item.old) (kept_of item.new) post.new (desk_of desk.new)) }
{
    match item.taken {
        Some(slot) => {
            write(words, post, desk, item, slot);
            Some(slot)
        }
        None => match take_row(words, post, desk) {
            AllocateEnd::Given { slot, .. } => {
                item.taken = Some(slot);
                write(words, post, desk, item, slot);
                Some(slot)
            }
            AllocateEnd::Full => {
                item.walked = true;
                None
            }
        },
    }
}

// Writes the item with the next number.
#[inline(always)]
fn write<W: Words>(words: &mut W, post: &mut Post, _desk: &Desk, item: &Item, slot: u32)
    requires valid { W.valid words.old }
    requires later { W.later words.old }
    requires taken { item.now.taken ≡ Some slot }
    requires here { Here (W.at words.old) (at_phase (Runs (Fills (Enqueues (kept_of item.now))) (writing slot (new_item (kept_of item.now)))) post.old _desk.now) }
    ensures valid { W.valid words.new }
    ensures later { W.later words.new }
    ensures same { W.same words.old words.new }
    ensures rest { W.rest words.new ≤ W.rest words.old }
    ensures post { post.new ≡ record post.old { steps = post.old.steps + 3 } }
    ensures leads { Leads (W.at words.old) (W.at words.new) (W.stands words.old) (W.stands words.new)
        (at_phase (Runs (Fills (Enqueues (kept_of item.now))) (writing slot (new_item (kept_of item.now)))) post.old _desk.now)
        (at_phase (Works (Enqueuing (kept_of item.now) (ExchangeNext slot))) post.new _desk.now) }
{
    write_item(words, post, slot, item.number + 1, item.value);
}
