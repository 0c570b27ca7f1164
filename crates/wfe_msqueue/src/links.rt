// Links of the queue, and the events of their exchanges.
ghost use Rattle.std.specs.Prelude.{◌≡◌, ◌<◌, ◌≤◌, ◌+◌, ◌++◌, length};
ghost use Rattle.wfe_core.specs.Enqueue.{told_link};

use wfe_core::{Event, Root, Told};

// The link that leads to a row.
#[inline(always)]
pub fn link_to(slot: u32) -> u64
    ensures { result ≡ slot + 1 }
{
    slot as u64 + 1
}

// Tells that a root leads to a row now, if it was exchanged.
#[inline(always)]
pub fn tell_link(told: &mut Told, root: Root, slot: u32, exchanged: bool)
    requires { length told.old < 8 }
    ensures told { told.new ≡ told.old ++ told_link root slot exchanged }
    ensures few { length told.new ≤ length told.old + 1 }
{
    if exchanged {
        told.push(Event::Link { root, slot });
    }
}
