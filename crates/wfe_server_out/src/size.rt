// The numbers of an event have the bits of their types.
ghost use Rattle.wfe_server_out.specs.Sizes.{EventSized};

use wfe_core::Event;

// Does nothing.
pub fn size(event: Event)
    ensures { EventSized event }
{}
