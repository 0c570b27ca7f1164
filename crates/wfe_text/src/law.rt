// What holds of the text of each record.
ghost use Rattle.std.specs.Prelude.{◌≡◌};
ghost use Rattle.wfe_text.specs.Fits.{EventFits};
ghost use Rattle.wfe_text.specs.Record.{event_line};

use wfe_defs::Event;

/// A law: the line of an event of a seat is the line of no other seat and no other event. The
/// first two conditions hold of every value of the type.
pub fn event_line_is_of_one_event(seat: u32, event: Event, other_seat: u32, other: Event)
    requires event { EventFits event }
    requires other { EventFits other }
    requires same { event_line seat event ≡ event_line other_seat other }
    ensures seat { seat ≡ other_seat }
    ensures event { event ≡ other }
{}
