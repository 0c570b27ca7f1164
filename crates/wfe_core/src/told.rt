// The events of one step.
ghost use Rattle.std.specs.Prelude.{◌≡◌, ◌<◌, ◌≤◌, [], ◌∷◌, ◌++◌, length, slice_get, Some};

use std::marker::Model;
use wfe_defs::{Call, Event};

/// The events of one step, at most eight, in order.
#[derive(Drop)]
pub struct Told {
    events: [Event; 8],
    len: usize,
}

impl Model for Told {
    ghost use Rattle.std.specs.Prelude.{◌≡◌, ◌≤◌, List, take, length};
    ghost use Rattle.wfe_defs.specs.declared.event.Event.{Event};

    ghost Value = { List Event };

    ghost view = { λ t. take t.len t.events };

    ghost invariant = { λ t. (t.len ≤ 8) × (length t.events ≡ 8) };
}

impl Told {
    /// No events.
    pub fn new() -> Told
        ensures { result ≡ [] }
    {
        Told {
            events: [Event::Begin { call: Call::Scan }; 8],
            len: 0,
        }
    }

    /// How many events there are.
    pub fn len(&self) -> usize
        ensures count { result ≡ length self.now }
        ensures most { result ≤ 8 }
    {
        self.len
    }

    /// The event at a place, from 0.
    pub fn get(&self, place: usize) -> &Event
        requires { place < length self.now }
        ensures { slice_get self.now place ≡ Some result.now }
    {
        let events = &self.events;
        &events[place]
    }

    /// Adds an event at the end.
    #[inline(always)]
    pub fn push(&mut self, event: Event)
        requires { length self.old < 8 }
        ensures { self.new ≡ self.old ++ event ∷ [] }
    {
        self.events[self.len] = event;
        self.len += 1;
    }

    /// Leaves no events.
    pub fn clear(&mut self)
        ensures { self.new ≡ [] }
    {
        self.len = 0;
    }
}
