// What a call has done with the row that it was given.
ghost use Rattle.std.specs.Prelude.{◌≡◌};
ghost use Rattle.laws.specs.Once.{granted_by, is_placed as is_placed_right, linked_to as grant_linked, no_grant, places_right};
ghost use Rattle.laws.specs.StateAt.{is_row};
ghost use Rattle.wfe_check_calls.specs.Seats.{shown_grant};

use wfe_defs::{Event, Root};

#[derive(Clone, Copy, Drop)]
pub(crate) struct Grant {
    pub row: Option<u32>,
    pub linked: bool,
    pub unused: bool,
}

impl Grant {
    /// That of a call to which no row was given.
    pub fn none() -> Grant
        ensures { shown_grant result ≡ no_grant }
    {
        Grant {
            row: None,
            linked: false,
            unused: false,
        }
    }

    fn has(self, slot: u32) -> bool
        ensures { result ≡ is_row slot self.row }
    {
        match self.row {
            Some(row) => slot == row,
            None => false,
        }
    }

    fn linked_to(self, slot: u32) -> Grant
        ensures { shown_grant result ≡ grant_linked slot (shown_grant self) }
    {
        if self.has(slot) {
            Grant {
                linked: true,
                ..self
            }
        } else {
            self
        }
    }

    // After an event of the seat.
    #[inline(always)]
    fn after(self, event: &Event) -> Grant
        ensures { shown_grant result ≡ granted_by event.now (shown_grant self) }
    {
        match *event {
            Event::Begin { .. } => Grant::none(),
            Event::Give { slot, .. } => Grant {
                row: Some(slot),
                linked: false,
                unused: false,
            },
            Event::Unused { slot } => {
                if self.has(slot) {
                    Grant {
                        unused: true,
                        ..self
                    }
                } else {
                    self
                }
            }
            Event::Link {
                root: Root::Bucket(_) | Root::Next(_),
                slot,
            } => self.linked_to(slot),
            _ => self,
        }
    }

    /// Takes an event of the seat: most change nothing, and write nothing.
    #[inline(always)]
    pub fn note(&mut self, event: &Event)
        ensures { shown_grant self.new ≡ granted_by event.now (shown_grant self.old) }
    {
        match event {
            Event::Begin { .. } | Event::Give { .. } | Event::Unused { .. } | Event::Link { .. } =>
                {
                    *self = self.after(event);
                }
            _ => {}
        }
    }

    fn is_placed(self) -> bool
        ensures { result ≡ is_placed_right (shown_grant self) }
    {
        self.row.is_none() || self.linked != self.unused
    }

    /// Whether the seat may tell the event.
    pub fn fits(self, event: &Event) -> bool
        ensures { result ≡ places_right event.now (shown_grant self) }
    {
        match *event {
            Event::Give { .. } => self.row.is_none(),
            Event::Link {
                root: Root::Bucket(_) | Root::Next(_),
                slot,
            } => self.has(slot) && !self.linked,
            Event::End { .. } => self.is_placed(),
            _ => true,
        }
    }
}
