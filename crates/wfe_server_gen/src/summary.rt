// How often each kind of event came.
ghost use Rattle.std.specs.Prelude.{[], ◌≡◌};
ghost use Rattle.wfe_outside.specs.defs.Entry.{entry};
ghost use Rattle.wfe_server_gen.specs.Summary.{Counts, steps_in, summary_after};
ghost use Rattle.wfe_outside.specs.Watched.{Grows};
ghost use Rattle.wfe_server_out.specs.Heard.{Gains};
ghost use Rattle.wfe_server_out.specs.Pieces.{heard_of, told_pieces};

use wfe_core::Told;
use wfe_outside::Event;

/// The numbers of events by their kinds, and the steps of the calls that ended. The clock starts
/// at 1, and each other number at 0; each stands still at the greatest u64.
#[derive(Clone, Copy, Debug, PartialEq, Eq)]
pub struct Summary {
    pub units: u64,
    pub calls: u64,
    pub puts: u64,
    pub removed: u64,
    pub gots: u64,
    pub queued: u64,
    pub taken: u64,
    pub retired: u64,
    pub back: u64,
    pub clock: u64,
}

// The steps of the call that ends.
fn steps_of(event: &Event) -> u64
    ensures { result ≡ steps_in event.now }
{
    match event {
        Event::End { steps, .. } => *steps,
        _ => 0,
    }
}

impl Summary {
    /// Nothing was told.
    pub fn new() -> Summary
        ensures { Counts result [] }
    {
        Summary {
            units: 0,
            calls: 0,
            puts: 0,
            removed: 0,
            gots: 0,
            queued: 0,
            taken: 0,
            retired: 0,
            back: 0,
            clock: 1,
        }
    }

    // Adds an event to the numbers.
    fn add(&mut self, event: &Event)
        ensures { self.new ≡ summary_after self.old event.now }
    {
        self.units = self.units.saturating_add(steps_of(event));
        match event {
            Event::Begin { .. } => self.calls = self.calls.saturating_add(1),
            Event::Put { .. } => self.puts = self.puts.saturating_add(1),
            Event::Removed { .. } => self.removed = self.removed.saturating_add(1),
            Event::Got { .. } => self.gots = self.gots.saturating_add(1),
            Event::Queued { .. } => self.queued = self.queued.saturating_add(1),
            Event::Taken { .. } => self.taken = self.taken.saturating_add(1),
            Event::Retire { .. } => self.retired = self.retired.saturating_add(1),
            Event::Back { .. } => self.back = self.back.saturating_add(1),
            Event::Era { .. } => self.clock = self.clock.saturating_add(1),
            _ => {}
        }
    }

    /// Counts one more event.
    pub fn count(&mut self, seat: u32, event: &Event)
        ensures { Grows Counts self.old self.new (entry seat event.now) }
    {
        let _ = seat;
        self.add(event);
    }

    /// Counts the events of a step.
    pub fn count_all(&mut self, seat: u32, told: &Told)
        ensures { Gains Counts self.old self.new (heard_of (told_pieces seat told.now)) }
    {
        for place in 0..told.len() {
            self.count(seat, told.get(place));
        }
    }
}
