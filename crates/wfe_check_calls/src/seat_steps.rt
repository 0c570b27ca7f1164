// What a record says of the steps of a seat, with the changes that an event of it makes.
ghost use Rattle.std.specs.Prelude.{◌≡◌, ◌||◌, ◌&&◌, not, IfOk};
ghost use Rattle.laws.specs.StateAt.{backs_by, is_found as is_found_event, raised_by, spanned_by};
ghost use Rattle.laws.specs.StepLaw.{number_raised, withdraws as does_withdraw};
ghost use Rattle.wfe_check_calls.specs.SeatSteps.{new_seat, seat_by};

use crate::counts::is_thrice;
use wfe_check_rows::raised;
use wfe_defs::{Event, Guard, NoMemory};

/// What is known of a seat.
#[derive(Clone, Copy, Drop)]
pub(crate) struct Seat {
    // How often it has raised its interval since it last began, held, found null or cleared.
    pub raised: u64,
    // Whether what it told last of its interval word is an interval.
    pub spanned: bool,
    // Whether it has to withdraw its helper word now.
    pub due: bool,
    // The rows that it has told back since its call began.
    pub backs: u64,
}

// Whether a protection ends with the event.
fn is_found(event: &Event) -> bool
    ensures { result ≡ is_found_event event.now }
{
    matches!(event, Event::Held { .. } | Event::Null { .. })
}

fn spanned_after(seat: u32, event: &Event, before: bool) -> bool
    ensures { result ≡ spanned_by seat event.now before }
{
    match *event {
        Event::Reserve {
            guard: Guard::Whole { seat: other },
            span,
        } => {
            if other == seat {
                span.is_some()
            } else {
                before
            }
        }
        _ => before,
    }
}

fn raised_after(seat: u32, event: &Event, spanned: bool, before: u64) -> Result<u64, NoMemory>
    ensures { IfOk result (λ count. count ≡ raised_by seat event.now spanned before) }
{
    match *event {
        Event::Begin { .. } | Event::Held { .. } | Event::Null { .. } | Event::Clear { .. } => Ok(
            0,
        ),
        Event::Reserve {
            guard: Guard::Whole { seat: other },
            span,
        } => {
            if other == seat && spanned && span.is_some() {
                raised(before)
            } else {
                Ok(before)
            }
        }
        _ => Ok(before),
    }
}

fn backs_after(event: &Event, before: u64) -> Result<u64, NoMemory>
    ensures { IfOk result (λ count. count ≡ backs_by event.now before) }
{
    match *event {
        Event::Begin { .. } => Ok(0),
        Event::Back { .. } => raised(before),
        _ => Ok(before),
    }
}

impl Seat {
    /// A seat that has told nothing.
    pub fn new() -> Seat
        ensures { result ≡ new_seat }
    {
        Seat {
            raised: 0,
            spanned: false,
            due: false,
            backs: 0,
        }
    }

    /// After an event of the seat, where its helper word publishes or not. NoMemory: a count has passed
    /// the numbers of 64 bits.
    #[inline(always)]
    pub fn after(self, seat: u32, helps: bool, event: &Event) -> Result<Seat, NoMemory>
        ensures { IfOk result (λ after. after ≡ seat_by seat helps event.now self) }
    {
        Ok(Seat {
            raised: raised_after(seat, event, self.spanned, self.raised)?,
            spanned: spanned_after(seat, event, self.spanned),
            due: is_found(event) && helps,
            backs: backs_after(event, self.backs)?,
        })
    }

    /// Whether the event withdraws the helper word where that is due.
    pub fn withdraws(self, seat: u32, event: &Event) -> bool
        ensures { result ≡ (not self.due || does_withdraw seat event.now) }
    {
        if !self.due {
            return true;
        }
        match *event {
            Event::Reserve {
                guard: Guard::Helper { seat: other },
                span,
            } => other == seat && span.is_none(),
            _ => false,
        }
    }

    /// Whether a protection may end with the event, where it raises an interval.
    pub fn raises_fit(self, event: &Event) -> bool
        ensures { result ≡ number_raised event.now self.raised }
    {
        match *event {
            Event::Held { index, steps, .. } => {
                is_thrice(steps, self.raised, if index == 1 { 3 } else { 2 })
            }
            Event::Null { steps, .. } => is_thrice(steps, self.raised, 2),
            _ => true,
        }
    }
}
