// What a record says of an index word, with the changes that an event makes that speaks of it.
ghost use Rattle.std.specs.Prelude.{◌≡◌, ◌+◌, ◌==◌, ◌||◌, ◌&&◌, nat_le, not, IfOk, ℕ};
ghost use Rattle.laws.specs.StateAt.{era_grows as does_grow, one_more as with_one_more, rises_on as does_rise};
ghost use Rattle.laws.specs.StepLaw.{number_loaded};
ghost use Rattle.wfe_check_calls.specs.Places.{named_place as place_named};
ghost use Rattle.wfe_check_calls.specs.Right.{hazards_right, is_another, tries_right};
ghost use Rattle.wfe_check_calls.specs.Words.{begun_anew, hazarded as word_hazarded, new_word, published as word_published, word_by};

use crate::counts::{is_thrice, is_twice};
use wfe_check_rows::raised;
use wfe_defs::{Event, Guard, Interval, NoMemory};

/// An index word.
#[derive(Clone, Copy, Drop)]
pub(crate) struct Place {
    pub seat: u32,
    pub index: u32,
}

/// What is known of an index word.
#[derive(Clone, Copy, Drop)]
pub(crate) struct Word {
    // The intervals that its seat has told since it told none.
    pub reserves: u64,
    // Whether the eras that it has published since it published nothing rose, whoever told them.
    pub rising: bool,
    // The intervals that its seat has told since it told none, or what a protection ends with, or a copy.
    pub tried: u64,
    // The last of these.
    pub own_last: Option<Interval>,
    // Whether these rose.
    pub own_rising: bool,
    // Whether a protection is under way there: its seat told the first of them where the word published nothing.
    pub under_way: bool,
    // The rows that its seat has told since it told none.
    pub hazards: u64,
    // The last row that its seat has told in the protection that is under way there.
    pub own_hazard: Option<u32>,
}

/// The index word that an event of the seat speaks of.
pub(crate) fn named_place(seat: u32, event: &Event) -> Option<Place>
    ensures { result ≡ place_named seat event.now }
{
    match *event {
        Event::Reserve {
            guard: Guard::Index { seat, index },
            ..
        }
        | Event::Hazard {
            guard: Guard::Index { seat, index },
            ..
        } => Some(Place { seat, index }),
        Event::Held { index, .. } | Event::Null { index, .. } | Event::Copied { index, .. } => {
            Some(Place { seat, index })
        }
        _ => None,
    }
}

// An interval is one more, none begins anew.
fn one_more(span: Option<Interval>, before: u64) -> Result<u64, NoMemory>
    ensures { IfOk result (λ count. count ≡ with_one_more span before) }
{
    match span {
        Some(_) => raised(before),
        None => Ok(0),
    }
}

// Whether an interval is later than the one before it, and so were those before.
fn rises_on(last: Option<Interval>, span: Option<Interval>, before: bool) -> bool
    ensures { result ≡ does_rise last span before }
{
    match (last, span) {
        (_, None) => true,
        (None, Some(_)) => before,
        (Some(old), Some(span)) => old.hi < span.hi && before,
    }
}

impl Word {
    /// A word of which nothing was told.
    pub fn new() -> Word
        ensures { result ≡ new_word }
    {
        Word {
            reserves: 0,
            rising: true,
            tried: 0,
            own_last: None,
            own_rising: true,
            under_way: false,
            hazards: 0,
            own_hazard: None,
        }
    }

    fn anew(self) -> Word
        ensures { result ≡ begun_anew self }
    {
        Word {
            tried: 0,
            own_last: None,
            own_rising: true,
            under_way: false,
            own_hazard: None,
            ..self
        }
    }

    // Published by its own seat or by another one, where it has published `last`.
    fn published(
        self,
        own: bool,
        last: Option<Interval>,
        span: Option<Interval>,
    ) -> Result<Word, NoMemory>
        ensures { IfOk result (λ word. word ≡ word_published own last span self) }
    {
        let rising = rises_on(last, span, self.rising);
        if own {
            Ok(Word {
                reserves: one_more(span, self.reserves)?,
                rising,
                tried: one_more(span, self.tried)?,
                own_last: span,
                own_rising: rises_on(self.own_last, span, self.own_rising),
                under_way: span.is_some() && (self.under_way || last.is_none()),
                ..self
            })
        } else {
            Ok(Word { rising, ..self })
        }
    }

    // It publishes a row, or none, which its own seat tells or another one.
    fn hazarded(self, own: bool, slot: Option<u32>) -> Result<Word, NoMemory>
        ensures { IfOk result (λ word. word ≡ word_hazarded own slot self) }
    {
        if own {
            let hazards = match slot {
                Some(_) => raised(self.hazards)?,
                None => 0,
            };
            Ok(Word {
                hazards,
                own_hazard: slot,
                ..self
            })
        } else {
            Ok(self)
        }
    }

    /// After an event that speaks of it, of its own seat or of another one, where it has published
    /// `last`. NoMemory: a count has passed the numbers of 64 bits.
    #[inline(always)]
    pub fn after(self, own: bool, last: Option<Interval>, event: &Event) -> Result<Word, NoMemory>
        ensures { IfOk result (λ word. word ≡ word_by own last event.now self) }
    {
        match *event {
            Event::Reserve { span, .. } => self.published(own, last, span),
            Event::Hazard { slot, .. } => self.hazarded(own, slot),
            Event::Held { .. } | Event::Null { .. } | Event::Copied { .. } => Ok(self.anew()),
            _ => Ok(self),
        }
    }

    /// Whether no protection is under way there, or it has published more often than it has tries, at eras
    /// that rose.
    pub fn has_tried(self, tries: u32) -> bool
        ensures { result ≡ (not self.under_way || (nat_le (tries + 1) self.tried && self.own_rising)) }
    {
        !self.under_way || (self.tried > u64::from(tries) && self.own_rising)
    }

    /// Whether a protection at the word may end with the event, where each try takes three steps.
    pub fn fits(self, event: &Event) -> bool
        ensures { result ≡ tries_right event.now self }
    {
        match *event {
            Event::Held { index, steps, .. } => {
                let more = if index == 1 { 2 } else { 1 };
                is_thrice(steps, self.reserves, more) && self.rising
            }
            Event::Null { steps, .. } => is_thrice(steps, self.reserves, 1) && self.rising,
            _ => true,
        }
    }

    // Whether a protection at the word may end with the event, where each try takes two steps.
    fn loads_fit(self, event: &Event) -> bool
        ensures { result ≡ number_loaded (λ (index : ℕ). self.hazards) event.now }
    {
        match *event {
            Event::Held { index, steps, .. } => {
                is_twice(steps, self.hazards, if index == 1 { 2 } else { 1 })
            }
            Event::Null { steps, .. } => is_twice(steps, self.hazards, 1),
            _ => true,
        }
    }

    // Whether a row that is told of the word is another than the one before it in the same protection.
    fn shows_another(self, event: &Event) -> bool
        ensures { result ≡ is_another event.now self }
    {
        match *event {
            Event::Hazard {
                slot: Some(slot),
                ..
            } => match self.own_hazard {
                Some(other) => slot != other,
                None => true,
            },
            _ => true,
        }
    }

    /// Whether the event, which speaks of the word, fits the rows that it has published.
    pub fn hazards_fit(self, event: &Event) -> bool
        ensures { result ≡ hazards_right event.now self }
    {
        self.loads_fit(event) && self.shows_another(event)
    }
}
