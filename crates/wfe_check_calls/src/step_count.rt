// What is kept of the steps of protections and calls, and the judgement of an entry by it.
ghost use Rattle.std.specs.Prelude.{◌≡◌, ◌<◌, ◌≤◌, ◌*◌, length, true, is_none, IfOk};
ghost use Rattle.laws.specs.ScanLaw.{guards};
ghost use Rattle.laws.specs.StepLaw.{few_steps as has_few_steps, began_steps, steps_right};
ghost use Rattle.wfe_words.specs.Config.{bad_field};

use crate::counts::{is_sum, wide};
use crate::seat_steps::Seat;
use crate::word::{Word, named_place};
use std::alloc::Global;
use wfe_check_rows::guard_count;
use wfe_defs::{Answer, Call, Event, Guard, Interval, NoMemory};
use wfe_words::{Config, SchemeKind};

// The most indexes that a setting gives a seat.
const ROOM: usize = 8;

/// What a record says of steps, under one setting. All its memory is taken when it is made.
#[derive(Drop)]
pub struct Steps {
    config: Config,
    // How many guards a scan reads.
    all: u32,
    // By seat and then index.
    words: Vec<Word>,
    seats: Vec<Seat>,
    ghost counted: { all ≡ guards config },
    ghost few: { config.indexes ≤ 8 },
    ghost placed: { length words.items ≡ config.seats * 8 },
    ghost seated: { length seats.items ≡ config.seats },
}

// Whether a protection of Wait-Free Eras may end with the event: it has taken few steps.
#[inline(always)]
fn few_steps(tries: u32, event: &Event) -> bool
    ensures { result ≡ has_few_steps tries event.now }
{
    let most = 3 * wide(tries) + 12;
    match *event {
        Event::Held { index, steps, .. } => {
            if index == 1 {
                steps <= most + 3
            } else {
                steps <= most
            }
        }
        Event::Null { steps, .. } => steps <= most,
        _ => true,
    }
}

impl Steps {
    ghost use Rattle.std.specs.Prelude.{OnOk, ℕ, is_some};
    ghost use Rattle.laws.specs.records.Record.{Past};
    ghost use Rattle.wfe_words.specs.declared.config.Config.{Config};
    ghost use Rattle.laws.specs.records.Record.Past.{Start, Then};
    ghost use Rattle.laws.specs.StateAt.{began_of, value_of};
    ghost use Rattle.laws.specs.StepLaw.{ask_ok, end_ok, has_tried, hazards_ok, tries_ok};
    ghost use Rattle.laws.specs.defs.declared.event.Guard.TheVariants.{Helper as HelperOf};
    ghost use Rattle.laws.specs.Ranges.{EntryIn};
    ghost use Rattle.laws.specs.words.declared.config.SchemeKind.TheVariants.{Wfe};
    ghost use Rattle.wfe_check_calls.specs.Places.{IsNamed};
    ghost use Rattle.wfe_check_calls.specs.Right.{FitsScheme, IsRight};
    ghost use Rattle.wfe_check_calls.specs.SeatSteps.{seat_of};
    ghost use Rattle.wfe_check_calls.specs.CallSteps.{HasSeats, HasWords, IsSteps};
    ghost use Rattle.wfe_check_calls.specs.Words.{word_of};

    /// That of the record of no entry. NoMemory: there is none for the words and the seats.
    pub fn new(alloc: Global, config: Config) -> Result<Steps, NoMemory>
        requires valid { is_none (bad_field config) ≡ true }
        ensures setting { IfOk result (λ steps. steps.config ≡ config) }
        ensures start { IfOk result (λ steps. IsSteps config steps Start) }
    {
        let count = config.seats as usize;
        let Ok(words) = vec![in alloc; Word::new(); count * ROOM] else {
            return Err(NoMemory);
        };
        let Ok(seats) = vec![in alloc; Seat::new(); count] else {
            return Err(NoMemory);
        };
        Ok(Steps {
            config,
            all: guard_count(&config),
            words,
            seats,
        })
    }

    // What is known of an index word of a seat.
    fn word(&self, seat: u32, index: u32) -> Word
        requires seat { seat < self.now.config.seats }
        requires index { index < self.now.config.indexes }
        ensures { (config : Config) (p : Past) → IsSteps config self.now p → result ≡ word_of seat index p }
    {
        self.words[seat as usize * ROOM + index as usize]
    }

    // Whether the entry fits the eras that its index word has published.
    #[inline(always)]
    fn tries_fit(&self, seat: u32, event: &Event) -> bool
        requires range { EntryIn self.now.config seat event.now }
        ensures { (config : Config) (p : Past) → IsSteps config self.now p → result ≡ tries_ok p seat event.now }
    {
        match *event {
            Event::Held { index, .. } | Event::Null { index, .. } => {
                self.word(seat, index).fits(event)
            }
            _ => true,
        }
    }

    // Whether the entry fits the rows that its index word has published. A word is asked of a copy: what only the
    // caller has the compiler knows for good, and so asks the event's kind once.
    #[inline(always)]
    fn hazards_fit(&self, seat: u32, event: &Event) -> bool
        requires range { EntryIn self.now.config seat event.now }
        ensures { (config : Config) (p : Past) → IsSteps config self.now p → result ≡ hazards_ok p seat event.now }
    {
        let copy = *event;
        match *event {
            Event::Held { index, .. } => self.word(seat, index).hazards_fit(&copy),
            Event::Null { index, .. } => self.word(seat, index).hazards_fit(&copy),
            Event::Hazard {
                guard: Guard::Index { seat, index },
                ..
            } => self.word(seat, index).hazards_fit(&copy),
            _ => true,
        }
    }

    // Whether at each index of the seat either no protection is under way, or it has published more often
    // than it has tries, at eras that rose.
    fn all_tried(&self, seat: u32) -> bool
        requires { seat < self.now.config.seats }
        ensures sound { (config : Config) (p : Past) → IsSteps config self.now p → result ≡ true → (j : ℕ) → has_tried config.tries seat j p ≡ true }
        ensures complete { (config : Config) (p : Past) → IsSteps config self.now p → ((j : ℕ) → has_tried config.tries seat j p ≡ true) → result ≡ true }
    {
        for index in 0..self.config.indexes {
            if !self.word(seat, index).has_tried(self.config.tries) {
                return false;
            }
        }
        true
    }

    // Whether the seat may ask for help by the entry, where it does so.
    #[inline(always)]
    fn asks_fit(&self, seat: u32, event: &Event) -> bool
        requires range { EntryIn self.now.config seat event.now }
        ensures sound { (config : Config) (p : Past) → IsSteps config self.now p → result ≡ true → (j : ℕ) → ask_ok config.tries j p seat event.now ≡ true }
        ensures complete { (config : Config) (p : Past) → IsSteps config self.now p → ((j : ℕ) → ask_ok config.tries j p seat event.now ≡ true) → result ≡ true }
    {
        match *event {
            Event::Reserve {
                guard: Guard::Helper { seat: other },
                span: Some(_),
            } => other != seat || self.all_tried(seat),
            _ => true,
        }
    }

    // Whether a call of which so many rows went back may end with the answer after so many steps.
    fn call_fits(&self, call: &Call, backs: u64, answer: &Answer, steps: u64) -> bool
        ensures { result ≡ steps_right self.now.config call.now backs answer.now steps }
    {
        let config = &self.config;
        let wfe = matches!(config.scheme, SchemeKind::Wfe);
        let tries = 3 * wide(config.tries);
        let pairs = wide(config.pairs);
        match call {
            Call::Release | Call::DropIndex { .. } => steps == 1,
            Call::Copy { .. } => {
                let two = !matches!(config.scheme, SchemeKind::Ibr)
                    && matches!(answer, Answer::Copied { .. });
                steps == if two { 2 } else { 1 }
            }
            Call::Look { .. } => match answer {
                Answer::Nothing => steps == 1,
                _ => steps <= 3 + pairs,
            },
            Call::Scan => is_sum(steps, self.all, backs),
            Call::Advance => {
                if wfe {
                    steps <= 7 * wide(config.seats) + 3
                } else {
                    steps <= 2
                }
            }
            Call::Hold { .. } => !wfe || steps <= tries + 16,
            Call::Get { .. } => !wfe || steps <= tries + 18 + pairs,
            _ => true,
        }
    }

    // Whether the call that the seat began last may end with the entry, where it does so.
    #[inline(always)]
    fn end_fits(&self, seat: u32, event: &Event, began: Option<Call>) -> bool
        requires range { seat < self.now.config.seats }
        ensures { (config : Config) (p : Past) → IsSteps config self.now p → began ≡ began_of seat p → result ≡ end_ok config p seat event.now }
    {
        match (event, began) {
            (Event::End { steps, answer }, Some(call)) => {
                self.call_fits(&call, self.seats[seat as usize].backs, answer, *steps)
            }
            _ => true,
        }
    }

    // Whether the entry fits what Wait-Free Eras ask of protections.
    #[inline(always)]
    fn wfe_fits(&self, seat: u32, event: &Event) -> bool
        requires range { EntryIn self.now.config seat event.now }
        ensures sound { (config : Config) (p : Past) → IsSteps config self.now p → result ≡ true → FitsScheme Wfe config p seat event.now }
        ensures complete { (config : Config) (p : Past) → IsSteps config self.now p → FitsScheme Wfe config p seat event.now → result ≡ true }
    {
        few_steps(self.config.tries, event)
            && self.seats[seat as usize].withdraws(seat, event)
            && self.asks_fit(seat, event)
    }

    // Whether the entry fits what the setting's scheme asks of protections.
    #[inline(always)]
    fn protection_fits(&self, seat: u32, event: &Event) -> bool
        requires range { EntryIn self.now.config seat event.now }
        ensures sound { (config : Config) (p : Past) → IsSteps config self.now p → result ≡ true → FitsScheme config.scheme config p seat event.now }
        ensures complete { (config : Config) (p : Past) → IsSteps config self.now p → FitsScheme config.scheme config p seat event.now → result ≡ true }
    {
        match self.config.scheme {
            SchemeKind::He => self.tries_fit(seat, event),
            SchemeKind::Ibr => self.seats[seat as usize].raises_fit(event),
            SchemeKind::Wfe => self.wfe_fits(seat, event),
            SchemeKind::Hp => self.hazards_fit(seat, event),
        }
    }

    /// Whether the seat, which began this call last, may tell the event, as far as the steps of protections
    /// and calls say under the setting's scheme.
    #[tactic(auto, using(crate::proofs::Right::right_from, crate::proofs::Right::right_gives))]
    #[inline(always)]
    pub fn fits(&self, seat: u32, event: &Event, began: Option<Call>) -> bool
        requires range { EntryIn self.now.config seat event.now }
        ensures sound { (config : Config) (p : Past) → IsSteps config self.now p → began ≡ began_of seat p → result ≡ true → IsRight config p seat event.now }
        ensures complete { (config : Config) (p : Past) → IsSteps config self.now p → began ≡ began_of seat p → IsRight config p seat event.now → result ≡ true }
    {
        self.protection_fits(seat, event) && self.end_fits(seat, event, began)
    }

    // Takes an entry into the index word that it speaks of.
    #[inline(always)]
    fn note_word(
        &mut self,
        seat: u32,
        event: &Event,
        named: Option<Interval>,
    ) -> Result<(), NoMemory>
        requires range { EntryIn self.old.config seat event.now }
        ensures setting { self.new.config ≡ self.old.config }
        ensures seats { self.new.seats ≡ self.old.seats }
        ensures told { OnOk result ((p : Past) → HasWords self.old.config self.old.words.items p → IsNamed event.now named p →
            HasWords self.old.config self.new.words.items (Then p seat event.now)) }
    {
        if let Some(place) = named_place(seat, event) {
            let at = place.seat as usize * ROOM + place.index as usize;
            let word = self.words[at].after(place.seat == seat, named, event)?;
            self.words[at] = word;
        }
        Ok(())
    }

    // Takes an entry into its seat.
    #[inline(always)]
    fn note_seat(&mut self, seat: u32, event: &Event, helps: bool) -> Result<(), NoMemory>
        requires range { seat < self.old.config.seats }
        ensures setting { self.new.config ≡ self.old.config }
        ensures words { self.new.words ≡ self.old.words }
        ensures told { OnOk result ((p : Past) → HasSeats self.old.config self.old.seats.items p → helps ≡ is_some (value_of (HelperOf seat) p) →
            HasSeats self.old.config self.new.seats.items (Then p seat event.now)) }
    {
        let at = seat as usize;
        let after = self.seats[at].after(seat, helps, event)?;
        self.seats[at] = after;
        Ok(())
    }

    /// Takes an entry of the record. `named` is what the guard publishes that the event tells to be
    /// published, and `helps` whether the seat's helper word publishes. NoMemory: a count has passed the
    /// numbers of 64 bits.
    #[inline(always)]
    pub fn note(
        &mut self,
        seat: u32,
        event: &Event,
        named: Option<Interval>,
        helps: bool,
    ) -> Result<(), NoMemory>
        requires range { EntryIn self.old.config seat event.now }
        ensures setting { self.new.config ≡ self.old.config }
        ensures told { OnOk result ((config : Config) (p : Past) → IsSteps config self.old p → IsNamed event.now named p →
            helps ≡ is_some (value_of (HelperOf seat) p) → IsSteps config self.new (Then p seat event.now)) }
    {
        self.note_word(seat, event, named)?;
        self.note_seat(seat, event, helps)
    }
}
