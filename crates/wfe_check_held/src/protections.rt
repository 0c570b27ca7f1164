// What guards publish and which rows stand, as a record leaves them.
ghost use Rattle.std.specs.Prelude.{◌≡◌, ℕ, ◌+◌, ◌*◌, ◌≤◌, ◌<◌, ◌&&◌, ◌↔◌, IfOk, IsOk, OnOk, is_some, List, [], is_none, true, replicate, slice_set, get_or};
ghost use Rattle.laws.specs.words.declared.config.Config.{Config as Setting};
ghost use Rattle.laws.specs.records.Record.{Past};
ghost use Rattle.laws.specs.records.Record.Past.{Start, Then};
ghost use Rattle.laws.specs.defs.declared.event.Guard.TheVariants.{Helper};
ghost use Rattle.laws.specs.StateAt.{is_bare as is_bare_at, is_one_of, stands as stands_at, value_of};
ghost use Rattle.laws.specs.Ranges.{EntryIn, GuardIn};
ghost use Rattle.wfe_words.specs.Config.{bad_field};
ghost use Rattle.wfe_check_held.specs.Protections.{IsProtections};
ghost use Rattle.wfe_check_held.specs.Shown.{bare_in, hazard_in, hazards_after, helpers_after, place as place_of, published_in, rows_in, set_after, sets_after, stands_in, told_index as index_of, told_row, value_in, wholes_after, words_after};

use crate::row_set::RowSet;
use std::alloc::Global;
use wfe_check_rows::{is_of_rows, of_row, of_span};
use wfe_defs::{Event, Guard, Interval, NoMemory, Shown};
use wfe_words::Config;

/// What a record says of guards and of rows that stand, up to an entry. Seats and indexes are those
/// of the setting; answers for others say nothing.
#[derive(Drop)]
pub struct Protections {
    pub(crate) config: Config,
    pub(crate) helpers: Vec<Option<Interval>>,
    pub(crate) wholes: Vec<Option<Interval>>,
    // By seat and then index, as what follows.
    pub(crate) words: Vec<Option<Interval>>,
    pub(crate) hazards: Vec<Option<u32>>,
    pub(crate) standing: Vec<RowSet>,
}

impl Protections {
    /// Those of a record without entries.
    pub fn new(alloc: Global, config: Config) -> Result<Protections, NoMemory>
        requires { is_none (bad_field config) ≡ true }
        ensures { IfOk result (λ kept. IsProtections config kept Start) }
    {
        let seats = config.seats as usize;
        let places = config.indexes as usize * seats;
        let helpers = no_values(alloc, seats)?;
        let wholes = no_values(alloc, seats)?;
        let words = no_values(alloc, places)?;
        let hazards = no_hazards(alloc, places)?;
        let standing = no_rows(alloc, places)?;
        Ok(Protections {
            config,
            helpers,
            wholes,
            words,
            hazards,
            standing,
        })
    }

    pub(crate) fn place(&self, seat: u32, index: u32) -> usize
        ensures { result ≡ place_of self.now seat index }
    {
        seat as usize * self.config.indexes as usize + index as usize
    }

    /// The interval that a guard publishes.
    pub fn value(&self, guard: Guard) -> Option<Interval>
        ensures shown { result ≡ value_in self.now guard }
        ensures told { (config : Setting) (p : Past) → IsProtections config self.now p → GuardIn config guard → result ≡ value_of guard p }
    {
        match guard {
            Guard::Helper { seat } => value_at(&self.helpers, seat as usize),
            Guard::Index { seat, index } => value_at(&self.words, self.place(seat, index)),
            Guard::Whole { seat } => value_at(&self.wholes, seat as usize),
        }
    }

    // The row that an index word publishes.
    pub(crate) fn hazard(&self, guard: Guard) -> Option<u32>
        ensures { result ≡ hazard_in self.now guard }
    {
        match guard {
            Guard::Index { seat, index } => hazard_of(&self.hazards, self.place(seat, index)),
            _ => None,
        }
    }

    // What a guard publishes under the scheme.
    pub(crate) fn published(&self, guard: Guard) -> Shown
        ensures { result ≡ published_in self.now guard }
    {
        if is_of_rows(self.config.scheme) {
            of_row(self.hazard(guard))
        } else {
            of_span(self.value(guard))
        }
    }

    /// The rows that stand at an index of a seat, each once.
    pub fn rows(&self, seat: u32, index: u32) -> &[u32]
        ensures shown { result.now ≡ rows_in self.now seat index }
        ensures told { (config : Setting) (p : Past) → IsProtections config self.now p → seat < config.seats → index < config.indexes → (s : ℕ) → is_one_of s result.now ≡ stands_at seat index s p }
    {
        match self.standing.get(self.place(seat, index)) {
            Some(set) => set.rows(),
            None => &[],
        }
    }

    /// Whether a row stands at an index of a seat.
    pub fn stands(&self, seat: u32, index: u32, slot: u32) -> bool
        ensures shown { result ≡ stands_in self.now seat index slot }
        ensures told { (config : Setting) (p : Past) → IsProtections config self.now p → seat < config.seats → index < config.indexes → result ≡ stands_at seat index slot p }
    {
        match self.standing.get(self.place(seat, index)) {
            Some(set) => set.has(slot),
            None => false,
        }
    }

    /// Whether no row stands at an index of a seat.
    pub fn is_bare(&self, seat: u32, index: u32) -> bool
        ensures shown { result ≡ bare_in self.now seat index }
        ensures told { (config : Setting) (p : Past) → IsProtections config self.now p → seat < config.seats → index < config.indexes → result ≡ is_bare_at seat index p }
    {
        self.rows(seat, index).is_empty()
    }

    /// Whether a seat's helper word publishes.
    pub fn shows_helper(&self, seat: u32) -> bool
        ensures { (config : Setting) (p : Past) → IsProtections config self.now p → seat < config.seats → result ≡ is_some (value_of (Helper seat) p) }
    {
        self.value(Guard::Helper { seat }).is_some()
    }

    // What an event publishes.
    #[inline(always)]
    fn publish(&mut self, event: &Event)
        ensures config { self.new.config ≡ self.old.config }
        ensures helpers { self.new.helpers.items ≡ helpers_after event.now self.old.helpers.items }
        ensures wholes { self.new.wholes.items ≡ wholes_after event.now self.old.wholes.items }
        ensures words { self.new.words.items ≡ words_after self.old.config.indexes event.now self.old.words.items }
        ensures hazards { self.new.hazards.items ≡ hazards_after self.old.config.indexes event.now self.old.hazards.items }
        ensures standing { self.new.standing.items ≡ self.old.standing.items }
    {
        match *event {
            Event::Reserve { guard, span } => match guard {
                Guard::Helper { seat } => set_value(&mut self.helpers, seat as usize, span),
                Guard::Whole { seat } => set_value(&mut self.wholes, seat as usize, span),
                Guard::Index { seat, index } => {
                    let place = self.place(seat, index);
                    set_value(&mut self.words, place, span);
                }
            },
            Event::Hazard {
                guard: Guard::Index { seat, index },
                slot,
            } => {
                let place = self.place(seat, index);
                set_hazard(&mut self.hazards, place, slot);
            }
            _ => {}
        }
    }

    // What an event of a seat makes of the rows that stand.
    #[inline(always)]
    fn stand(&mut self, seat: u32, event: &Event) -> Result<(), NoMemory>
        ensures config { self.new.config ≡ self.old.config }
        ensures helpers { self.new.helpers.items ≡ self.old.helpers.items }
        ensures wholes { self.new.wholes.items ≡ self.old.wholes.items }
        ensures words { self.new.words.items ≡ self.old.words.items }
        ensures hazards { self.new.hazards.items ≡ self.old.hazards.items }
        ensures sure { told_row event.now ≡ None → IsOk result }
        ensures standing { OnOk result (self.new.standing.items ≡ sets_after self.old.config.indexes seat event.now self.old.standing.items) }
    {
        match told_index(event) {
            None => Ok(()),
            Some(index) => {
                let place = self.place(seat, index);
                change_set(&mut self.standing, place, event)
            }
        }
    }

    /// Takes an entry in. Memory is taken only where a row comes to stand at an index.
    #[inline(always)]
    pub fn note(&mut self, seat: u32, event: &Event) -> Result<(), NoMemory>
        ensures sure { told_row event.now ≡ None → IsOk result }
        ensures noted { IfOk result (λ _. (config : Setting) (p : Past) → IsProtections config self.old p → EntryIn config seat event.now → IsProtections config self.new (Then p seat event.now)) }
    {
        self.stand(seat, event)?;
        self.publish(event);
        Ok(())
    }
}

fn no_values(alloc: Global, count: usize) -> Result<Vec<Option<Interval>>, NoMemory>
    ensures { IfOk result (λ values. values.items ≡ replicate count None) }
{
    match vec![in alloc; None; count] {
        Ok(values) => Ok(values),
        Err(_) => Err(NoMemory),
    }
}

fn no_hazards(alloc: Global, count: usize) -> Result<Vec<Option<u32>>, NoMemory>
    ensures { IfOk result (λ values. values.items ≡ replicate count None) }
{
    match vec![in alloc; None; count] {
        Ok(values) => Ok(values),
        Err(_) => Err(NoMemory),
    }
}

fn no_rows(alloc: Global, count: usize) -> Result<Vec<RowSet>, NoMemory>
    ensures { IfOk result (λ sets. sets.items ≡ replicate count []) }
{
    let Ok(mut sets) = Vec::with_capacity(alloc, count) else {
        return Err(NoMemory);
    };
    for _ in 0..count {
        if sets.push(RowSet::new(alloc)).is_err() {
            return Err(NoMemory);
        }
    }
    Ok(sets)
}

fn value_at(values: &[Option<Interval>], place: usize) -> Option<Interval>
    ensures { result ≡ get_or values.now place None }
{
    values.get(place).copied().unwrap_or(None)
}

fn set_value(values: &mut [Option<Interval>], place: usize, span: Option<Interval>)
    ensures { values.new ≡ slice_set values.old place span }
{
    if place < values.len() {
        values[place] = span;
    }
}

fn hazard_of(hazards: &[Option<u32>], place: usize) -> Option<u32>
    ensures { result ≡ get_or hazards.now place None }
{
    hazards.get(place).copied().unwrap_or(None)
}

fn set_hazard(hazards: &mut [Option<u32>], place: usize, slot: Option<u32>)
    ensures { hazards.new ≡ slice_set hazards.old place slot }
{
    if place < hazards.len() {
        hazards[place] = slot;
    }
}

// The index at which an event says what stands.
#[inline(always)]
fn told_index(event: &Event) -> Option<u32>
    ensures { result ≡ index_of event.now }
{
    match *event {
        Event::Held { index, .. } | Event::Copied { index, .. } | Event::Clear { index, .. } => {
            Some(index)
        }
        _ => None,
    }
}

#[inline(always)]
fn change_set(sets: &mut [RowSet], place: usize, event: &Event) -> Result<(), NoMemory>
    ensures sure { told_row event.now ≡ None → IsOk result }
    ensures changed { OnOk result (sets.new ≡ slice_set sets.old place (set_after event.now (get_or sets.old place []))) }
{
    if place >= sets.len() {
        return Ok(());
    }
    let set = &mut sets[place];
    match *event {
        Event::Held { slot, .. } | Event::Copied { slot, .. } => set.insert(slot),
        Event::Clear { slot, .. } => {
            set.remove(slot);
            Ok(())
        }
        _ => Ok(()),
    }
}
