// The lists and scans of all seats, what entries the laws on them allow, and what an entry makes of them.
ghost use Rattle.std.specs.Prelude.{◌≡◌, ◌<◌, ◌≤◌, ◌==◌, ◌&&◌, ◌||◌, not, ◌++◌, ℕ, true, length, replicate, if◌then◌else◌, is_none, IfOk, OnOk};
ghost use Rattle.laws.specs.Lists.{has_left, is_adopted as is_taken, list_of};
ghost use Rattle.laws.specs.Once.{backs_ok, lists_ok};
ghost use Rattle.laws.specs.ScanLaw.{scan_ok};
ghost use Rattle.laws.specs.StateAt.{began_of};
ghost use Rattle.laws.specs.records.Record.{Past};
ghost use Rattle.laws.specs.records.Record.Past.{Start, Then};
ghost use Rattle.laws.specs.Ranges.{EntryIn, EventIn};
ghost use Rattle.wfe_words.specs.Config.{bad_field};
ghost use Rattle.wfe_check_map.specs.Seats.{NotesOwn, adopted, fits_in, no_scanning};
ghost use Rattle.wfe_check_map.specs.ListStanding.{IsLists, LeftIs, AdoptedIs};

use crate::guards::is_guard;
use crate::seat::Seat;
use std::alloc::Global;
use wfe_check_rows::guard_count;
use wfe_defs::{Call, Event, Lifetime, NoMemory};
use wfe_words::Config;

/// Of each seat its retire list, what it has read of its block of guards, and whether it scans. It takes 12
/// bytes for each life on a list, and up to 12 for each guard that a seat has read.
#[derive(Drop)]
pub struct Lists {
    alloc: Global,
    config: Config,
    guards: u64,
    seats: Vec<Seat>,
}

impl Lists {
    /// The state before the first entry of a record with this setting.
    pub fn new(alloc: Global, config: Config) -> Result<Lists, NoMemory>
        requires valid { is_none (bad_field config) ≡ true }
        ensures { IfOk result (λ made. IsLists config made Start) }
    {
        let guards = guard_count(&config) as u64;
        let seats = no_seats(alloc, config.seats)?;
        Ok(Lists {
            alloc,
            config,
            guards,
            seats,
        })
    }

    /// Whether the entry keeps the law of scans' blocks, and tells a row Back only from the seat's list.
    #[inline(always)]
    pub fn fits_scan(&self, seat: u32, event: &Event) -> bool
        requires range { EntryIn self.now.config seat event.now }
        ensures { (config : Config) (p : Past) → IsLists config self.now p
            → result ≡ (scan_ok config p seat event.now && backs_ok p seat event.now) }
    {
        match self.seats.get(seat as usize) {
            Some(own) => fits_own(self.config, self.guards, event, own),
            None => false,
        }
    }

    /// Whether the entry keeps the law on lists that are left and taken over. `began` is the call that the
    /// seat began last; `has_left` and `is_adopted` are so of the seat whose list the entry takes over, if it
    /// takes one over.
    #[inline(always)]
    pub fn fits_lists(
        &self,
        seat: u32,
        event: &Event,
        began: Option<Call>,
        has_left: bool,
        is_adopted: bool,
    ) -> bool
        requires range { EntryIn self.now.config seat event.now }
        ensures { (config : Config) (p : Past) → IsLists config self.now p → began ≡ began_of seat p → LeftIs has_left event.now p
            → AdoptedIs is_adopted event.now p → result ≡ lists_ok p seat event.now }
    {
        match *event {
            Event::Left { count } => matches!(began, Some(Call::Leave))
                && self.has_many(seat, count),
            Event::Adopted { place, count } => {
                let is_asked = match began {
                    Some(Call::Adopt { place: other }) => other == place,
                    _ => false,
                };
                is_asked && has_left && !is_adopted && self.has_many(place, count)
            }
            _ => true,
        }
    }

    /// Notes an entry that keeps the law of scans' blocks.
    ///
    /// # Errors
    ///
    /// Where there is no memory; the state is of no record then.
    #[inline(always)]
    pub fn note(&mut self, seat: u32, event: &Event) -> Result<(), NoMemory>
        requires range { EntryIn self.old.config seat event.now }
        ensures setting { self.new.config ≡ self.old.config }
        ensures noted { OnOk result ((config : Config) (p : Past) → IsLists config self.old p → scan_ok config p seat event.now ≡ true
            → IsLists config self.new (Then p seat event.now)) }
    {
        match *event {
            Event::Adopted { place, .. } => adopt(self.alloc, &mut self.seats, seat, place),
            _ => note_own(&mut self.seats, seat, event, self.guards),
        }
    }

    // Whether the seat's list has so many lives.
    fn has_many(&self, seat: u32, count: u32) -> bool
        requires range { seat < self.now.config.seats }
        ensures { (config : Config) (p : Past) → IsLists config self.now p → result ≡ (count == length (list_of seat p)) }
    {
        match self.seats.get(seat as usize) {
            Some(own) => count as usize == own.len(),
            None => false,
        }
    }
}

// Whether the seat may tell the entry, where there are so many guards in all.
#[inline(always)]
fn fits_own(config: Config, all: u64, event: &Event, own: &Seat) -> bool
    requires range { EventIn config event.now }
    ensures { result ≡ fits_in config all event.now own.now }
{
    match *event {
        Event::Read { guard, .. } | Event::Saw { guard, .. } => {
            is_guard(config, guard, own.next_number(all)) && own.may_read(all)
        }
        Event::Back { slot } => own.may_go_back(all, slot),
        _ => own.is_done(all),
    }
}

// No seat has told anything.
fn no_seats(alloc: Global, seats: u32) -> Result<Vec<Seat>, NoMemory>
    ensures { IfOk result (λ made. made.items ≡ replicate seats no_scanning) }
{
    let mut made = Vec::new(alloc);
    for _ in 0..seats {
        if made.push(Seat::new(alloc)).is_err() {
            return Err(NoMemory);
        }
    }
    Ok(made)
}

// Notes an event of a seat that takes over no list.
#[inline(always)]
fn note_own(seats: &mut Vec<Seat>, seat: u32, event: &Event, all: u64) -> Result<(), NoMemory>
    ensures { OnOk result (NotesOwn all seat event.now seats.old.items seats.new.items) }
{
    match seats.get_mut(seat as usize) {
        Some(own) => own.note(event, all),
        None => Ok(()),
    }
}

// The seat takes over the list of a place. Its own list it has twice then.
fn adopt(alloc: Global, seats: &mut Vec<Seat>, seat: u32, place: u32) -> Result<(), NoMemory>
    ensures { OnOk result (seats.new.items ≡ adopted seat place seats.old.items) }
{
    let mut lives = match seats.get_mut(place as usize) {
        Some(other) => other.hand_over(alloc),
        None => Vec::new(alloc),
    };
    if seat == place {
        doubled(&mut lives)?;
    }
    match seats.get_mut(seat as usize) {
        Some(own) => own.take_over(&mut lives),
        None => Ok(()),
    }
}

// The lives twice.
fn doubled(lives: &mut Vec<Lifetime>) -> Result<(), NoMemory>
    ensures { OnOk result (lives.new.items ≡ lives.old.items ++ lives.old.items) }
{
    let many = lives.len();
    for place in 0..many {
        let life = lives[place];
        if lives.push(life).is_err() {
            return Err(NoMemory);
        }
    }
    Ok(())
}
