// A seat's retire list and its scan.
ghost use Rattle.std.specs.Prelude.{◌≡◌, ◌<◌, ◌≤◌, ℕ, None, [], ◌∷◌, ◌++◌, ◌==◌, take, true, false, not, filter, count_by, length, slice_get, OnOk};
ghost use Rattle.laws.specs.Lists.{without};
ghost use Rattle.laws.specs.ScanLaw.{is_life_of};
ghost use Rattle.wfe_check_map.specs.Seats.{OwnStep, ReadStep, BackStep, IsDue, keeps_one, next_due, emptied, gained, no_scanning, number_in, may_read_in, goes_back_in, done_in};

use std::alloc::Global;
use std::marker::Model;
use std::mem;
use wfe_check_rows::{keeps, of_row, of_span};
use wfe_defs::{Event, Lifetime, NoMemory, Shown};

/// A seat's list of lives, in order; what it has read of its block of guards; how many lives from the first
/// on what it has read keeps, once the block is whole and while the seat tells nothing but its scan; and
/// whether its last entry is of a scan.
#[derive(Drop)]
pub struct Seat {
    lives: Vec<Lifetime>,
    values: Vec<Shown>,
    place: usize,
    scans: bool,
}

impl Model for Seat {
    ghost use Rattle.wfe_check_map.specs.Scanning.{Scanning};

    ghost Value = { Scanning };

    ghost view = { λ s. record { lives = s.lives.items; values = s.values.items; place = s.place; scans = s.scans } };
}

impl Seat {
    /// A seat that has told nothing.
    pub fn new(alloc: Global) -> Seat
        ensures { result ≡ no_scanning }
    {
        Seat {
            lives: Vec::new(alloc),
            values: Vec::new(alloc),
            place: 0,
            scans: false,
        }
    }

    /// How many lives its list has.
    pub fn len(&self) -> usize
        ensures { result ≡ length self.now.lives }
    {
        self.lives.len()
    }

    /// The number of the guard that it reads next, where there are so many in all.
    pub fn next_number(&self, all: u64) -> u64
        ensures { result ≡ number_in all self.now }
    {
        let read = self.values.len() as u64;
        if read == all { 0 } else { read }
    }

    /// Whether a guard may be read: within a block without a pause, and a new block where no scan is left
    /// undone.
    pub fn may_read(&self, all: u64) -> bool
        ensures { result ≡ may_read_in all self.now }
    {
        let read = self.values.len() as u64;
        if 0 < read && read < all {
            self.scans
        } else {
            self.is_done(all)
        }
    }

    /// Whether a row may go back: the next one of a scan whose block is whole.
    pub fn may_go_back(&self, all: u64, slot: u32) -> bool
        ensures { result ≡ goes_back_in all slot self.now }
    {
        self.scans && (self.values.len() as u64 == all && is_of(slot, self.next()))
    }

    /// Whether no scan is left undone.
    pub fn is_done(&self, all: u64) -> bool
        ensures { result ≡ done_in all self.now }
    {
        !self.scans || (self.values.len() as u64 == all && self.next().is_none())
    }

    // The life that goes back next, if one does, where the block is whole and the seat scans.
    fn next(&self) -> Option<Lifetime>
        ensures { result ≡ slice_get self.now.lives self.now.place }
    {
        match self.lives.get(self.place) {
            Some(life) => Some(*life),
            None => None,
        }
    }

    /// Notes an event of the seat that takes over no list, where there are so many guards in all.
    #[inline(always)]
    pub fn note(&mut self, event: &Event, all: u64) -> Result<(), NoMemory>
        ensures { OnOk result (OwnStep all event.now self.old self.new) }
    {
        match *event {
            Event::Read { span, .. } => self.note_read(of_span(span), all),
            Event::Saw { slot, .. } => self.note_read(of_row(slot), all),
            Event::Back { slot } => {
                self.note_back(slot);
                Ok(())
            }
            Event::Retire {
                slot,
                birth,
                retire,
            } => self.note_retire(Lifetime {
                slot,
                birth,
                retire,
            }),
            _ => {
                self.scans = false;
                Ok(())
            }
        }
    }

    /// Hands its lives over.
    pub fn hand_over(&mut self, alloc: Global) -> Vec<Lifetime>
        ensures lives { result.items ≡ self.old.lives }
        ensures rest { self.new ≡ emptied self.old }
    {
        self.place = 0;
        mem::replace(&mut self.lives, Vec::new(alloc))
    }

    /// Takes lives over, at the end of its own.
    pub fn take_over(&mut self, lives: &mut Vec<Lifetime>) -> Result<(), NoMemory>
        ensures { OnOk result (self.new ≡ gained lives.old.items self.old) }
    {
        self.scans = false;
        match self.lives.append(lives) {
            Ok(()) => Ok(()),
            Err(_) => Err(NoMemory),
        }
    }

    fn note_read(&mut self, value: Shown, all: u64) -> Result<(), NoMemory>
        ensures { OnOk result (ReadStep all value self.old self.new) }
    {
        if self.values.len() as u64 == all {
            self.values.clear();
        }
        if self.values.push(value).is_err() {
            return Err(NoMemory);
        }
        self.scans = true;
        if self.values.len() as u64 == all {
            self.place = settled(&self.lives, &self.values, 0);
        }
        Ok(())
    }

    fn note_back(&mut self, slot: u32)
        ensures { BackStep slot self.old self.new }
    {
        let place = stays(&self.lives, self.place, slot);
        take_away(&mut self.lives, slot);
        self.place = settled(&self.lives, &self.values, place);
        self.scans = true;
    }

    fn note_retire(&mut self, life: Lifetime) -> Result<(), NoMemory>
        ensures { OnOk result ((self.new.lives ≡ self.old.lives ++ life ∷ []) × (self.new.values ≡ self.old.values) × (self.new.scans ≡ false)) }
    {
        self.scans = false;
        match self.lives.push(life) {
            Ok(()) => Ok(()),
            Err(_) => Err(NoMemory),
        }
    }
}

// Whether it is a life of the slot.
fn is_of(slot: u32, life: Option<Lifetime>) -> bool
    ensures { result ≡ is_life_of slot life }
{
    match life {
        Some(life) => life.slot == slot,
        None => false,
    }
}

// Whether something that was read keeps the life.
fn is_kept(life: Lifetime, values: &[Shown]) -> bool
    ensures { result ≡ keeps_one life values.now }
{
    for value in values {
        if keeps(life, *value) {
            return true;
        }
    }
    false
}

// The first life from a place on that nothing read keeps, or the end.
fn settled(lives: &[Lifetime], values: &[Shown], from: usize) -> usize
    ensures { next_due values.now (take from lives.now) ≡ None → IsDue values.now lives.now result }
{
    let mut place = from;
    while place < lives.len() {
        if !is_kept(lives[place], values) {
            return place;
        }
        place += 1;
    }
    place
}

// How many of the first lives, up to a place, are not of the slot.
fn stays(lives: &[Lifetime], place: usize, slot: u32) -> usize
    ensures { result ≡ count_by (λ life. not (life.slot == slot)) (take place lives.now) }
{
    lives
        .iter()
        .take(place)
        .filter(|life| life.slot != slot)
        .count()
}

// Takes the lives of a slot away.
fn take_away(lives: &mut Vec<Lifetime>, slot: u32)
    ensures { lives.new.items ≡ filter (λ life. not (life.slot == slot)) lives.old.items }
{
    lives.retain(|life| life.slot != slot);
}
