// What is kept of each seat's calls, and the judgement of an entry by it.
ghost use Rattle.std.specs.Prelude.{◌≡◌, ◌<◌, length, true, is_none, IfOk};
ghost use Rattle.laws.specs.ScanLaw.{guards};
ghost use Rattle.wfe_words.specs.Config.{bad_field};

use crate::seat::{Seat, new_seats};
use std::alloc::Global;
use wfe_check_rows::{guard_count, moves_clock};
use wfe_defs::{Call, Event, NoMemory};
use wfe_words::Config;

/// What a record says of each seat's calls, under one setting. It grows only by the rows that a call
/// has cut and not retired yet.
#[derive(Drop)]
pub struct Calls {
    config: Config,
    // How many guards a scan reads.
    all: u32,
    seats: Vec<Seat>,
    // By seat, whether its list was taken over.
    adopted: Vec<bool>,
    ghost counted: { all ≡ guards config },
    ghost spaced: { 0 < config.every },
    ghost seated: { length seats.items ≡ config.seats },
    ghost placed: { length adopted.items ≡ config.seats },
}

impl Calls {
    ghost use Rattle.std.specs.Prelude.{OnOk, ◌&&◌, ◌||◌};
    ghost use Rattle.laws.specs.records.Record.{Past};
    ghost use Rattle.wfe_words.specs.declared.config.Config.{Config};
    ghost use Rattle.laws.specs.records.Record.Past.{Start, Then};
    ghost use Rattle.laws.specs.EraLaw.{advances_ok, moves_ok};
    ghost use Rattle.laws.specs.words.Schemes.{moves as moves_clock};
    ghost use Rattle.laws.specs.HoldLaw.{finds_ok};
    ghost use Rattle.laws.specs.Lists.{has_left, is_adopted};
    ghost use Rattle.laws.specs.Once.{placing_ok, retiring_ok};
    ghost use Rattle.laws.specs.ScanLaw.{blocks_ok, blocks_of};
    ghost use Rattle.laws.specs.Standing.{open_ok};
    ghost use Rattle.laws.specs.StateAt.{began_of, has_told, is_open, rooted_of};
    ghost use Rattle.laws.specs.defs.Events.{is_null};
    ghost use Rattle.laws.specs.Ranges.{EntryIn};
    ghost use Rattle.wfe_check_calls.specs.Calls.{IsCalls};
    ghost use Rattle.wfe_check_calls.specs.Sought.{seeks_by};

    /// That of the record of no entry. NoMemory: there is none for the seats.
    pub fn new(alloc: Global, config: Config) -> Result<Calls, NoMemory>
        requires valid { is_none (bad_field config) ≡ true }
        ensures setting { IfOk result (λ calls. calls.config ≡ config) }
        ensures start { IfOk result (λ calls. IsCalls config calls Start) }
    {
        let seats = new_seats(alloc, config.seats)?;
        let Ok(adopted) = vec![in alloc; false; config.seats as usize] else {
            return Err(NoMemory);
        };
        Ok(Calls {
            config,
            all: guard_count(&config),
            seats,
            adopted,
        })
    }

    /// Whether the seat may tell the event, as far as the calls say: calls begin in turn, a row that is
    /// given is linked or given up, each row that is cut is retired, scans and moves of the clock come
    /// where they are due, and roots are found.
    #[inline(always)]
    pub fn fits(&self, seat: u32, event: &Event) -> bool
        requires range { EntryIn self.now.config seat event.now }
        ensures { (config : Config) (p : Past) → IsCalls config self.now p → result ≡
            (open_ok p seat event.now && (placing_ok p seat event.now && (retiring_ok p seat event.now
            && (blocks_ok config p seat event.now && (moves_ok config p seat event.now && (finds_ok p seat event.now
            && (moves_clock config.scheme || advances_ok p seat event.now))))))) }
    {
        self.seats[seat as usize].fits(event, moves_clock(self.config.scheme))
    }

    /// Whether the event begins a block of the seat that its call needs to find a free row.
    #[inline(always)]
    pub fn seeks_room(&self, seat: u32, event: &Event) -> bool
        requires range { EntryIn self.now.config seat event.now }
        ensures { (config : Config) (p : Past) → IsCalls config self.now p → result ≡ seeks_by event.now (began_of seat p) (blocks_of config seat p) }
    {
        let own = &self.seats[seat as usize];
        own.blocks.seeks_room(own.began, event)
    }

    /// Takes an entry of the record. NoMemory: there is none for a row that is cut, or a count has passed
    /// the numbers of 64 bits.
    #[inline(always)]
    pub fn note(&mut self, seat: u32, event: &Event) -> Result<(), NoMemory>
        requires range { EntryIn self.old.config seat event.now }
        ensures setting { self.new.config ≡ self.old.config }
        ensures told { OnOk result ((config : Config) (p : Past) → IsCalls config self.old p → IsCalls config self.new (Then p seat event.now)) }
    {
        if let Event::Adopted { place, .. } = event {
            self.adopted[*place as usize] = true;
        }
        self.seats[seat as usize].note(event, self.all, self.config.every)
    }

    /// Whether the seat is in a call.
    pub fn is_open(&self, seat: u32) -> bool
        requires { seat < self.now.config.seats }
        ensures { (config : Config) (p : Past) → IsCalls config self.now p → result ≡ is_open seat p }
    {
        self.seats[seat as usize].in_call
    }

    /// The call that the seat began last.
    pub fn began(&self, seat: u32) -> Option<Call>
        requires { seat < self.now.config.seats }
        ensures { (config : Config) (p : Past) → IsCalls config self.now p → result ≡ began_of seat p }
    {
        self.seats[seat as usize].began
    }

    /// Whether the seat has left its list.
    pub fn has_left(&self, seat: u32) -> bool
        requires { seat < self.now.config.seats }
        ensures { (config : Config) (p : Past) → IsCalls config self.now p → result ≡ has_left seat p }
    {
        self.seats[seat as usize].left
    }

    /// Whether some seat has taken this seat's list over.
    pub fn is_adopted(&self, seat: u32) -> bool
        requires { seat < self.now.config.seats }
        ensures { (config : Config) (p : Past) → IsCalls config self.now p → result ≡ is_adopted seat p }
    {
        self.adopted[seat as usize]
    }

    /// Whether the seat's call has told that there is none at index 0.
    pub fn has_null(&self, seat: u32) -> bool
        requires { seat < self.now.config.seats }
        ensures { (config : Config) (p : Past) → IsCalls config self.now p → result ≡ has_told seat (is_null 0) p }
    {
        self.seats[seat as usize].null
    }

    /// Whether the seat's call has told at index 0 that a row stands, or that there is none.
    pub fn is_rooted(&self, seat: u32) -> bool
        requires { seat < self.now.config.seats }
        ensures { (config : Config) (p : Past) → IsCalls config self.now p → result ≡ rooted_of seat p }
    {
        self.seats[seat as usize].rooted
    }
}
