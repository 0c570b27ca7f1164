// The positions of calls, cuts and rows, and the tests that read them.
ghost use Rattle.std.specs.Prelude.{◌≡◌, ◌<◌, ◌≤◌, ◌+◌, ◌&&◌, ◌||◌, ◌==◌, ◌^◌, ◌-◌, All, IfOk, None, Some, ℕ, if◌then◌else◌, is_none, length, true};
ghost use Rattle.std.specs.List.{list_all, list_any};
ghost use Rattle.laws.specs.records.Record.{Past};
ghost use Rattle.laws.specs.records.Record.Past.{Start, Then};
ghost use Rattle.laws.specs.EraLaw.{birth_ok, current_ok, retire_ok};
ghost use Rattle.laws.specs.HoldLaw.{behind_ok, is_of_root as of_root, sources_ok};
ghost use Rattle.laws.specs.ScanLaw.{blocks_of, room_ok, seeks_room};
ghost use Rattle.laws.specs.StateAt.{began_of, clock_of, is_row as same_row, standing_of, ticked_by};
ghost use Rattle.laws.specs.Ranges.{EntryIn, EventIn};
ghost use Rattle.wfe_words.specs.Config.{bad_field};
ghost use Rattle.wfe_defs.specs.declared.event.Event.TheVariants as events;
ghost use Rattle.wfe_check_held.specs.Grids.{IsGrid, cell_at};
ghost use Rattle.wfe_check_rows.specs.Positions.{entries as entries_of};
ghost use Rattle.wfe_check_held.specs.Roots.{RowIn, last_row};
ghost use Rattle.wfe_check_held.specs.Steps.{IsFound, IsNext, cut_after};
ghost use Rattle.wfe_check_held.specs.Tests.{AreAmong, IsBirth, IsSource, IsSought, clock_at, copied_at, cut_at, fits_at, had_at, room_at, upper_at, was_last_at, was_taken_at};
ghost use Rattle.wfe_check_held.specs.Times.{IsSized, IsTimes, row_at, seat_at};

use crate::grid::Grid;
use crate::had::{place_of, tell_had};
use crate::rows::{Row, first_rows, tell_rows};
use crate::seats::{Seat, first_seats, looks, tell_seats};
use std::alloc::Global;
use wfe_defs::{Call, Event, Interval, NoMemory};
use wfe_words::Config;

/// What is kept of a record: where calls began, and when what they may name ceased to be so.
/// Positions are numbered by the entries before them.
#[derive(Drop)]
pub struct Times {
    config: Config,
    entries: u64,
    clock: u64,
    seats: Vec<Seat>,
    rows: Vec<Row>,
    // For each seat and row the clock right after the seat's last cut of the row, and 0 where it has
    // told none.
    cuts: Grid,
    // For each seat, that its call's root has none, and then for each row, that the root has it: the
    // position right after the Begin of the last call for which that was so.
    had: Grid,
}

impl Times {
    /// What is kept before the first entry. All memory is taken here.
    pub fn new(alloc: Global, config: Config) -> Result<Times, NoMemory>
        requires { is_none (bad_field config) ≡ true }
        ensures told { IfOk result (λ times. IsTimes config times Start) }
        ensures sized { IfOk result (λ times. IsSized times) }
        ensures setting { IfOk result (λ times. times.config ≡ config) }
    {
        let seats = first_seats(alloc, config.seats)?;
        let rows = first_rows(alloc, config.slots)?;
        let cuts = Grid::new(alloc, config.seats, config.slots + 1)?;
        let had = Grid::new(alloc, config.seats, config.slots + 2)?;
        Ok(Times {
            config,
            entries: 0,
            clock: 1,
            seats,
            rows,
            cuts,
            had,
        })
    }

    /// How many entries were told.
    pub fn entries(&self) -> u64
        ensures { (config : Config) (p : Past) → IsTimes config self.now p → result ≡ entries_of p }
    {
        self.entries
    }

    /// The clock.
    pub fn clock(&self) -> u64
        ensures { (config : Config) (p : Past) → IsTimes config self.now p → result ≡ clock_of p }
    {
        self.clock
    }

    /// The call that the seat began last.
    pub fn began(&self, seat: u32) -> Option<Call>
        requires sized { IsSized self.now }
        requires seat { seat < self.now.config.seats }
        ensures { (config : Config) (p : Past) → IsTimes config self.now p → result ≡ began_of seat p }
    {
        self.seats[seat as usize].call
    }
}

impl Times {
    /// Tells an entry. Where a call begins, `found` is the row of its root, if that has one; `last` is
    /// the head's row before the entry, where no row is next to it. Nothing is changed where the
    /// number of entries would be past what is counted.
    #[inline(always)]
    pub fn note(
        &mut self,
        seat: u32,
        event: &Event,
        found: Option<u32>,
        last: Option<u32>,
    ) -> Result<(), NoMemory>
        requires sized { IsSized self.old }
        requires range { EntryIn self.old.config seat event.now }
        requires found { RowIn self.old.config.slots found }
        ensures told { IfOk result (λ _. (config : Config) (p : Past) → IsTimes config self.old p
            → IsFound config event.now found p → last ≡ last_row config.slots p
            → IsTimes config self.new (Then p seat event.now)) }
        ensures sized { IsSized self.new }
        ensures setting { self.new.config ≡ self.old.config }
    {
        if self.entries >= u64::MAX - 1 {
            return Err(NoMemory);
        }
        self.tell(seat, event, found, last);
        Ok(())
    }

    // Tells all cells an entry.
    #[inline(always)]
    fn tell(&mut self, seat: u32, event: &Event, found: Option<u32>, last: Option<u32>)
        requires sized { IsSized self.old }
        requires room { self.old.entries + 1 < 2 ^ 64 - 1 }
        requires range { EntryIn self.old.config seat event.now }
        requires found { RowIn self.old.config.slots found }
        ensures { IsNext self.old self.new seat event.now found last }
    {
        let position = self.entries + 1;
        tell_had(
            &mut self.had,
            &self.seats,
            &self.config,
            seat,
            event,
            found,
            position,
        );
        tell_cuts(&mut self.cuts, &self.config, seat, event, self.clock);
        tell_rows(&mut self.rows, event, position, last);
        tell_seats(&mut self.seats, seat, event, position, self.clock);
        self.clock = ticked(self.clock, event);
        self.entries = position;
    }
}

impl Times {
    /// Whether the entry is one that the tests allow on what a call finds at its root, births, retire
    /// eras and intervals. Where the entry retires a row, `birth` is the row's birth era; where the
    /// seat's call copies, `source` is what the index word publishes from which it does.
    #[inline(always)]
    pub fn fits(&self, seat: u32, event: &Event, birth: u32, source: Option<Interval>) -> bool
        requires sized { IsSized self.now }
        requires range { EntryIn self.now.config seat event.now }
        ensures { (config : Config) (p : Past) → IsTimes config self.now p → IsBirth event.now birth p → IsSource seat source p
            → result ≡ (sources_ok config p seat event.now
            && (birth_ok p seat event.now && (retire_ok config.slots p seat event.now && current_ok p seat event.now))) }
    {
        self.fits_cells(seat, event, birth, source)
    }

    // The same on the cells.
    #[inline(always)]
    fn fits_cells(&self, seat: u32, event: &Event, birth: u32, source: Option<Interval>) -> bool
        requires sized { IsSized self.now }
        requires range { EntryIn self.now.config seat event.now }
        ensures { result ≡ fits_at self.now seat event.now birth source }
    {
        match *event {
            Event::Held { index, slot, .. } => !is_of_root(index) || self.has_had(seat, Some(slot)),
            Event::Null { index, .. } => !is_of_root(index) || self.has_had(seat, None),
            Event::Give { birth: era, .. } => self.was_clock(seat, era),
            Event::Retire {
                slot,
                birth: era,
                retire,
            } => era == birth && (self.is_taken(slot) && self.was_cut(seat, slot, retire)),
            Event::Reserve { span, .. } => {
                self.is_current(seat, span) || self.is_copied(seat, span, source)
            }
            _ => true,
        }
    }

    // Whether the root of the seat's call has had this since the call began.
    fn has_had(&self, seat: u32, found: Option<u32>) -> bool
        requires sized { IsSized self.now }
        requires seat { seat < self.now.config.seats }
        requires found { RowIn self.now.config.slots found }
        ensures { result ≡ had_at self.now seat found }
    {
        let cell = self.seats[seat as usize];
        let stamp = self.had.get(seat as usize, place_of(found));
        looks(cell.call) && stamp == cell.begun
    }

    // Whether the era was the clock at a position of the seat's call.
    fn was_clock(&self, seat: u32, era: u32) -> bool
        requires sized { IsSized self.now }
        requires seat { seat < self.now.config.seats }
        ensures { result ≡ clock_at self.now seat era }
    {
        let cell = self.seats[seat as usize];
        cell.clock <= u64::from(era) && u64::from(era) <= self.clock
    }

    // Whether the row is taken.
    fn is_taken(&self, slot: u32) -> bool
        requires sized { IsSized self.now }
        requires slot { slot ≤ self.now.config.slots }
        ensures { result ≡ (row_at self.now.rows.items slot).taken }
    {
        self.rows[slot as usize].taken
    }

    // Whether the seat has cut the row, and the era was the clock at a position after that.
    fn was_cut(&self, seat: u32, slot: u32, era: u32) -> bool
        requires sized { IsSized self.now }
        requires seat { seat < self.now.config.seats }
        requires slot { slot ≤ self.now.config.slots }
        ensures { result ≡ cut_at self.now seat slot era }
    {
        let cut = self.cuts.get(seat as usize, slot as usize);
        0 < cut && (cut <= u64::from(era) && u64::from(era) <= self.clock)
    }

    // Whether the upper end was the clock at a position of the seat's call.
    fn is_current(&self, seat: u32, span: Option<Interval>) -> bool
        requires sized { IsSized self.now }
        requires seat { seat < self.now.config.seats }
        ensures { result ≡ upper_at self.now seat span }
    {
        match span {
            None => true,
            Some(span) => self.was_clock(seat, span.hi),
        }
    }

    // Whether the seat's call copies, and this is what it copies.
    fn is_copied(&self, seat: u32, span: Option<Interval>, source: Option<Interval>) -> bool
        requires sized { IsSized self.now }
        requires seat { seat < self.now.config.seats }
        ensures { result ≡ copied_at (seat_at self.now.seats.items seat).call span source }
    {
        match (self.seats[seat as usize].call, span, source) {
            (Some(Call::Copy { .. }), Some(span), Some(source)) => {
                span.lo == source.lo && span.hi == source.hi
            }
            _ => false,
        }
    }

    /// Whether a block that begins in search of a free row is allowed: each row was taken at a
    /// position of the call. Where the entry reads a guard, `seeks` says whether such a block begins.
    #[inline(always)]
    pub fn fits_room(&self, seat: u32, event: &Event, seeks: bool) -> bool
        requires sized { IsSized self.now }
        requires seat { seat < self.now.config.seats }
        ensures there { (config : Config) (p : Past) → IsTimes config self.now p
            → IsSought event.now seeks (seeks_room (began_of seat p) (blocks_of config seat p)) → result ≡ true
            → (s : ℕ) → s ≤ config.slots → room_ok config s p seat event.now ≡ true }
        ensures back { (config : Config) (p : Past) → IsTimes config self.now p
            → IsSought event.now seeks (seeks_room (began_of seat p) (blocks_of config seat p))
            → ((s : ℕ) → s ≤ config.slots → room_ok config s p seat event.now ≡ true) → result ≡ true }
    {
        self.fits_room_cells(seat, event, seeks)
    }

    // The same on the cells.
    #[inline(always)]
    fn fits_room_cells(&self, seat: u32, event: &Event, seeks: bool) -> bool
        requires sized { IsSized self.now }
        requires seat { seat < self.now.config.seats }
        ensures { result ≡ room_at self.now seat event.now seeks }
    {
        match event {
            Event::Read { .. } | Event::Saw { .. } => !seeks || self.had_no_room(seat),
            _ => true,
        }
    }

    // Whether each row was taken at a position of the seat's call.
    fn had_no_room(&self, seat: u32) -> bool
        requires sized { IsSized self.now }
        requires seat { seat < self.now.config.seats }
        ensures { result ≡ list_all (was_taken_at (seat_at self.now.seats.items seat).begun) self.now.rows.items }
    {
        let begun = self.seats[seat as usize].begun;
        for row in &self.rows {
            if !row.taken && begun >= row.freed {
                return false;
            }
        }
        true
    }

    /// Whether a Null of the seat at this index is allowed: at 1, the head's row, while it stood at
    /// index 0, had no next one at a position of the call. `standing` are the rows that stand at the
    /// seat's index 0, and `last` is the head's row, where no row is next to it.
    pub fn fits_null(&self, seat: u32, index: u32, last: Option<u32>, standing: &[u32]) -> bool
        requires sized { IsSized self.now }
        requires seat { seat < self.now.config.seats }
        requires standing { All (λ s. s ≤ self.now.config.slots) standing.now }
        ensures { (config : Config) (p : Past) (steps : ℕ) → IsTimes config self.now p → last ≡ last_row config.slots p
            → AreAmong standing.now (standing_of seat 0 p)
            → result ≡ behind_ok config.slots p seat (events.Null index steps) }
    {
        index != 1 || self.was_last(seat, last, standing)
    }

    // Whether one of the rows was the last one of the queue at a position of the seat's call.
    fn was_last(&self, seat: u32, last: Option<u32>, rows: &[u32]) -> bool
        requires sized { IsSized self.now }
        requires seat { seat < self.now.config.seats }
        requires rows { All (λ s. s ≤ self.now.config.slots) rows.now }
        ensures { result ≡ list_any (was_last_at self.now seat last) rows.now }
    {
        let begun = self.seats[seat as usize].begun;
        for row in rows {
            if is_row(*row, last) || begun < self.rows[*row as usize].passed {
                return true;
            }
        }
        false
    }
}

// Whether a call protects its root at this index.
fn is_of_root(index: u32) -> bool
    ensures { result ≡ of_root index }
{
    index == 0 || index == 2
}

// Whether there is this row.
fn is_row(row: u32, other: Option<u32>) -> bool
    ensures { result ≡ same_row row other }
{
    match other {
        None => false,
        Some(other) => row == other,
    }
}

// The clock after an event.
#[inline(always)]
fn ticked(clock: u64, event: &Event) -> u64
    requires { clock < 2 ^ 64 - 1 }
    ensures { result ≡ ticked_by event.now clock }
{
    match event {
        Event::Era { .. } => clock + 1,
        _ => clock,
    }
}

// Tells the grid of cuts an event of a seat.
#[inline(always)]
fn tell_cuts(cuts: &mut Grid, config: &Config, seat: u32, event: &Event, clock: u64)
    requires grid { IsGrid config.now.seats (config.now.slots + 1) cuts.old }
    requires range { EntryIn config.now seat event.now }
    ensures width { cuts.new.width ≡ cuts.old.width }
    ensures count { length cuts.new.cells.items ≡ length cuts.old.cells.items }
    ensures each { (i s : ℕ) → s < cuts.old.width →
        cell_at cuts.new i s ≡ cut_after i s seat event.now clock (cell_at cuts.old i s) }
{
    if let Event::Cut { slot } = *event {
        cuts.set(seat as usize, slot as usize, clock);
    }
}
