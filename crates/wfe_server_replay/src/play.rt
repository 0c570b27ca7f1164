// A table that takes the lines of a trace.
ghost use Rattle.wfe_server_out.specs.Emits.{Emits, Writes};
ghost use Rattle.wfe_server_out.specs.Heard.{boxed};
ghost use Rattle.std.specs.Prelude.{◌≡◌, ◌<◌, IfErr, IfOk, None, OnOk, [], ◌∷◌, false, length, true};
ghost use Rattle.wfe_drive.specs.Reached.{units_left};
ghost use Rattle.wfe_drive.specs.drive_cells.Unit.{is_gone};
ghost use Rattle.wfe_outside.specs.defs.Entry.{entry};
ghost use Rattle.wfe_server_replay.specs.Counts.{back_in_all, counted_all, listed_all, retired_in_all, seat_line, seat_lines, table_pieces, total_line};
ghost use Rattle.wfe_server_replay.specs.Playing.{Played, call_most, is_playing, opened, played, played_out, player, seats_out, seats_run, started, unit_made, unit_out, units_made, units_out};
ghost use Rattle.wfe_server_out.specs.Pieces.{text_of};
ghost use Rattle.wfe_server_out.specs.Pieces.{Told as told_piece};
ghost use Rattle.wfe_server_replay.specs.Trace.{why_refused};
ghost use Rattle.wfe_trace.specs.Body.{IsCommandWithin, fits_indexes, fits_seats};
ghost use Rattle.wfe_trace.specs.words.Config.{bad_field};

use std::alloc::Global;
use std::marker::Model;
use wfe_core::Told;
use wfe_drive::Engine;
use wfe_outside::{Call, Command, Event, Failed, NoMemory, Sink, WatchRow, Watcher};
use wfe_server_out::{Fault, put_line, tell, tell_all};
use wfe_trace::{Config, Layout, Line, Reason, print_table};
use wfe_watch::{GarbageCounter, ListCounter};

/// A table that takes the lines of a trace, and the counts of its garbage and of its retire lists.
#[derive(Drop)]
pub struct Play<E: Engine> {
    engine: E,
    garbage: GarbageCounter,
    lists: ListCounter,
    seats: u32,
    // In which each event's line is made.
    line: Line,
}

impl<E: Engine> Model for Play<E> {
    ghost use Rattle.std.specs.Prelude.{length, ◌≡◌};
    ghost use Rattle.wfe_server_replay.specs.Playing.{Played};

    ghost Value = { Played };

    ghost view = { λ p. record { table = E.table p.engine; garbage = p.garbage; waiting = p.lists } };

    ghost invariant = { λ p. (p.seats ≡ (E.table p.engine).layout.config.seats) × (length p.garbage ≡ p.seats) };
}

impl<E: Engine> Play<E> {
    /// A table at its start.
    pub fn open(alloc: Global, config: Config) -> Result<Play<E>, NoMemory>
        requires { bad_field config ≡ None }
        ensures { IfOk result (λ play. play ≡ opened config) }
    {
        let Ok(layout) = Layout::new(config) else {
            unreachable!()
        };
        Ok(Play {
            engine: E::make(alloc, layout)?,
            garbage: GarbageCounter::new(alloc, config.seats)?,
            lists: ListCounter::new(alloc, config.seats)?,
            seats: config.seats,
            line: Line::new(),
        })
    }

    /// Whether a call of the seat is under way.
    pub fn busy(&self, seat: u32) -> bool
        requires { seat < self.now.table.layout.config.seats }
        ensures { result ≡ is_playing seat self.now }
    {
        self.engine.busy(seat)
    }

    /// Why a call of the seat does not begin, if it does not: the engine does not make such calls, or
    /// one of the seat is under way, or the seat has left.
    pub fn refuses(&self, seat: u32, call: &Call) -> Option<Reason>
        requires { seat < self.now.table.layout.config.seats }
        ensures { result ≡ why_refused (E.taken call.now) (is_playing seat self.now) (is_gone self.now.table seat) }
    {
        if !self.engine.takes(call) {
            Some(Reason::NotYet)
        } else if self.engine.busy(seat) {
            Some(Reason::Busy)
        } else if self.engine.gone(seat) {
            Some(Reason::Gone)
        } else {
            None
        }
    }

    // Counts what a unit of the seat has told.
    #[inline(always)]
    fn count(&mut self, seat: u32, told: &Told)
        ensures { self.new ≡ record self.old { garbage = counted_all self.old.garbage seat told.now; waiting = listed_all self.old.waiting seat told.now } }
    {
        count_all(&mut self.garbage, &mut self.lists, seat, told);
    }

    // Makes one unit of a busy seat, and puts out what it tells.
    #[inline(always)]
    fn unit<K: Sink>(
        &mut self,
        seat: u32,
        told: &mut Told,
        sink: &mut K,
        watchers: &mut [Box<dyn Watcher>],
    ) -> Result<(), Fault>
        requires seat { seat < self.old.table.layout.config.seats }
        requires busy { is_playing seat self.old ≡ true }
        ensures after { self.new ≡ unit_made self.old seat }
        ensures table { self.new.table.layout ≡ self.old.table.layout }
        ensures falls { units_left self.new.table seat < units_left self.old.table seat }
        ensures emits { Emits (boxed stands) K.written K.faults K.may_stand result sink.old sink.new watchers.old watchers.new (unit_out self.old seat) }
    {
        told.clear();
        let _ = self.engine.unit(seat, told);
        // About half of all units tell nothing.
        if told.len() == 0 {
            return Ok(());
        }
        self.count(seat, told);
        tell_all(sink, &mut self.line, watchers, seat, told)
    }

    // Runs a seat until its call ends.
    fn run<K: Sink>(
        &mut self,
        seat: u32,
        sink: &mut K,
        watchers: &mut [Box<dyn Watcher>],
    ) -> Result<(), Fault>
        requires { seat < self.old.table.layout.config.seats }
        ensures after { OnOk result (self.new ≡ units_made call_most seat self.old) }
        ensures table { self.new.table.layout ≡ self.old.table.layout }
        ensures emits { Emits (boxed stands) K.written K.faults K.may_stand result sink.old sink.new watchers.old watchers.new (units_out call_most seat self.old) }
    {
        let mut told = Told::new();
        while self.busy(seat) {
            self.unit(seat, &mut told, sink, watchers)?;
        }
        Ok(())
    }

    // Makes so many units of a seat, or fewer where its call ends before.
    fn step<K: Sink>(
        &mut self,
        seat: u32,
        units: u32,
        sink: &mut K,
        watchers: &mut [Box<dyn Watcher>],
    ) -> Result<(), Fault>
        requires { seat < self.old.table.layout.config.seats }
        ensures after { OnOk result (self.new ≡ units_made units seat self.old) }
        ensures table { self.new.table.layout ≡ self.old.table.layout }
        ensures emits { Emits (boxed stands) K.written K.faults K.may_stand result sink.old sink.new watchers.old watchers.new (units_out units seat self.old) }
    {
        let mut told = Told::new();
        for _ in 0..units {
            if !self.busy(seat) {
                return Ok(());
            }
            self.unit(seat, &mut told, sink, watchers)?;
        }
        Ok(())
    }

    // Runs each seat until its call ends, one after the other.
    fn finish<K: Sink>(
        &mut self,
        sink: &mut K,
        watchers: &mut [Box<dyn Watcher>],
    ) -> Result<(), Fault>
        ensures after { OnOk result (self.new ≡ seats_run self.old.table.layout.config.seats self.old) }
        ensures table { self.new.table.layout ≡ self.old.table.layout }
        ensures emits { Emits (boxed stands) K.written K.faults K.may_stand result sink.old sink.new watchers.old watchers.new
            (seats_out self.old.table.layout.config.seats self.old) }
    {
        for seat in 0..self.seats {
            self.run(seat, sink, watchers)?;
        }
        Ok(())
    }

    // Writes the table of counts.
    fn put_table<K: Sink>(&self, sink: &mut K) -> Result<(), Fault>
        ensures writes { Writes K.written K.faults K.may_stand result sink.old sink.new (text_of (table_pieces self.now.garbage self.now.waiting)) }
        ensures fault { IfErr result (λ fault. fault ≡ Fault.Write) }
    {
        put_seats(&self.garbage, &self.lists, self.seats, sink)?;
        put_total(&self.garbage, &self.lists, sink)?;
        Ok(())
    }

    // A call of the seat begins.
    fn start<K: Sink>(
        &mut self,
        seat: u32,
        call: Call,
        sink: &mut K,
        watchers: &mut [Box<dyn Watcher>],
    ) -> Result<(), Fault>
        requires seat { seat < self.old.table.layout.config.seats }
        requires free { is_playing seat self.old ≡ false }
        requires here { is_gone self.old.table seat ≡ false }
        requires takes { E.taken call ≡ true }
        requires indexes { fits_indexes self.old.table.layout.config.indexes call ≡ true }
        requires place { fits_seats self.old.table.layout.config.seats call ≡ true }
        ensures after { OnOk result (self.new ≡ started self.old seat call) }
        ensures table { self.new.table.layout ≡ self.old.table.layout }
        ensures emits { Emits (boxed stands) K.written K.faults K.may_stand result sink.old sink.new watchers.old watchers.new
            (told_piece (entry seat (Event.Begin call)) ∷ []) }
    {
        self.engine.start(seat, call);
        tell(sink, &mut self.line, watchers, seat, &Event::Begin { call })
    }

    /// Takes a line of the body: a call that may begin, units, or a table of counts.
    pub fn perform<K: Sink>(
        &mut self,
        command: Command,
        sink: &mut K,
        watchers: &mut [Box<dyn Watcher>],
    ) -> Result<(), Fault>
        requires within { IsCommandWithin self.old.table.layout.config command }
        requires free { (player E.taken).refuses command self.old ≡ None }
        ensures after { OnOk result (self.new ≡ played command self.old) }
        ensures table { self.new.table.layout ≡ self.old.table.layout }
        ensures emits { Emits (boxed stands) K.written K.faults K.may_stand result sink.old sink.new watchers.old watchers.new (played_out command self.old) }
    {
        match command {
            Command::Call { seat, call } => self.start(seat, call, sink, watchers),
            Command::Step { seat, units } => self.step(seat, units, sink, watchers),
            Command::Run { seat } => self.run(seat, sink, watchers),
            Command::End => self.finish(sink, watchers),
            Command::Table => self.put_table(sink),
        }
    }
}

// Counts events of a seat, in order, and the rows that they add to lists and take out of them.
#[inline(always)]
fn count_all(garbage: &mut GarbageCounter, lists: &mut ListCounter, seat: u32, told: &Told)
    ensures garbage { garbage.new ≡ counted_all garbage.old seat told.now }
    ensures lists { lists.new ≡ listed_all lists.old seat told.now }
{
    for place in 0..told.len() {
        let event = told.get(place);
        garbage.count(seat, event);
        lists.count(seat, event);
    }
}

// Writes the line of a seat with so many rows in its list.
fn put_seat<K: Sink>(seat: u32, row: WatchRow, waiting: u64, sink: &mut K) -> Result<(), Failed>
    ensures { Writes K.written K.faults K.may_stand result sink.old sink.new (seat_line seat row waiting) }
{
    let mut line = Line::new();
    print_table(Some(seat), row.b, row.c, waiting, &mut line);
    put_line(sink, &line)
}

// Writes the lines of the seats.
fn put_seats<K: Sink>(
    garbage: &GarbageCounter,
    lists: &ListCounter,
    seats: u32,
    sink: &mut K,
) -> Result<(), Failed>
    requires { length garbage.now ≡ seats }
    ensures { Writes K.written K.faults K.may_stand result sink.old sink.new (text_of (seat_lines 0 garbage.now lists.now)) }
{
    for seat in 0..seats {
        put_seat(seat, garbage.row(seat as u64), lists.waiting(seat), sink)?;
    }
    Ok(())
}

// The sums of the counts over the seats.
fn totals(garbage: &GarbageCounter) -> (u64, u64)
    ensures { (result.0 ≡ retired_in_all garbage.now) × (result.1 ≡ back_in_all garbage.now) }
{
    let mut retired: u64 = 0;
    let mut back: u64 = 0;
    for place in 0..garbage.rows() {
        let row = garbage.row(place);
        retired = retired.saturating_add(row.b);
        back = back.saturating_add(row.c);
    }
    (retired, back)
}

// Writes the line of all seats together.
fn put_total<K: Sink>(
    garbage: &GarbageCounter,
    lists: &ListCounter,
    sink: &mut K,
) -> Result<(), Failed>
    ensures { Writes K.written K.faults K.may_stand result sink.old sink.new (total_line garbage.now lists.now) }
{
    let (retired, back) = totals(garbage);
    let mut line = Line::new();
    print_table(None, retired, back, lists.total(), &mut line);
    put_line(sink, &line)
}
