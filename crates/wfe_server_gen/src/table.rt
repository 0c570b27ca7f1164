// A table that takes the lines of a generated trace.
ghost use Rattle.std.specs.Prelude.{◌≡◌, ◌<◌, ◌≤◌, [], ◌∷◌, OnOk, OnErr, IfOk, true, false};
ghost use Rattle.wfe_core.specs.Locals.{may_begin, stays};
ghost use Rattle.wfe_outside.specs.defs.Entry.{entry};
ghost use Rattle.wfe_server_replay.specs.drive.Reached.{first_table, units_left};
ghost use Rattle.wfe_server_gen.specs.Summary.{Counts};
ghost use Rattle.wfe_server_gen.specs.Tally.{Tells, bare, lines_made, lines_told};
ghost use Rattle.wfe_server_gen.specs.Turns.{commands_of, generated, setting, turn_commands};
ghost use Rattle.wfe_server_replay.specs.Playing.{call_most, is_playing, opened, played, played_out, seats_out, seats_run, started, unit_made, unit_out, units_made, units_out};
ghost use Rattle.wfe_server_out.specs.Heard.{Hears, HearsSome, boxed};
ghost use Rattle.wfe_server_out.specs.Pieces.{heard_of, told_pieces};
ghost use Rattle.wfe_server_out.specs.Pieces.{Told as told_piece};

use crate::summary::Summary;
use crate::turn::{Turn, fixed};
use rand_core::utils::NextWord;
use rand_pcg::Lcg64Xsh32;
use std::alloc::Global;
use std::marker::Model;
use wfe_core::Told;
use wfe_outside::{Call, Event, NoMemory, Sink, Watcher};
use wfe_server_out::{Fault, tell, tell_all};
use wfe_server_replay::Engine;
use wfe_trace::{Layout, Line};

/// A table with the fixed setting, whose seats stay, and the numbers of the events that it told.
#[derive(Drop)]
pub struct Table<E: Engine> {
    engine: E,
    summary: Summary,
    // In which each event's line is made.
    line: Line,
}

impl<E: Engine> Model for Table<E> {
    ghost use Rattle.wfe_server_gen.specs.Tally.{Tally, bare};

    ghost Value = { Tally };

    ghost use Rattle.wfe_server_replay.specs.drive.Reached.{IsReached};

    ghost view = { λ t. record { played = bare (E.table t.engine); summary = t.summary } };

    ghost invariant = { λ t. IsReached (E.table t.engine) };
}

impl<E: Engine> Table<E> {
    /// A table at its start.
    pub fn open(alloc: Global) -> Result<Table<E>, NoMemory>
        ensures played { IfOk result (λ table. table.played ≡ bare (first_table (record { config = setting }))) }
        ensures counts { IfOk result (λ table. Counts table.summary []) }
    {
        let Ok(layout) = Layout::new(fixed()) else {
            unreachable!()
        };
        Ok(Table {
            engine: E::make(alloc, layout)?,
            summary: Summary::new(),
            line: Line::new(),
        })
    }

    /// The numbers of the events so far.
    pub fn summary(&self) -> Summary
        ensures { result ≡ self.now.summary }
    {
        self.summary
    }

    // Makes one unit of a busy seat.
    fn unit<K: Sink>(
        &mut self,
        seat: u32,
        told: &mut Told,
        sink: &mut K,
        watchers: &mut [Box<dyn Watcher>],
    ) -> Result<(), Fault>
        requires seat { seat < self.old.played.table.layout.config.seats }
        requires busy { is_playing seat self.old.played ≡ true }
        ensures after { self.new.played ≡ unit_made self.old.played seat }
        ensures falls { units_left self.new.played.table seat < units_left self.old.played.table seat }
        ensures ok { OnOk result (Tells (boxed stands) watchers.old watchers.new self.old.summary self.new.summary (unit_out self.old.played seat)) }
        ensures err { OnErr result (HearsSome (boxed stands) watchers.old watchers.new (heard_of (unit_out self.old.played seat))) }
    {
        told.clear();
        let _ = self.engine.unit(seat, told);
        self.summary.count_all(seat, told);
        tell_all(sink, &mut self.line, watchers, seat, told)
    }

    // Runs a seat until its call ends.
    fn run<K: Sink>(
        &mut self,
        seat: u32,
        sink: &mut K,
        watchers: &mut [Box<dyn Watcher>],
    ) -> Result<(), Fault>
        requires { seat < self.old.played.table.layout.config.seats }
        ensures after { OnOk result (self.new.played ≡ units_made call_most seat self.old.played) }
        ensures free { OnOk result (is_playing seat self.new.played ≡ false) }
        ensures ok { OnOk result (Tells (boxed stands) watchers.old watchers.new self.old.summary self.new.summary (units_out call_most seat self.old.played)) }
        ensures err { OnErr result (HearsSome (boxed stands) watchers.old watchers.new (heard_of (units_out call_most seat self.old.played))) }
    {
        let mut told = Told::new();
        while self.engine.busy(seat) {
            self.unit(seat, &mut told, sink, watchers)?;
        }
        Ok(())
    }

    // Makes so many units of a seat, or fewer where its call ends before.
    fn step<K: Sink>(
        &mut self,
        seat: u32,
        units: u32,
        sink: &mut K,
        watchers: &mut [Box<dyn Watcher>],
    ) -> Result<(), Fault>
        requires { seat < self.old.played.table.layout.config.seats }
        ensures after { OnOk result (self.new.played ≡ units_made units seat self.old.played) }
        ensures ok { OnOk result (Tells (boxed stands) watchers.old watchers.new self.old.summary self.new.summary (units_out units seat self.old.played)) }
        ensures err { OnErr result (HearsSome (boxed stands) watchers.old watchers.new (heard_of (units_out units seat self.old.played))) }
    {
        let mut told = Told::new();
        for _ in 0..units {
            if !self.engine.busy(seat) {
                return Ok(());
            }
            self.unit(seat, &mut told, sink, watchers)?;
        }
        Ok(())
    }

    // A call of the seat begins.
    fn start<K: Sink>(
        &mut self,
        seat: u32,
        call: Call,
        sink: &mut K,
        watchers: &mut [Box<dyn Watcher>],
    ) -> Result<(), Fault>
        requires seat { seat < self.old.played.table.layout.config.seats }
        requires free { is_playing seat self.old.played ≡ false }
        requires may { may_begin self.old.played.table.layout.config call ≡ true }
        requires stays { stays call ≡ true }
        ensures after { self.new.played ≡ started self.old.played seat call }
        ensures ok { OnOk result (Tells (boxed stands) watchers.old watchers.new self.old.summary self.new.summary (told_piece (entry seat (Event.Begin call)) ∷ [])) }
        ensures err { OnErr result (HearsSome (boxed stands) watchers.old watchers.new (heard_of (told_piece (entry seat (Event.Begin call)) ∷ []))) }
    {
        let takes = self.engine.takes(&call);
        prove!(takes);
        self.engine.start(seat, call);
        let event = Event::Begin { call };
        self.summary.count(seat, &event);
        tell(sink, &mut self.line, watchers, seat, &event)
    }

    // Plays the three lines of a turn.
    fn turn<K: Sink>(
        &mut self,
        a: u32,
        b: u32,
        sink: &mut K,
        watchers: &mut [Box<dyn Watcher>],
    ) -> Result<(), Fault>
        requires { self.old.played.table.layout.config.seats ≡ 4 }
        ensures after { OnOk result (self.new.played ≡ lines_made (turn_commands a b) self.old.played) }
        ensures ok { OnOk result (Tells (boxed stands) watchers.old watchers.new self.old.summary self.new.summary (lines_told (turn_commands a b) self.old.played)) }
        ensures err { OnErr result (HearsSome (boxed stands) watchers.old watchers.new (heard_of (lines_told (turn_commands a b) self.old.played))) }
    {
        let turn = Turn::of(a, b);
        self.run(turn.seat, sink, watchers)?;
        self.start(turn.seat, turn.call, sink, watchers)?;
        self.step(turn.seat, turn.units, sink, watchers)
    }

    // Runs each seat until its call ends, one after the other.
    fn finish<K: Sink>(
        &mut self,
        sink: &mut K,
        watchers: &mut [Box<dyn Watcher>],
    ) -> Result<(), Fault>
        requires { self.old.played.table.layout.config.seats ≡ 4 }
        ensures after { OnOk result (self.new.played ≡ seats_run 4 self.old.played) }
        ensures ok { OnOk result (Tells (boxed stands) watchers.old watchers.new self.old.summary self.new.summary (seats_out 4 self.old.played)) }
        ensures err { OnErr result (HearsSome (boxed stands) watchers.old watchers.new (heard_of (seats_out 4 self.old.played))) }
    {
        for seat in 0..4 {
            self.run(seat, sink, watchers)?;
        }
        Ok(())
    }

    /// Plays the lines of so many turns of a seed.
    pub fn play<K: Sink>(
        &mut self,
        seed: u64,
        turns: u64,
        sink: &mut K,
        watchers: &mut [Box<dyn Watcher>],
    ) -> Result<(), Fault>
        requires { self.old.played.table.layout.config.seats ≡ 4 }
        ensures ok { OnOk result (Tells (boxed stands) watchers.old watchers.new self.old.summary self.new.summary (lines_told (generated seed turns) self.old.played)) }
        ensures err { OnErr result (HearsSome (boxed stands) watchers.old watchers.new (heard_of (lines_told (generated seed turns) self.old.played))) }
    {
        let mut words = Lcg64Xsh32::new(seed, 0);
        for _ in 0..turns {
            let a = words.next_word();
            let b = words.next_word();
            self.turn(a, b, sink, watchers)?;
        }
        self.finish(sink, watchers)
    }
}
