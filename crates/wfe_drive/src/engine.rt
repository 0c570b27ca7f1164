// What a trace is replayed on.
ghost use Rattle.std.specs.Prelude.{◌≡◌, ◌<◌, [], IfOk, false, true};
ghost use Rattle.wfe_core.specs.words.Place.{is_valid};
ghost use Rattle.wfe_drive_cells.specs.Unit.{IsUnit, after_start, is_gone, seat_at};
ghost use Rattle.wfe_core.specs.Locals.{busy_in, may_begin, stays};
ghost use Rattle.wfe_drive.specs.Reached.{first_table, units_left};

use crate::Rig;
use std::alloc::Global;
use wfe_core::{Answer, Call, Layout, NoMemory, Told};
use wfe_drive_cells::MakeCells;

/// A table whose seats make the calls of a trace, one unit after another.
pub trait Engine: Sized + Drop {
    ghost use Rattle.wfe_drive_cells.specs.Unit.{TableView};
    ghost use Rattle.std.specs.Prelude.{Bool};
    ghost use Rattle.wfe_core.specs.defs.declared.call.Call.{Call as GivenCall};

    /// The words by number, and what the model knows of each seat.
    ghost table: { Self → TableView };

    /// Which calls the engine takes.
    ghost taken: { GivenCall → Bool };

    /// A table at its start, each seat between calls.
    fn make(alloc: Global, layout: Layout) -> Result<Self, NoMemory>
        requires { is_valid layout ≡ true }
        ensures { IfOk result (λ engine. Self.table engine ≡ first_table layout) };

    /// Whether the engine takes the call. Each engine takes every call of a seat that stays.
    fn takes(&self, call: &Call) -> bool
        ensures takes { result ≡ Self.taken call.now }
        ensures stays { stays call.now ≡ true → result ≡ true };

    /// Whether a call of the seat is under way.
    fn busy(&self, seat: u32) -> bool
        requires { seat < (table self.now).layout.config.seats }
        ensures { result ≡ busy_in (seat_at (table self.now) seat).phase };

    /// Whether the seat has left.
    fn gone(&self, seat: u32) -> bool
        requires { seat < (table self.now).layout.config.seats }
        ensures { result ≡ is_gone (table self.now) seat };

    /// A call begins of a seat that has not left, which the engine takes, and which names indexes and
    /// seats in their ranges. No word changes, and no memory is taken.
    fn start(&mut self, seat: u32, call: Call)
        requires seat { seat < (table self.old).layout.config.seats }
        requires free { busy_in (seat_at (table self.old) seat).phase ≡ false }
        requires may { may_begin (table self.old).layout.config call ≡ true }
        requires here { is_gone (table self.old) seat ≡ false }
        requires takes { Self.taken call ≡ true }
        ensures { table self.new ≡ after_start (table self.old) seat call };

    /// Makes one unit of the seat's call: exactly one operation on the words, and exactly one step of
    /// the model. Its events are told, and the answer is Some where the call ended. It takes no
    /// memory, and leaves a call that goes on fewer units.
    fn unit(&mut self, seat: u32, told: &mut Told) -> Option<Answer>
        requires seat { seat < (table self.old).layout.config.seats }
        requires busy { busy_in (seat_at (table self.old) seat).phase ≡ true }
        requires empty { told.old ≡ [] }
        ensures unit { IsUnit (table self.old) (table self.new) seat told.new result }
        ensures falls { units_left (table self.new) seat < units_left (table self.old) seat };
}

impl<C: MakeCells> Engine for Rig<C> {
    ghost use Rattle.wfe_core.specs.Locals.{stays};
    ghost use Rattle.wfe_drive.specs.Bare.{bare};

    ghost table = { λ rig. bare rig };

    ghost taken = { stays };

    fn make(alloc: Global, layout: Layout) -> Result<Rig<C>, NoMemory> {
        Rig::new(alloc, C::make(alloc, layout)?, layout)
    }

    fn takes(&self, call: &Call) -> bool {
        !matches!(call, Call::Leave | Call::Adopt { .. })
    }

    fn busy(&self, seat: u32) -> bool {
        Rig::busy(self, seat)
    }

    fn gone(&self, _seat: u32) -> bool {
        false
    }

    fn start(&mut self, seat: u32, call: Call) {
        Rig::start(self, seat, call)
    }

    fn unit(&mut self, seat: u32, told: &mut Told) -> Option<Answer> {
        Rig::unit(self, seat, told)
    }
}
