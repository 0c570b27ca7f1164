// A rig whose seats also leave, and take over what others have left.
ghost use Rattle.std.specs.Prelude.{◌≡◌, ◌<◌, [], IfOk, false, true};
ghost use Rattle.wfe_core.specs.words.Place.{is_valid};
ghost use Rattle.wfe_core.specs.Locals.{busy_in, may_begin};
ghost use Rattle.wfe_drive_cells.specs.Memory.{HoldsStart};
ghost use Rattle.wfe_drive_cells.specs.Unit.{IsUnit, after_start, is_gone, seat_at};
ghost use Rattle.wfe_drive.specs.Reached.{first_table, units_left};
ghost use Rattle.wfe_leave.specs.Parts.{AllStay};

use crate::part::Part;
use crate::units::{make_unit, start_call};
use std::alloc::Global;
use std::marker::Model;
use wfe_core::{Answer, Call, Layout, NoMemory, Told};
use wfe_drive::{Engine, Rig};
use wfe_drive_cells::{Cells, MakeCells};

#[tactic(auto, using(crate::proofs::Kept::none_stay, crate::proofs::Kept::more_stay, crate::proofs::Kept::so_many))]
// Parts of so many seats that have made no call.
fn all_stay(alloc: Global, count: u32) -> Result<Vec<Part>, NoMemory>
    ensures { IfOk result (λ parts. AllStay parts.items count) }
{
    let Ok(mut parts) = Vec::with_capacity(alloc, count as usize) else {
        return Err(NoMemory);
    };
    for _seat in 0..count {
        match parts.push(Part::Stays) {
            Ok(()) => {}
            Err(_) => return Err(NoMemory),
        }
    }
    Ok(parts)
}

/// A rig, and how far the calls of its seats have come that leave or adopt. It is seen as its words by
/// number and what the model knows of each seat; a history of calls that began and steps that were
/// made, of all kinds, comes to that.
#[derive(Drop)]
pub struct LeaveRig<C: Cells> {
    rig: Rig<C>,
    layout: Layout,
    parts: Vec<Part>,
}

impl<C: Cells> Model for LeaveRig<C> {
    ghost use Rattle.wfe_drive_cells.specs.Unit.{TableView};
    ghost use Rattle.wfe_leave.specs.Parts.{Leaving, overlay};

    ghost Value = { TableView };

    ghost view = { λ r. overlay r.rig r.parts.items };

    ghost invariant = { λ r. Leaving r.rig r.layout r.parts.items };
}

impl<C: Cells> LeaveRig<C> {
    /// A table at its start, each seat between calls.
    pub fn new(alloc: Global, cells: C, layout: Layout) -> Result<LeaveRig<C>, NoMemory>
        requires layout { is_valid layout ≡ true }
        requires cells { HoldsStart layout (C.words cells) }
        ensures { IfOk result (λ rig. rig ≡ first_table layout) }
    {
        let parts = all_stay(alloc, layout.config().seats)?;
        let rig = Rig::new(alloc, cells, layout)?;
        Ok(LeaveRig { rig, layout, parts })
    }

    /// Whether a call of the seat is under way.
    #[inline(always)]
    pub fn busy(&self, seat: u32) -> bool
        requires { seat < self.now.layout.config.seats }
        ensures { result ≡ busy_in (seat_at self.now seat).phase }
    {
        let part = self.parts[seat as usize];
        if part.stays() {
            self.rig.busy(seat)
        } else {
            part.open()
        }
    }

    /// Whether the seat has left.
    pub fn gone(&self, seat: u32) -> bool
        requires { seat < self.now.layout.config.seats }
        ensures { result ≡ is_gone self.now seat }
    {
        self.parts[seat as usize].left()
    }

    /// A call begins of a seat that has not left, which names indexes and seats in their ranges. No word
    /// changes, and no memory is taken.
    pub fn start(&mut self, seat: u32, call: Call)
        requires seat { seat < self.old.layout.config.seats }
        requires free { busy_in (seat_at self.old seat).phase ≡ false }
        requires may { may_begin self.old.layout.config call ≡ true }
        requires here { is_gone self.old seat ≡ false }
        ensures table { self.new ≡ after_start self.old seat call }
    {
        let part = start_call(&mut self.rig, seat, call);
        self.parts[seat as usize] = part;
    }

    /// Makes one unit of the seat's call: exactly one operation on the words, and exactly one step of
    /// the model. Its events are told, and the answer is Some where the call ended. It takes no
    /// memory, and leaves a call that goes on fewer units.
    #[inline(always)]
    pub fn unit(&mut self, seat: u32, told: &mut Told) -> Option<Answer>
        requires seat { seat < self.old.layout.config.seats }
        requires busy { busy_in (seat_at self.old seat).phase ≡ true }
        requires empty { told.old ≡ [] }
        ensures unit { IsUnit self.old self.new seat told.new result }
        ensures falls { units_left self.new seat < units_left self.old seat }
    {
        let part = &mut self.parts[seat as usize];
        make_unit(&mut self.rig, &self.layout, seat, part, told)
    }
}

impl<C: MakeCells> Engine for LeaveRig<C> {
    ghost use Rattle.wfe_leave.specs.Parts.{any_call};

    ghost table = { λ rig. rig };

    ghost taken = { any_call };

    fn make(alloc: Global, layout: Layout) -> Result<LeaveRig<C>, NoMemory> {
        LeaveRig::new(alloc, C::make(alloc, layout)?, layout)
    }

    fn takes(&self, _call: &Call) -> bool {
        true
    }

    #[inline(always)]
    fn busy(&self, seat: u32) -> bool {
        LeaveRig::busy(self, seat)
    }

    fn gone(&self, seat: u32) -> bool {
        LeaveRig::gone(self, seat)
    }

    fn start(&mut self, seat: u32, call: Call) {
        LeaveRig::start(self, seat, call)
    }

    #[inline(always)]
    fn unit(&mut self, seat: u32, told: &mut Told) -> Option<Answer> {
        LeaveRig::unit(self, seat, told)
    }
}
