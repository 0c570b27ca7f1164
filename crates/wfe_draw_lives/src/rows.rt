// The lives of rows, from the entries of a record.
ghost use Rattle.std.specs.Prelude.{◌≡◌, ◌+◌, ℕ, All, IfOk, OnOk};
ghost use Rattle.model_record.specs.Record.{Past};
ghost use Rattle.model_record.specs.Record.Past.{Start, Then};
ghost use Rattle.wfe_defs.specs.declared.event.Event.{Event as AnyEvent};
ghost use Rattle.wfe_defs.specs.declared.event.Event.TheVariants as events;
ghost use Rattle.wfe_draw_lives.specs.Lives.{Ended, Frees, IsLife, Lived, OverIn, count_in};

use crate::bar::Moment;
use crate::life::Life;
use indexmap::IndexMap;
use std::alloc::{AllocError, Global};
use wfe_defs::{Event, Root};

/// The rows that are not free after the entries so far, and the lives that ended in the part that is
/// drawn. Of those that ended before it nothing is kept.
#[derive(Drop)]
pub struct Rows {
    now: IndexMap<u32, Life>,
    lives: Vec<Life>,
    // For each seat who scans the rows that it has retired.
    scanners: [u32; 64],
}

// Each seat scans the rows that it has retired.
fn own_scanners() -> [u32; 64] {
    let mut scanners = [0u32; 64];
    for seat in 0..64u32 {
        scanners[seat as usize] = seat;
    }
    scanners
}

// A seat takes over the rows that another one has left.
fn adopt(scanners: &mut [u32; 64], from: u32, to: u32) {
    for scanner in scanners.iter_mut() {
        if *scanner == from {
            *scanner = to;
        }
    }
}

impl Rows {
    /// No entry came.
    pub fn new(alloc: Global) -> Rows
        ensures { Lived result Start }
    {
        Rows {
            now: IndexMap::new(alloc),
            lives: Vec::new(alloc),
            scanners: own_scanners(),
        }
    }

    // A life of a row has ended. It is kept where its end is drawn.
    fn end_life(&mut self, life: Life, at: Moment, is_drawn: bool) -> Result<(), AllocError>
        ensures now { self.new.now ≡ self.old.now }
        ensures ended { (p : Past) → All (OverIn p) self.old.lives.items → Ended life.slot life.given at p → OnOk result (All (OverIn p) self.new.lives.items) }
    {
        if is_drawn {
            self.lives.push(Life {
                back: Some(at),
                ..life
            })?;
        }
        Ok(())
    }

    // A row is given. Where it was not free the life before ends there.
    fn give(&mut self, slot: u32, at: Moment, is_drawn: bool) -> Result<(), AllocError>
        ensures { (p : Past) (seat birth : ℕ) → Lived self.old p → at.number ≡ count_in p + 1 → OnOk result (Lived self.new (Then p seat (events.Give slot birth))) }
    {
        let life = Life {
            given: Some(at),
            ..Life::old(slot)
        };
        match self.now.insert(slot, life)? {
            Some(before) => self.end_life(before, at, is_drawn),
            None => Ok(()),
        }
    }

    // A row is free again.
    fn free(&mut self, slot: u32, at: Moment, is_drawn: bool) -> Result<(), AllocError>
        ensures { (p : Past) (seat : ℕ) (event : AnyEvent) → Lived self.old p → at.number ≡ count_in p + 1 → Frees slot event → OnOk result (Lived self.new (Then p seat event)) }
    {
        let life = self.now.swap_remove(&slot).unwrap_or(Life::old(slot));
        self.end_life(life, at, is_drawn)
    }

    // A row is linked, cut or retired, or stands.
    fn pass(&mut self, slot: u32, at: Moment, seat: u32, event: &Event) -> Result<(), AllocError>
        ensures { (p : Past) → Lived self.old p → OnOk result (Lived self.new p) }
    {
        if let Some(life) = self.now.get_mut(&slot) {
            life.note(at, seat, event);
            return Ok(());
        }
        let mut life = Life::old(slot);
        life.note(at, seat, event);
        self.now.insert(slot, life)?;
        Ok(())
    }

    // A row stands no more at some index.
    fn let_go(&mut self, slot: u32, is_drawn: bool)
        ensures { (p : Past) → Lived self.old p → Lived self.new p }
    {
        if let Some(life) = self.now.get_mut(&slot) {
            life.stood = is_drawn;
        }
    }

    // Whether a scan of the seat may give back the row.
    fn is_scanned_by(&self, life: &Life, seat: u32) -> bool {
        life.retired.is_some() && self.scanners.get(life.by as usize).copied() == Some(seat)
    }

    // A scan's reading keeps the row at this place of the map, or does not.
    fn scan_one(&mut self, place: usize, at: Moment, seat: u32, event: &Event)
        ensures { (p : Past) → Lived self.old p → Lived self.new p }
    {
        let Some((slot, life)) = self.now.get_index(place) else {
            return;
        };
        let slot = *slot;
        if self.is_scanned_by(life, seat)
            && let Some(keeper) = life.keeper_in(event)
            && let Some(life) = self.now.get_mut(&slot)
        {
            life.kept = Some(at);
            life.keeper = keeper;
        }
    }

    // A scan reads a guard.
    fn scan(&mut self, at: Moment, seat: u32, event: &Event)
        ensures { (p : Past) → Lived self.old p → Lived self.new p }
    {
        for place in 0..self.now.len() {
            self.scan_one(place, at, seat, event);
        }
    }

    // Notes an entry that neither begins nor ends a life.
    fn note_within(
        &mut self,
        at: Moment,
        seat: u32,
        event: &Event,
        is_drawn: bool,
    ) -> Result<(), AllocError>
        ensures { (p : Past) → Lived self.old p → OnOk result (Lived self.new p) }
    {
        match *event {
            Event::Link {
                root: Root::Bucket(_) | Root::Next(_),
                slot,
            }
            | Event::Cut { slot }
            | Event::Retire { slot, .. }
            | Event::Held { slot, .. }
            | Event::Copied { slot, .. } => return self.pass(slot, at, seat, event),
            Event::Clear { slot, .. } => self.let_go(slot, is_drawn),
            Event::Read { .. } | Event::Saw { .. } if is_drawn => self.scan(at, seat, event),
            Event::Adopted { place, .. } => adopt(&mut self.scanners, place, seat),
            _ => {}
        }
        Ok(())
    }

    /// Notes the next entry, of a seat, which is drawn or not.
    pub fn note(
        &mut self,
        at: Moment,
        seat: u32,
        event: &Event,
        is_drawn: bool,
    ) -> Result<(), AllocError>
        ensures { (p : Past) → Lived self.old p → at.number ≡ count_in p + 1 → OnOk result (Lived self.new (Then p seat event.now)) }
    {
        match *event {
            Event::Give { slot, .. } => self.give(slot, at, is_drawn),
            Event::Unused { slot } | Event::Back { slot } => self.free(slot, at, is_drawn),
            _ => self.note_within(at, seat, event, is_drawn),
        }
    }

    /// All lives that are drawn: those that ended in the part, and those of rows that come in it.
    pub fn close(self, before: u64) -> Result<Vec<Life>, AllocError>
        ensures { (p : Past) → Lived self p → IfOk result (λ lives. All (IsLife p) lives.items) }
    {
        let Rows {
            now,
            mut lives,
            scanners: _,
        } = self;
        for place in 0..now.len() {
            if let Some((_, life)) = now.get_index(place)
                && life.comes_after(before)
            {
                lives.push(*life)?;
            }
        }
        Ok(lives)
    }
}
