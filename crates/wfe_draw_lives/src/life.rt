// The lives of rows.
ghost use Rattle.std.specs.Prelude.{◌≡◌, None, IfOk, OnOk, IsTrue};
ghost use Rattle.model_record.specs.Record.{Past};
ghost use Rattle.wfe_draw_lives.specs.Lives.{IsLife};
ghost use Rattle.wfe_draw_lives.specs.Scenes.{Adds, AddsLine, Draws, is_part};

use crate::bar::{Bar, Lane, Moment, Says, Shade, lane_of};
use std::alloc::AllocError;
use wfe_defs::{Event, Lifetime, meets};

/// A life of a row: the moments at which it was given, linked, cut and retired, the reading of a scan
/// by which it was kept last, and the moment at which it went back.
#[derive(Clone, Copy)]
pub struct Life {
    pub slot: u32,
    /// None for a row that was linked before any entry.
    pub given: Option<Moment>,
    pub linked: Option<Moment>,
    pub cut: Option<Moment>,
    pub retired: Option<Moment>,
    /// Who retired it, and its eras.
    pub by: u32,
    pub birth: u32,
    pub retire: u32,
    pub kept: Option<Moment>,
    /// The guard of that reading.
    pub keeper: Lane,
    /// None for a row that is not free again at the end.
    pub back: Option<Moment>,
    /// Whether it stands, or stood in the part that is drawn.
    pub stood: bool,
}

impl Life {
    /// A row that was linked before any entry.
    pub fn old(slot: u32) -> Life
        ensures slot { result.slot ≡ slot }
        ensures given { result.given ≡ None }
        ensures back { result.back ≡ None }
    {
        Life {
            slot,
            given: None,
            linked: None,
            cut: None,
            retired: None,
            by: 0,
            birth: 0,
            retire: 0,
            kept: None,
            keeper: Lane::Page,
            back: None,
            stood: false,
        }
    }

    /// Notes what an entry tells of the row, but for its end.
    pub fn note(&mut self, at: Moment, seat: u32, event: &Event)
        ensures slot { self.new.slot ≡ self.old.slot }
        ensures given { self.new.given ≡ self.old.given }
        ensures back { self.new.back ≡ self.old.back }
    {
        match *event {
            Event::Link { .. } => self.linked = Some(at),
            Event::Cut { .. } => self.cut = Some(at),
            Event::Retire { birth, retire, .. } => {
                self.retired = Some(at);
                self.by = seat;
                self.birth = birth;
                self.retire = retire;
            }
            Event::Held { .. } | Event::Copied { .. } => self.stood = true,
            _ => {}
        }
    }

    // Its eras.
    fn eras(&self) -> Lifetime {
        Lifetime {
            slot: self.slot,
            birth: self.birth,
            retire: self.retire,
        }
    }

    /// The guard, where what a scan read of it keeps the row.
    pub fn keeper_in(&self, event: &Event) -> Option<Lane> {
        match *event {
            Event::Read {
                guard,
                span: Some(span),
            } if meets(self.eras(), span) => Some(lane_of(guard)),
            Event::Saw {
                guard,
                slot: Some(slot),
            } if slot == self.slot => Some(lane_of(guard)),
            _ => None,
        }
    }

    /// Whether it is more than a row that was linked before so many entries ended, and stays so.
    pub fn comes_after(&self, before: u64) -> bool {
        let is_new = match self.linked {
            Some(linked) => linked.number > before,
            None => self.given.is_some(),
        };
        is_new || self.cut.is_some() || self.retired.is_some() || self.stood
    }
}

// Appends the bar of one part of a life, where the life has it, and answers when the part before it
// ends.
fn push_part(
    bars: &mut Vec<Bar>,
    slot: u32,
    shade: Shade,
    from: Option<Moment>,
    to: Option<Moment>,
) -> Result<Option<Moment>, AllocError>
    requires { IsTrue (is_part shade) }
    ensures { IfOk result (λ begins. Adds slot to begins bars.old.items bars.new.items) }
{
    if from.is_none() {
        return Ok(to);
    }
    bars.push(Bar {
        shade,
        lane: Lane::Row { slot },
        says: Says::Nothing,
        from,
        to,
    })?;
    Ok(from)
}

// Appends the bar of the first part of a life. A row that no entry gave or linked was linked before.
fn push_first(bars: &mut Vec<Bar>, life: &Life, to: Option<Moment>) -> Result<(), AllocError>
    ensures { OnOk result (Adds life.now.slot to life.now.given bars.old.items bars.new.items) }
{
    let shade = match (life.given, life.linked) {
        (None, None) => Shade::Linked,
        _ => Shade::InHand,
    };
    bars.push(Bar {
        shade,
        lane: Lane::Row { slot: life.slot },
        says: Says::Nothing,
        from: life.given,
        to,
    })?;
    Ok(())
}

// Appends the bars of the parts of a life, from the last to the first.
fn push_parts(bars: &mut Vec<Bar>, life: &Life) -> Result<(), AllocError>
    ensures { OnOk result (Adds life.now.slot life.now.back life.now.given bars.old.items bars.new.items) }
{
    let slot = life.slot;
    let waits = push_part(bars, slot, Shade::Waits, life.retired, life.back)?;
    let cut = push_part(bars, slot, Shade::Cut, life.cut, waits)?;
    let linked = push_part(bars, slot, Shade::Linked, life.linked, cut)?;
    push_first(bars, life, linked)
}

// Appends the line to the guard that kept the row last, where one did.
fn push_line(bars: &mut Vec<Bar>, life: &Life) -> Result<(), AllocError>
    ensures { OnOk result (AddsLine bars.old.items bars.new.items) }
{
    if life.kept.is_some() {
        bars.push(Bar {
            shade: Shade::Keeps,
            lane: Lane::Row { slot: life.slot },
            says: Says::Guard { guard: life.keeper },
            from: life.kept,
            to: life.kept,
        })?;
    }
    Ok(())
}

/// Appends the bars of a life: of its parts, and of what kept it.
pub fn push_life(bars: &mut Vec<Bar>, life: &Life) -> Result<(), AllocError>
    ensures { (p : Past) → IsLife p life.now → Draws p bars.old.items → OnOk result (Draws p bars.new.items) }
{
    push_parts(bars, life)?;
    push_line(bars, life)
}
