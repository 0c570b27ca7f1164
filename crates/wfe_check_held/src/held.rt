// Whether each row that stands is held after an entry: taken, and kept by the guard of its index.
ghost use Rattle.std.specs.Prelude.{◌≡◌, ℕ, ◌↔◌, true};
ghost use Rattle.std.specs.List.{list_all};
ghost use Rattle.laws.specs.words.declared.config.Config.{Config as Setting};
ghost use Rattle.laws.specs.defs.Shown.{keeps as keeps_life};
ghost use Rattle.laws.specs.records.Record.{Past};
ghost use Rattle.laws.specs.records.Record.Past.{Then};
ghost use Rattle.laws.specs.Ranges.{EntryIn};
ghost use Rattle.wfe_check_rows.specs.Rows.{IsRows};
ghost use Rattle.wfe_check_rows.specs.Shown.{life_of};
ghost use Rattle.wfe_check_held.specs.Protections.{AllHeld, IsProtections, NoneReused};
ghost use Rattle.wfe_check_held.specs.Shown.{guard_kept as guard_kept_of, held_in, holds as holds_of, index_kept as index_kept_of, life_kept as life_kept_of, life_kept_at as life_at, life_kept_by as life_by, published_in};
ghost use Rattle.laws.specs.HoldLaw.{HeldThroughout, own_guard as guard_of};

use crate::Protections;
use crate::spans::{own_guard, same_guard, seat_of};
use wfe_check_rows::{Rows, is_of_rows, keeps, of_row, of_span};
use wfe_defs::{Event, Guard, Lifetime, Shown};

// What is published keeps the lives of these rows.
fn all_kept(slots: &[u32], rows: &Rows, value: Shown) -> bool
    ensures { result ≡ list_all (λ (slot : ℕ). keeps_life (life_of rows.now slot) value) slots.now }
{
    slots.iter().all(|slot| keeps(rows.life(*slot), value))
}

impl Protections {
    // The guard of an index keeps a life.
    fn keeps_at(&self, life: Lifetime, seat: u32, index: u32) -> bool
        ensures { result ≡ keeps_life life (published_in self.now (guard_of self.now.config.scheme seat index)) }
    {
        keeps(
            life,
            self.published(own_guard(self.config.scheme, seat, index)),
        )
    }

    fn is_held(&self, rows: &Rows, seat: u32, index: u32, slot: u32) -> bool
        ensures { result ≡ held_in self.now rows.now seat index slot }
    {
        rows.is_taken(slot) && self.keeps_at(rows.life(slot), seat, index)
    }

    fn index_kept(&self, rows: &Rows, guard: Guard, value: Shown, index: u32) -> bool
        ensures { result ≡ index_kept_of self.now rows.now guard value index }
    {
        let seat = seat_of(guard);
        !same_guard(own_guard(self.config.scheme, seat, index), guard)
            || all_kept(self.rows(seat, index), rows, value)
    }

    // What a guard publishes from here on keeps all rows at its indexes.
    fn guard_kept(&self, rows: &Rows, guard: Guard, value: Shown) -> bool
        ensures { result ≡ guard_kept_of self.now rows.now guard value }
    {
        let mut all = true;
        for index in 0..self.config.indexes {
            all = self.index_kept(rows, guard, value, index) && all;
        }
        all
    }

    fn life_kept_at(&self, life: Lifetime, seat: u32, index: u32) -> bool
        ensures { result ≡ life_at self.now life seat index }
    {
        !self.stands(seat, index, life.slot) || self.keeps_at(life, seat, index)
    }

    fn life_kept_by(&self, life: Lifetime, seat: u32) -> bool
        ensures { result ≡ life_by self.now life seat }
    {
        let mut all = true;
        for index in 0..self.config.indexes {
            all = self.life_kept_at(life, seat, index) && all;
        }
        all
    }

    // A life is kept at each index at which its row stands.
    fn life_kept(&self, life: Lifetime) -> bool
        ensures { result ≡ life_kept_of self.now life }
    {
        let mut all = true;
        for seat in 0..self.config.seats {
            all = self.life_kept_by(life, seat) && all;
        }
        all
    }

    #[inline(always)]
    fn holds_after(&self, rows: &Rows, seat: u32, event: &Event) -> bool
        ensures { result ≡ holds_of self.now rows.now seat event.now }
    {
        match *event {
            Event::Held { index, slot, .. } | Event::Copied { index, slot, .. } => {
                self.is_held(rows, seat, index, slot)
            }
            Event::Reserve { guard, span } => {
                is_of_rows(self.config.scheme) || self.guard_kept(rows, guard, of_span(span))
            }
            Event::Hazard { guard, slot } => {
                !is_of_rows(self.config.scheme) || self.guard_kept(rows, guard, of_row(slot))
            }
            Event::Retire { slot, retire, .. } => self.life_kept(Lifetime {
                slot,
                birth: rows.birth(slot),
                retire,
            }),
            _ => true,
        }
    }

    /// Whether after an entry each row that stands is held, where each was held before it and the
    /// entry uses no row again that stands. `rows` is what the record says of rows.
    #[inline(always)]
    pub fn holds(&self, rows: &Rows, seat: u32, event: &Event) -> bool
        ensures law { (config : Setting) (p : Past) → IsProtections config self.now p → IsRows config rows.now p → EntryIn config seat event.now
            → HeldThroughout config p → NoneReused p seat event.now → (result ≡ true) ↔ HeldThroughout config (Then p seat event.now) }
        ensures now { (config : Setting) (p : Past) → IsProtections config self.now p → IsRows config rows.now p → EntryIn config seat event.now
            → AllHeld config p → NoneReused p seat event.now → (result ≡ true) ↔ AllHeld config (Then p seat event.now) }
    {
        self.holds_after(rows, seat, event)
    }
}
