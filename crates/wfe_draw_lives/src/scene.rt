// The entries of a record so far, as they are to be drawn.
ghost use Rattle.std.specs.Prelude.{◌≡◌, ◌+◌, IfOk, OnOk};
ghost use Rattle.model_record.specs.Record.{Past};
ghost use Rattle.model_record.specs.Record.Past.{Start, Then};
ghost use Rattle.wfe_draw_lives.specs.Lives.{count_in};
ghost use Rattle.wfe_draw_lives.specs.Scenes.{Draws, Shows};

use crate::bar::{Bar, Moment};
use crate::life::push_life;
use crate::rows::Rows;
use crate::standing::Standing;
use std::alloc::{AllocError, Global};
use wfe_defs::Event;

/// Entries that are drawn at most.
pub const MOST_COLUMNS: u32 = 2_000;

/// What stands after the entries so far, and what of them is drawn.
#[derive(Drop)]
pub struct Scene {
    standing: Standing,
    rows: Rows,
    before: u64,
    columns: u32,
}

/// What is to be drawn.
#[derive(Drop)]
pub struct Picture {
    pub bars: Vec<Bar>,
    /// How many entries there are before those that are drawn, and how many of these.
    pub before: u64,
    pub columns: u32,
}

impl Scene {
    /// No entry came.
    pub fn new(alloc: Global) -> Result<Scene, AllocError>
        ensures { IfOk result (λ scene. Shows scene Start) }
    {
        Ok(Scene {
            standing: Standing::new(alloc)?,
            rows: Rows::new(alloc),
            before: u64::MAX,
            columns: 0,
        })
    }

    /// The entry that comes next, whose number this is, is drawn. It answers whether there is room for
    /// it.
    pub fn enter(&mut self, number: u64) -> bool
        ensures { (p : Past) → Shows self.old p → Shows self.new p }
    {
        if self.columns >= MOST_COLUMNS {
            return false;
        }
        if self.columns == 0 {
            self.before = number.saturating_sub(1);
        }
        self.columns += 1;
        true
    }

    /// Notes the next entry.
    pub fn note(&mut self, at: Moment, seat: u32, event: &Event) -> Result<(), AllocError>
        ensures { (p : Past) → Shows self.old p → at.number ≡ count_in p + 1 → OnOk result (Shows self.new (Then p seat event.now)) }
    {
        let is_drawn = self.columns > 0;
        self.standing.note(at, seat, event, is_drawn)?;
        self.rows.note(at, seat, event, is_drawn)
    }

    /// No more entries come. The bars of rows are those of their lives: each begins where its row was
    /// given, and ends where it was freed, or lasts to the end.
    pub fn close(self) -> Result<Picture, AllocError>
        ensures { (p : Past) → Shows self p → IfOk result (λ picture. Draws p picture.bars.items) }
    {
        let Scene {
            standing,
            rows,
            before,
            columns,
        } = self;
        let mut bars = standing.close()?;
        let lives = rows.close(before)?;
        for life in &lives {
            push_life(&mut bars, life)?;
        }
        Ok(Picture {
            bars,
            before,
            columns,
        })
    }
}
