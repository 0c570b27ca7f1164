// Where bars lie: a column for each entry, from left to right, and a lane for each seat, guard, index and
// row that comes, from top to bottom. All lengths are in pixels.
ghost use Rattle.std.specs.Prelude.{◌≡◌, ◌≤◌, ◌+◌, ◌<◌, IfOk, IfSome, IsTrue};
ghost use Rattle.wfe_draw_lives.specs.Scenes.{is_part};
ghost use Rattle.wfe_draw_page.specs.Within.{IsGrid, IsWithin, Spans, column_of, is_row_part, width_of};

use crate::undrawn::Undrawn;
use indexmap::IndexMap;
use std::alloc::{AllocError, Global};
use wfe_draw_lives::{Bar, Lane, MOST_COLUMNS, Moment, Says, Shade};

// Lanes that a picture has at most.
const MOST_LANES: usize = 10_000;
// The first column, and the first lane.
const LEFT: u32 = 96;

const TOP: u32 = 32;
// From one column to the next, and from one lane to the next.
const COLUMN: u32 = 12;

const LANE: u32 = 22;

const BAR: u32 = 18;
// Before lanes of another kind.
const GAP: u32 = 8;

const EDGE: u32 = 12;
// The legend's end.
const LEGEND: u32 = 560;

/// The columns and lanes of a picture.
#[derive(Drop)]
pub struct Grid {
    pub columns: u32,
    pub before: u64,
    pub height: u32,
    lanes: IndexMap<u64, Lane>,
}

/// Where a bar lies.
#[derive(Clone, Copy)]
pub struct Frame {
    pub x: u32,
    pub y: u32,
    pub width: u32,
    pub height: u32,
}

// The lanes of the bars, in order. What is only read or only keeps has none.
fn lanes_of(alloc: Global, bars: &[Bar]) -> Result<IndexMap<u64, Lane>, AllocError> {
    let mut lanes = IndexMap::new(alloc);
    for bar in bars {
        if !matches!(bar.shade, Shade::Ground | Shade::Reads | Shade::Keeps) {
            lanes.insert(bar.lane.place(), bar.lane)?;
        }
    }
    lanes.sort_keys()?;
    Ok(lanes)
}

impl Grid {
    /// The lanes of the bars, and so many columns, of which there is one at least.
    pub fn new(alloc: Global, bars: &[Bar], before: u64, columns: u32) -> Result<Grid, Undrawn>
        ensures grid { IfOk result (λ grid. IsGrid grid) }
        ensures before { IfOk result (λ grid. grid.before ≡ before) }
    {
        let lanes = lanes_of(alloc, bars)?;
        let count = lanes.len();
        if count > MOST_LANES {
            return Err(Undrawn::TooManyLanes);
        }
        Ok(Grid {
            columns: columns.clamp(1, MOST_COLUMNS),
            before,
            height: TOP + LANE * (count as u32) + 3 * GAP + EDGE,
            lanes,
        })
    }

    /// The picture's width.
    pub fn width(&self) -> u32
        requires { IsGrid self.now }
        ensures { result ≡ width_of self.now }
    {
        (LEFT + COLUMN * self.columns + EDGE).max(LEGEND)
    }

    /// The lanes, in order.
    pub fn lanes(&self) -> &IndexMap<u64, Lane> {
        &self.lanes
    }

    // The column of a moment; the first one of what was there before, and for none the one given.
    fn column(&self, moment: &Option<Moment>, none: u32) -> u32
        requires { none ≤ self.now.columns }
        ensures is { result ≡ column_of self.now.before self.now.columns none moment.now }
        ensures within { result ≤ self.now.columns }
    {
        match moment {
            Some(moment) => {
                let place = moment.number.saturating_sub(self.before).saturating_sub(1);
                place.min(self.columns as u64) as u32
            }
            None => none,
        }
    }

    // The column at which a bar ends. A call takes the column of its end.
    fn end_of(&self, bar: &Bar) -> u32
        requires { IsGrid self.now }
        ensures is { IsTrue (is_part bar.now.shade) → result ≡ column_of self.now.before self.now.columns self.now.columns bar.now.to }
        ensures within { result ≤ self.now.columns }
    {
        let end = self.column(&bar.to, self.columns);
        match bar.shade {
            Shade::Call => (end + 1).min(self.columns),
            _ => end,
        }
    }

    // The top of a lane that there is.
    fn top_of(&self, lane: Lane) -> Option<u32>
        requires { IsGrid self.now }
        ensures { IfSome result (λ y. y + BAR + EDGE ≤ self.now.height) }
    {
        let place = self.lanes.get_index_of(&lane.place())?;
        Some(TOP + LANE * (place as u32) + GAP * lane.gaps())
    }

    // The line from the guard that a scan has read to the row that is kept.
    fn kept(&self, x: u32, y: u32, bar: &Bar) -> Option<Frame>
        requires grid { IsGrid self.now }
        requires across { x + EDGE ≤ width_of self.now }
        requires down { y ≤ self.now.height }
        ensures { IfSome result (λ frame. IsWithin (width_of self.now) self.now.height frame) }
    {
        let Says::Guard { guard } = bar.says else {
            return None;
        };
        let top = self.top_of(guard)? + BAR;
        Some(Frame {
            x: x + COLUMN / 2,
            y: top,
            width: 2,
            height: y.saturating_sub(top),
        })
    }

    // Where a bar of a lane lies, where it is seen.
    fn in_lane(&self, bar: &Bar, y: u32) -> Option<Frame>
        requires grid { IsGrid self.now }
        requires down { y + BAR + EDGE ≤ self.now.height }
        ensures within { IfSome result (λ frame. IsWithin (width_of self.now) self.now.height frame) }
        ensures spans { IsTrue (is_part bar.now.shade) → IfSome result (λ frame. Spans self.now.before self.now.columns bar.now frame) }
    {
        let from = self.column(&bar.from, 0);
        let to = self.end_of(bar);
        let x = LEFT + COLUMN * from;
        match bar.shade {
            Shade::Name => Some(Frame {
                x: EDGE / 2,
                y,
                width: LEFT - EDGE,
                height: BAR,
            }),
            Shade::Move => Some(Frame {
                x,
                y,
                width: 1,
                height: self.height - EDGE - y,
            }),
            Shade::Reads => Some(Frame {
                x: x + COLUMN / 2 - 1,
                y,
                width: 3,
                height: BAR,
            }),
            Shade::Keeps => self.kept(x, y, bar),
            _ if from < to => Some(Frame {
                x,
                y,
                width: COLUMN * (to - from),
                height: BAR,
            }),
            _ => None,
        }
    }

    // Where the legend has a colour: its first pixel, and its width.
    fn legend(shade: Shade) -> (u32, u32)
        ensures { result.0 + result.1 ≤ 446 }
    {
        match shade {
            Shade::Call => (0, 32),
            Shade::Publishes => (36, 62),
            Shade::Reads => (102, 68),
            Shade::Stands => (174, 44),
            Shade::InHand => (222, 50),
            Shade::Linked => (276, 44),
            Shade::Cut => (324, 26),
            Shade::Waits => (354, 38),
            Shade::Keeps => (396, 50),
            _ => (0, 0),
        }
    }

    /// Where a bar lies, where it is seen.
    pub fn frame(&self, bar: &Bar) -> Option<Frame>
        requires { IsGrid self.now }
        ensures within { IfSome result (λ frame. IsWithin (width_of self.now) self.now.height frame) }
        ensures spans { IsTrue (is_row_part bar.now) → IfSome result (λ frame. Spans self.now.before self.now.columns bar.now frame) }
    {
        match (bar.lane, bar.shade) {
            (Lane::Page, Shade::Ground) => Some(Frame {
                x: 0,
                y: 0,
                width: self.width(),
                height: self.height,
            }),
            (Lane::Page, shade) => {
                let (x, width) = Grid::legend(shade);
                Some(Frame {
                    x: LEFT + x,
                    y: 6,
                    width,
                    height: BAR,
                })
            }
            (lane, _) => self.in_lane(bar, self.top_of(lane)?),
        }
    }
}
