// What is drawn: bars, each in a lane.
ghost use Rattle.std.specs.Prelude.{◌≡◌, ◌≤◌, false};
ghost use Rattle.wfe_draw_lives.specs.Scenes.{is_row};

use wfe_defs::{Answer, Call, Guard};

/// Where an entry of a record is: its number and its line, both from 1.
#[derive(Clone, Copy)]
pub struct Moment {
    pub number: u64,
    pub line: u64,
}

/// What has a lane of the picture to itself.
#[derive(Clone, Copy)]
pub enum Lane {
    /// No lane: the background, and the legend.
    Page,
    /// The eras.
    Clock,
    /// The calls of a seat.
    Seat { seat: u32 },
    /// What a guard publishes: a helper word, an index word, or an interval word.
    Helper { seat: u32 },
    Word { seat: u32, index: u32 },
    Whole { seat: u32 },
    /// What stands at an index.
    Index { seat: u32, index: u32 },
    /// The lives of a row.
    Row { slot: u32 },
}

/// What a bar shows, and so its colour.
#[derive(Clone, Copy)]
pub enum Shade {
    /// The whole picture's background.
    Ground,
    /// The name of a lane.
    Name,
    Era,
    /// The clock moves: a line across all lanes.
    Move,
    Call,
    Publishes,
    /// A scan reads a guard.
    Reads,
    Stands,
    InHand,
    Linked,
    Cut,
    Waits,
    /// A scan's reading that keeps a row: a line from the guard to the row.
    Keeps,
}

/// What a bar says besides its colour.
#[derive(Clone, Copy)]
pub enum Says {
    Nothing,
    Eras { lo: u32, hi: u32 },
    Row { slot: u32 },
    /// A call, and its answer once it has ended.
    Call { call: Call, answer: Option<Answer> },
    /// What this guard's lane shows.
    Guard { guard: Lane },
}

/// A bar, from one moment to another. One that begins with no moment was there from the start of the
/// record, and one that ends with none to the end of what is drawn.
#[derive(Clone, Copy)]
pub struct Bar {
    pub shade: Shade,
    pub lane: Lane,
    pub says: Says,
    pub from: Option<Moment>,
    pub to: Option<Moment>,
}

/// The lane of a guard.
pub fn lane_of(guard: Guard) -> Lane
    ensures { is_row result ≡ false }
{
    match guard {
        Guard::Helper { seat } => Lane::Helper { seat },
        Guard::Index { seat, index } => Lane::Word { seat, index },
        Guard::Whole { seat } => Lane::Whole { seat },
    }
}

impl Lane {
    /// Its place among all lanes that any record may have, from the top: a record has 64 seats and
    /// 8 indexes of each at most.
    pub fn place(self) -> u64 {
        match self {
            Lane::Page => 0,
            Lane::Clock => 1,
            Lane::Seat { seat } => 10 + seat as u64,
            Lane::Helper { seat } => 100 + seat as u64,
            Lane::Word { seat, index } => 200 + 8 * (seat as u64) + index as u64,
            Lane::Whole { seat } => 800 + seat as u64,
            Lane::Index { seat, index } => 1_000 + 8 * (seat as u64) + index as u64,
            Lane::Row { slot } => 2_000 + slot as u64,
        }
    }

    /// How many kinds of lanes lie above it, with a gap below each.
    pub fn gaps(self) -> u32
        ensures { result ≤ 3 }
    {
        match self {
            Lane::Page | Lane::Clock | Lane::Seat { .. } => 0,
            Lane::Helper { .. } | Lane::Word { .. } | Lane::Whole { .. } => 1,
            Lane::Index { .. } => 2,
            Lane::Row { .. } => 3,
        }
    }
}

impl Bar {
    /// A bar without moments.
    pub fn still(shade: Shade, lane: Lane) -> Bar
        ensures shade { result.shade ≡ shade }
        ensures lane { result.lane ≡ lane }
    {
        Bar {
            shade,
            lane,
            says: Says::Nothing,
            from: None,
            to: None,
        }
    }
}
