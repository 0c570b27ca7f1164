// What the blocks of a seat's call come to: the rounds in which a scan reads all guards.
ghost use Rattle.std.specs.Prelude.{◌≡◌, ◌<◌, ◌+◌, IfOk, OnOk};
ghost use Rattle.laws.specs.EraLaw.{moves_right};
ghost use Rattle.laws.specs.ScanLaw.{blocks_by, blocks_right, begun_block, is_given_one as is_given_row, is_scan_call, is_scanned as is_block_done, may_begin as may_begin_block, no_blocks, retired_block};
ghost use Rattle.wfe_check_calls.specs.Seats.{shown_blocks};
ghost use Rattle.wfe_check_calls.specs.Sought.{seeks_by};

use wfe_check_rows::raised;
use wfe_defs::{Call, Event, NoMemory};

#[derive(Clone, Copy, Drop)]
pub(crate) struct Blocks {
    // The rows that the seat has retired in all its calls.
    pub retired: u64,
    // Whether the call was given a row.
    pub given: bool,
    // The blocks that the call has begun.
    pub begun: u64,
    // Those since the first of its retirements by which a block was due, where there was one.
    pub due: Option<u64>,
    // Those since the last one.
    pub last: u64,
    // The guards that the block has yet to read.
    pub left: u32,
    // The eras that the call has told and that no block after them has taken.
    pub moves: u64,
}

// Whether the call is given a row.
fn is_given_one(call: Option<Call>) -> bool
    ensures { result ≡ is_given_row call }
{
    matches!(
        call,
        Some(Call::Put { .. } | Call::Remove { .. } | Call::PutIf { .. } | Call::Enqueue { .. })
    )
}

fn is_scan(call: Option<Call>) -> bool
    ensures { result ≡ is_scan_call call }
{
    matches!(call, Some(Call::Scan))
}

impl Blocks {
    /// Those of a seat that has told nothing.
    pub fn none() -> Blocks
        ensures { shown_blocks result ≡ no_blocks }
    {
        Blocks {
            retired: 0,
            given: false,
            begun: 0,
            due: None,
            last: 0,
            left: 0,
            moves: 0,
        }
    }

    // A block begins.
    fn begun(self, all: u32) -> Result<Blocks, NoMemory>
        ensures { IfOk result (λ blocks. shown_blocks blocks ≡ begun_block all (shown_blocks self)) }
    {
        let due = match self.due {
            Some(blocks) => Some(raised(blocks)?),
            None => None,
        };
        Ok(Blocks {
            begun: raised(self.begun)?,
            due,
            last: raised(self.last)?,
            left: all.saturating_sub(1),
            moves: self.moves.saturating_sub(1),
            ..self
        })
    }

    // A row is retired.
    fn retired(self, every: u32) -> Result<Blocks, NoMemory>
        requires { 0 < every }
        ensures { IfOk result (λ blocks. shown_blocks blocks ≡ retired_block every (shown_blocks self)) }
    {
        let retired = raised(self.retired)?;
        if retired % u64::from(every) == 0 {
            Ok(Blocks {
                retired,
                due: Some(self.due.unwrap_or(0)),
                last: 0,
                ..self
            })
        } else {
            Ok(Blocks { retired, ..self })
        }
    }

    // After an event of the seat, where there are `all` guards, and a block is due at each `every`
    // retirements. NoMemory: a count has passed the numbers of 64 bits.
    #[inline(always)]
    fn after(self, event: &Event, all: u32, every: u32) -> Result<Blocks, NoMemory>
        requires { 0 < every }
        ensures { IfOk result (λ blocks. shown_blocks blocks ≡ blocks_by all every event.now (shown_blocks self)) }
    {
        match *event {
            Event::Begin { .. } => Ok(Blocks {
                given: false,
                begun: 0,
                due: None,
                last: 0,
                moves: 0,
                ..self
            }),
            Event::Give { .. } => Ok(Blocks {
                given: true,
                ..self
            }),
            Event::Retire { .. } => self.retired(every),
            Event::Era { .. } => Ok(Blocks {
                moves: raised(self.moves)?,
                ..self
            }),
            Event::Read { .. } | Event::Saw { .. } => {
                if self.left == 0 {
                    self.begun(all)
                } else {
                    Ok(Blocks {
                        left: self.left - 1,
                        ..self
                    })
                }
            }
            _ => Ok(self),
        }
    }

    /// Takes an event of the seat: most change nothing, and write nothing.
    #[inline(always)]
    pub fn note(&mut self, event: &Event, all: u32, every: u32) -> Result<(), NoMemory>
        requires { 0 < every }
        ensures { OnOk result (shown_blocks self.new ≡ blocks_by all every event.now (shown_blocks self.old)) }
    {
        match event {
            Event::Begin { .. }
            | Event::Give { .. }
            | Event::Retire { .. }
            | Event::Era { .. }
            | Event::Read { .. }
            | Event::Saw { .. } => {
                *self = self.after(event, all, every)?;
                Ok(())
            }
            _ => Ok(()),
        }
    }

    // Whether a block may begin.
    #[inline(always)]
    fn may_begin(self, call: Option<Call>) -> bool
        ensures { result ≡ may_begin_block call (shown_blocks self) self.due }
    {
        match self.due {
            Some(since) => since == 0 && (!is_scan(call) || self.begun == 0),
            None => self.begun == 0 && (is_scan(call) || (is_given_one(call) && !self.given)),
        }
    }

    // Whether no block is due any more.
    #[inline(always)]
    fn is_scanned(self, call: Option<Call>) -> bool
        ensures { result ≡ is_block_done call (shown_blocks self) }
    {
        (self.due.is_none() || self.last == 1) && (!is_scan(call) || self.begun == 1)
    }

    /// Whether the call's seat may tell the event: a block begins only where it may, and where the call
    /// ends none is due.
    #[inline(always)]
    pub fn fits(self, call: Option<Call>, event: &Event) -> bool
        ensures { result ≡ blocks_right call event.now (shown_blocks self) }
    {
        match event {
            Event::Read { .. } | Event::Saw { .. } => self.left != 0 || self.may_begin(call),
            Event::End { .. } => self.is_scanned(call),
            _ => true,
        }
    }

    /// Whether the call's seat may tell the event: where it tells an era, and where the call ends, each era
    /// that it told before has had a block after it; but for one of an advance, where that ends.
    #[inline(always)]
    pub fn moves_fit(self, call: Option<Call>, event: &Event) -> bool
        ensures { result ≡ moves_right call event.now (shown_blocks self) }
    {
        match event {
            Event::Era { .. } => self.moves == 0,
            Event::End { .. } => match call {
                Some(Call::Advance) => true,
                _ => self.moves == 0,
            },
            _ => true,
        }
    }

    /// Whether the event begins a block that the call needs to find a free row.
    #[inline(always)]
    pub fn seeks_room(self, call: Option<Call>, event: &Event) -> bool
        ensures { result ≡ seeks_by event.now call (shown_blocks self) }
    {
        match event {
            Event::Read { .. } | Event::Saw { .. } => {
                self.left == 0 && self.due.is_none() && is_given_one(call)
            }
            _ => false,
        }
    }
}
