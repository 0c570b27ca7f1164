// What stands in the lanes of seats, guards, indexes and the clock, and the bars that ended there.
ghost use Rattle.std.specs.Prelude.{◌≡◌, false, All, IfOk, OnOk};
ghost use Rattle.wfe_draw_lives.specs.Scenes.{HasNoRow, OfNoRow, is_row};

use crate::bar::{Bar, Lane, Moment, Says, Shade, lane_of};
use indexmap::IndexMap;
use std::alloc::{AllocError, Global};
use wfe_defs::{Answer, Call, Event};

/// What stands after the entries so far, and the bars that ended in the part that is drawn. Of what
/// ended before that part nothing is kept.
#[derive(Drop)]
pub struct Standing {
    now: IndexMap<u64, Bar>,
    bars: Vec<Bar>,
}

impl Standing {
    /// No entry came. The clock stands at its first era.
    pub fn new(alloc: Global) -> Result<Standing, AllocError>
        ensures { IfOk result HasNoRow }
    {
        let mut now = IndexMap::new(alloc);
        let clock = Bar::still(Shade::Era, Lane::Clock);
        now.insert(
            Lane::Clock.place(),
            Bar {
                says: Says::Eras { lo: 1, hi: 1 },
                ..clock
            },
        )?;
        Ok(Standing {
            now,
            bars: Vec::new(alloc),
        })
    }

    // What stands in a lane ends.
    fn end(&mut self, lane: Lane, at: Moment, is_drawn: bool) -> Result<(), AllocError>
        ensures { HasNoRow self.old → OnOk result (HasNoRow self.new) }
    {
        let Some(bar) = self.now.swap_remove(&lane.place()) else {
            return Ok(());
        };
        if is_drawn {
            self.bars.push(Bar {
                to: Some(at),
                ..bar
            })?;
        }
        Ok(())
    }

    // The bar begins, in place of what stands in its lane.
    fn begin(&mut self, bar: Bar, at: Moment, is_drawn: bool) -> Result<(), AllocError>
        ensures { OfNoRow bar → HasNoRow self.old → OnOk result (HasNoRow self.new) }
    {
        self.end(bar.lane, at, is_drawn)?;
        let bar = Bar {
            from: Some(at),
            ..bar
        };
        self.now.insert(bar.lane.place(), bar)?;
        Ok(())
    }

    // A guard publishes something, or nothing.
    fn publish(
        &mut self,
        lane: Lane,
        says: Says,
        at: Moment,
        is_drawn: bool,
    ) -> Result<(), AllocError>
        ensures { is_row lane ≡ false → HasNoRow self.old → OnOk result (HasNoRow self.new) }
    {
        if let Says::Nothing = says {
            return self.end(lane, at, is_drawn);
        }
        let bar = Bar {
            says,
            ..Bar::still(Shade::Publishes, lane)
        };
        self.begin(bar, at, is_drawn)
    }

    // A bar that takes no time, where it is drawn.
    fn push(
        &mut self,
        shade: Shade,
        lane: Lane,
        at: Moment,
        is_drawn: bool,
    ) -> Result<(), AllocError>
        ensures { is_row lane ≡ false → HasNoRow self.old → OnOk result (HasNoRow self.new) }
    {
        if is_drawn {
            self.bars.push(Bar {
                from: Some(at),
                to: Some(at),
                ..Bar::still(shade, lane)
            })?;
        }
        Ok(())
    }

    // The call in the lane has an answer.
    fn answer(&mut self, lane: Lane, answer: Answer)
        ensures { HasNoRow self.old → HasNoRow self.new }
    {
        if let Some(bar) = self.now.get_mut(&lane.place())
            && let Says::Call { call, .. } = bar.says
        {
            bar.says = Says::Call {
                call,
                answer: Some(answer),
            };
        }
    }

    // A call ends.
    fn end_call(
        &mut self,
        seat: u32,
        answer: Answer,
        at: Moment,
        is_drawn: bool,
    ) -> Result<(), AllocError>
        ensures { HasNoRow self.old → OnOk result (HasNoRow self.new) }
    {
        let lane = Lane::Seat { seat };
        self.answer(lane, answer);
        self.end(lane, at, is_drawn)
    }

    // A call begins.
    fn begin_call(
        &mut self,
        seat: u32,
        call: Call,
        at: Moment,
        is_drawn: bool,
    ) -> Result<(), AllocError>
        ensures { HasNoRow self.old → OnOk result (HasNoRow self.new) }
    {
        let bar = Bar {
            says: Says::Call { call, answer: None },
            ..Bar::still(Shade::Call, Lane::Seat { seat })
        };
        self.begin(bar, at, is_drawn)
    }

    // The clock moves.
    fn move_clock(&mut self, era: u32, at: Moment, is_drawn: bool) -> Result<(), AllocError>
        ensures { HasNoRow self.old → OnOk result (HasNoRow self.new) }
    {
        self.push(Shade::Move, Lane::Clock, at, is_drawn)?;
        let bar = Bar {
            says: Says::Eras { lo: era, hi: era },
            ..Bar::still(Shade::Era, Lane::Clock)
        };
        self.begin(bar, at, is_drawn)
    }

    // A row stands at an index.
    fn stand(&mut self, lane: Lane, slot: u32, at: Moment, is_drawn: bool) -> Result<(), AllocError>
        ensures { is_row lane ≡ false → HasNoRow self.old → OnOk result (HasNoRow self.new) }
    {
        let bar = Bar {
            says: Says::Row { slot },
            ..Bar::still(Shade::Stands, lane)
        };
        self.begin(bar, at, is_drawn)
    }

    // Notes an entry that tells of a guard.
    fn note_guard(&mut self, at: Moment, event: &Event, is_drawn: bool) -> Result<(), AllocError>
        ensures { HasNoRow self.old → OnOk result (HasNoRow self.new) }
    {
        match *event {
            Event::Reserve { guard, span } => {
                let says = match span {
                    Some(span) => Says::Eras {
                        lo: span.lo,
                        hi: span.hi,
                    },
                    None => Says::Nothing,
                };
                self.publish(lane_of(guard), says, at, is_drawn)
            }
            Event::Hazard { guard, slot } => {
                let says = match slot {
                    Some(slot) => Says::Row { slot },
                    None => Says::Nothing,
                };
                self.publish(lane_of(guard), says, at, is_drawn)
            }
            Event::Read { guard, .. } | Event::Saw { guard, .. } => {
                self.push(Shade::Reads, lane_of(guard), at, is_drawn)
            }
            _ => Ok(()),
        }
    }

    /// Notes the next entry, of a seat, which is drawn or not.
    pub fn note(
        &mut self,
        at: Moment,
        seat: u32,
        event: &Event,
        is_drawn: bool,
    ) -> Result<(), AllocError>
        ensures { HasNoRow self.old → OnOk result (HasNoRow self.new) }
    {
        match *event {
            Event::Begin { call } => self.begin_call(seat, call, at, is_drawn),
            Event::End { answer, .. } => self.end_call(seat, answer, at, is_drawn),
            Event::Era { era } => self.move_clock(era, at, is_drawn),
            Event::Held { index, slot, .. } | Event::Copied { index, slot, .. } => {
                self.stand(Lane::Index { seat, index }, slot, at, is_drawn)
            }
            Event::Clear { index, .. } => self.end(Lane::Index { seat, index }, at, is_drawn),
            _ => self.note_guard(at, event, is_drawn),
        }
    }

    /// All bars. What stands has no end.
    pub fn close(self) -> Result<Vec<Bar>, AllocError>
        ensures { HasNoRow self → IfOk result (λ bars. All OfNoRow bars.items) }
    {
        let Standing { now, mut bars } = self;
        for place in 0..now.len() {
            if let Some((_, bar)) = now.get_index(place) {
                bars.push(*bar)?;
            }
        }
        Ok(bars)
    }
}
