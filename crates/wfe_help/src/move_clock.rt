// The steps of a move of the clock.
ghost use Rattle.std.specs.Prelude.{◌≡◌, ◌<◌, ◌≤◌, [], ◌∷◌, length};
ghost use Rattle.wfe_core.specs.defs.declared.event.Event.TheVariants as events;
ghost use Rattle.wfe_core.specs.defs.declared.event.Guard.TheVariants as guards;
ghost use Rattle.wfe_core.specs.Guards.{one_era as era_span};
ghost use Rattle.wfe_core.specs.Machine.{after};
ghost use Rattle.wfe_core.specs.MoveClock.{next_request as request_after, met as met_at, moving};
ghost use Rattle.wfe_core.specs.Phases.{Goes};
ghost use Rattle.wfe_core.specs.Phases.Base.{Move};
ghost use Rattle.wfe_core.specs.Phases.MoveAt.{LoadEra};
ghost use Rattle.wfe_core.specs.Posts.{reserves_helper};
ghost use Rattle.wfe_core.specs.Ready.{AskedFits, IsReady, Plausible};
ghost use Rattle.wfe_core.specs.Valid.{IsValid};
ghost use Rattle.wfe_core.specs.words.Packed.{read_request as request_in};
ghost use Rattle.wfe_help.specs.Phases.{at_of, help_of, move_phase};

use crate::help_at::{Asked, HelpAt, asking_word, help_op};
use wfe_core::{
    ClockMove, Event, Guard, Machine, Op, Post, Request, Reservation, Told, one_era, read_request,
    read_reservation, reservation_word, root_at,
};

// The step to come.
#[derive(Clone, Copy)]
pub enum At {
    LoadEra { helps: bool },
    LoadRequest { era: u32, seat: u32, shows: bool },
    ShowEra { era: u32, asked: Asked },
    Help { era: u32, asked: Asked, at: HelpAt },
    HideEra { era: u32 },
    HideLate { seen: u32 },
    ExchangeClock { era: u32 },
}

/// Tries once to move the clock by one era, from the era that it loads before it looks at any request.
/// It takes at most `7 * seats + 3` steps where it helps, and two otherwise.
#[derive(Drop)]
pub struct MoveClock {
    at: At,
}

impl MoveClock {
    /// A move that answers pending requests first where it `helps`, as under Wait-Free Eras.
    pub fn new(helps: bool) -> MoveClock
        ensures { move_phase result ≡ Move (LoadEra helps) }
    {
        MoveClock {
            at: At::LoadEra { helps },
        }
    }
}

// A step for a request, under an era.
fn helping(era: u32, asked: Asked, at: HelpAt) -> At
    ensures { at_of result ≡ help_of era asked at }
{
    At::Help { era, asked, at }
}

// The step after a seat's request: the next seat's, or the end of the round.
fn next_request(post: &Post, era: u32, seat: u32, shows: bool) -> At
    requires valid { IsValid post.now }
    requires seat { seat < post.now.layout.config.seats }
    ensures { at_of result ≡ request_after post.now era seat shows }
{
    if seat + 1 < post.layout.config().seats {
        At::LoadRequest {
            era,
            seat: seat + 1,
            shows,
        }
    } else if shows {
        At::HideEra { era }
    } else {
        At::ExchangeClock { era }
    }
}

// The step after a seat's request word was loaded.
fn met(post: &Post, era: u32, seat: u32, shows: bool, found: u64) -> At
    requires valid { IsValid post.now }
    requires seat { seat < post.now.layout.config.seats }
    requires asked { AskedFits post.now (request_in found) }
    ensures { at_of result ≡ met_at post.now era seat shows (request_in found) }
{
    match read_request(found) {
        Some(Request::Pending { tag, index, word }) => {
            let asked = Asked {
                seat,
                tag,
                index,
                root: root_at(post.layout, word),
            };
            if shows {
                helping(era, asked, HelpAt::LoadAsked)
            } else {
                At::ShowEra { era, asked }
            }
        }
        _ => next_request(post, era, seat, shows),
    }
}

// The step after the clock was loaded.
fn after_clock(helps: bool, era: u32) -> At
    ensures { at_of result ≡ moving helps era }
{
    if helps {
        At::LoadRequest {
            era,
            seat: 0,
            shows: false,
        }
    } else {
        At::ExchangeClock { era }
    }
}

/// Tells what the seat's helper word publishes: an era, or nothing for 0.
pub fn tell_helper(post: &Post, told: &mut Told, era: u32)
    requires { told.old ≡ [] }
    ensures { told.new ≡ reserves_helper post.now era }
{
    told.push(Event::Reserve {
        guard: Guard::Helper { seat: post.seat },
        span: one_era(era),
    });
}

// Tells the hand-over of a request's index word.
fn tell_handed(told: &mut Told, era: u32, asked: Asked)
    requires { told.old ≡ [] }
    ensures { told.new ≡ events.Reserve (guards.Index asked.seat asked.index) (era_span era) ∷ [] }
{
    told.push(Event::Reserve {
        guard: Guard::Index {
            seat: asked.seat,
            index: asked.index,
        },
        span: one_era(era),
    });
}

// The step after one for a request.
fn help(post: &Post, found: u64, told: &mut Told, era: u32, asked: Asked, at: HelpAt) -> At
    requires valid { IsValid post.now }
    requires ready { IsReady (Move (help_of era asked at)) post.now }
    requires plausible { Plausible (Move (help_of era asked at)) post.now found }
    requires empty { told.old ≡ [] }
    ensures post { (after (Move (help_of era asked at)) post.now found).post ≡ post.now }
    ensures told { told.new ≡ (after (Move (help_of era asked at)) post.now found).told }
    ensures few { length told.new ≤ 1 }
    ensures outcome { (after (Move (help_of era asked at)) post.now found).outcome ≡ Goes (Move (at_of result)) }
{
    match at {
        HelpAt::LoadAsked => helping(era, asked, HelpAt::CheckEra { link: found as u32 }),
        HelpAt::CheckEra { link } => {
            if found != era as u64 {
                return At::HideLate { seen: found as u32 };
            }
            helping(era, asked, HelpAt::AnswerAsked { link })
        }
        HelpAt::AnswerAsked { link } => {
            if found != asking_word(post, asked.tag, asked.index, asked.root) {
                return next_request(post, era, asked.seat, true);
            }
            helping(era, asked, HelpAt::LoadReserved { link })
        }
        HelpAt::LoadReserved { link } => {
            let reserved = read_reservation(found);
            if reserved.tag != asked.tag {
                return next_request(post, era, asked.seat, true);
            }
            let old = reserved.era;
            helping(era, asked, HelpAt::HandOver { link, old })
        }
        HelpAt::HandOver { old, .. } => {
            if found
                == reservation_word(Reservation {
                    era: old,
                    tag: asked.tag,
                })
            {
                tell_handed(told, era, asked);
            }
            next_request(post, era, asked.seat, true)
        }
    }
}

impl Machine for MoveClock {
    ghost use Rattle.wfe_core.specs.Phases.Ending.{Clocked};
    ghost use Rattle.wfe_help.specs.Phases.{move_phase};

    type End = ClockMove;

    ghost phase = { move_phase };

    ghost ending = { λ clock. Clocked clock };

    fn next_op(&self, post: &Post) -> Op {
        match self.at {
            At::LoadEra { .. } => Op::Load {
                word: post.layout.clock(),
            },
            At::LoadRequest { seat, .. } => Op::Load {
                word: post.layout.request(seat),
            },
            At::ShowEra { era, .. } => Op::Store {
                word: post.layout.helper(post.seat),
                value: reservation_word(Reservation { era, tag: 0 }),
            },
            At::Help { era, asked, at } => help_op(post, era, asked, at),
            At::HideEra { .. } | At::HideLate { .. } => Op::Store {
                word: post.layout.helper(post.seat),
                value: 0,
            },
            At::ExchangeClock { era } => Op::Cas {
                word: post.layout.clock(),
                old: era as u64,
                new: era as u64 + 1,
            },
        }
    }

    fn take(&mut self, post: &mut Post, found: u64, told: &mut Told) -> Option<ClockMove> {
        match self.at {
            At::LoadEra { helps } => {
                let era = found as u32;
                if era == post.layout.config().last_era {
                    return Some(ClockMove::EraSpent { era });
                }
                self.at = after_clock(helps, era);
            }
            At::LoadRequest { era, seat, shows } => self.at = met(post, era, seat, shows, found),
            At::ShowEra { era, asked } => {
                tell_helper(post, told, era);
                self.at = helping(era, asked, HelpAt::LoadAsked);
            }
            At::Help { era, asked, at } => self.at = help(post, found, told, era, asked, at),
            At::HideEra { era } => {
                tell_helper(post, told, 0);
                self.at = At::ExchangeClock { era };
            }
            At::HideLate { seen } => {
                tell_helper(post, told, 0);
                return Some(ClockMove::Other { seen });
            }
            At::ExchangeClock { era } => {
                if found == era as u64 {
                    told.push(Event::Era { era: era + 1 });
                    return Some(ClockMove::Moved { era: era + 1 });
                }
                return Some(ClockMove::Other { seen: found as u32 });
            }
        }
        None
    }
}
