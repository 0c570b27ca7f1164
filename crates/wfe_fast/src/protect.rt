// The steps of a protection under Wait-Free Eras.
ghost use Rattle.std.specs.Prelude.{◌≡◌, ◌+◌, ◌<◌, ◌≤◌, [], length, true};
ghost use Rattle.wfe_core.specs.words.Packed.{read_request as request_in};
ghost use Rattle.wfe_core.specs.words.Place.{is_valid};
ghost use Rattle.wfe_core.specs.Links.{link_number, root_at as root_of};
ghost use Rattle.wfe_core.specs.Machine.{protect_turn};
ghost use Rattle.wfe_core.specs.Phases.{Alone, Failed, Goes};
ghost use Rattle.wfe_core.specs.Phases.Base.{Protect};
ghost use Rattle.wfe_core.specs.Phases.ProtectAt.{LoadClock, PublishEra, PublishHelper, PublishRequest};
ghost use Rattle.wfe_core.specs.Posts.{reserves_index, tag_of};
ghost use Rattle.wfe_core.specs.Protect.{trying};
ghost use Rattle.wfe_core.specs.Ready.{IndexFits, IsReady, LinkFits, Plausible, RootFits};
ghost use Rattle.wfe_core.specs.SlowPath.{after_take_answer, answer_in, lost_turn};
ghost use Rattle.wfe_core.specs.Valid.{IsValid};
ghost use Rattle.wfe_fast.specs.Phases.{at_of, protect_phase, turn_of};

use crate::own_turn::{OwnTurn, TurnAt, asking_own, turn_op};
use wfe_core::{
    Event, Guard, Machine, Op, Post, ProtectEnd, Request, Reservation, Root, Told, hold,
    index_word, link_word_number, one_era, protect_end, read_request, reservation_word, root_at,
};
use wfe_help::tell_helper;

// The step to come.
#[derive(Clone, Copy)]
pub enum At {
    LoadClock,
    PublishEra { era: u32, failed: u32 },
    LoadLink { era: u32, failed: u32 },
    CheckClock { era: u32, failed: u32, link: u32 },
    PublishRequest,
    LoadOwnClock,
    Turn(OwnTurn),
    LoadAnswer { first: u32 },
    TakeAnswer { link: u32, era: u32 },
    WithdrawRequest { link: u32, era: u32 },
    WithdrawHelper { link: u32, era: u32 },
}

/// Protects the row to which a link leads, at an index of the seat, as Wait-Free Eras do: it tries as
/// often as the setting says, and then publishes a request, makes two turns under its helper word, and
/// takes the answer, its own or that of a seat that moves the clock.
#[derive(Drop)]
pub struct WfeProtect {
    index: u32,
    root: Root,
    steps: u64,
    at: At,
}

impl WfeProtect {
    /// A protection of the link in this word, which is a root or the next link of a row that stands.
    pub fn new(post: &Post, index: u32, word: u32) -> WfeProtect
        requires layout { is_valid post.now.layout ≡ true }
        requires there { RootFits post.now.layout (root_of post.now.layout word) }
        requires number { link_number post.now.layout (root_of post.now.layout word) ≡ word }
        ensures { protect_phase result ≡ Protect Alone index (root_of post.now.layout word) 0 (LoadClock (Failed 0)) }
    {
        WfeProtect {
            index,
            root: root_at(post.layout, word),
            steps: 0,
            at: At::LoadClock,
        }
    }

    /// A protection that has made so many steps and used up its tries: it asks for help next.
    pub fn asking(index: u32, root: Root, steps: u64) -> WfeProtect
        ensures { protect_phase result ≡ Protect Alone index root steps PublishRequest }
    {
        WfeProtect {
            index,
            root,
            steps,
            at: At::PublishRequest,
        }
    }

    // Tells that the index word publishes an era.
    fn tell_index(&self, post: &Post, told: &mut Told, era: u32)
        requires { told.old ≡ [] }
        ensures { told.new ≡ reserves_index post.now self.now.index era }
    {
        told.push(Event::Reserve {
            guard: Guard::Index {
                seat: post.seat,
                index: self.index,
            },
            span: one_era(era),
        });
    }

    // The step after one of a turn.
    fn take_turn(&self, post: &Post, found: u64, told: &mut Told, turn: OwnTurn) -> At
        requires valid { IsValid post.now }
        requires ready { IsReady (Protect Alone self.now.index self.now.root self.now.steps (turn_of turn)) post.now }
        requires plausible { Plausible (Protect Alone self.now.index self.now.root self.now.steps (turn_of turn)) post.now found }
        requires empty { told.old ≡ [] }
        ensures post { (protect_turn Alone self.now.index self.now.root self.now.steps (turn_of turn) post.now found).post ≡ post.now }
        ensures told { told.new ≡ (protect_turn Alone self.now.index self.now.root self.now.steps (turn_of turn) post.now found).told }
        ensures few { length told.new ≤ 1 }
        ensures outcome { (protect_turn Alone self.now.index self.now.root self.now.steps (turn_of turn) post.now found).outcome
            ≡ Goes (Protect Alone self.now.index self.now.root self.now.steps (at_of result)) }
    {
        match turn.at {
            TurnAt::PublishHelper => {
                tell_helper(post, told, turn.era);
                turning(turn, TurnAt::LoadOwnLink)
            }
            TurnAt::LoadOwnLink => turning(turn, TurnAt::CheckOwnClock { link: found as u32 }),
            TurnAt::CheckOwnClock { link } => {
                if found != turn.era as u64 {
                    return lost(turn.first, turn.last, found as u32);
                }
                turning(turn, TurnAt::AnswerOwn { link })
            }
            TurnAt::AnswerOwn { link } => {
                if found != asking_own(post, self.index, self.root) {
                    return answered(found);
                }
                let era = turn.era;
                At::TakeAnswer { link, era }
            }
        }
    }

    // Takes the answer into the index word, whose tag rises: the row stands there from now on.
    fn take_answer(&self, post: &mut Post, told: &mut Told, link: u32, era: u32)
        requires valid { IsValid post.old }
        requires index { IndexFits post.old self.now.index }
        requires link { LinkFits post.old link }
        requires tag { tag_of post.old self.now.index + 1 < 4294967295 }
        requires empty { told.old ≡ [] }
        ensures valid { IsValid post.new }
        ensures layout { post.new.layout ≡ post.old.layout }
        ensures seat { post.new.seat ≡ post.old.seat }
        ensures steps { post.new.steps ≡ post.old.steps }
        ensures post { post.new ≡ (after_take_answer Alone self.now.index self.now.root self.now.steps link era post.old).post }
        ensures told { told.new ≡ (after_take_answer Alone self.now.index self.now.root self.now.steps link era post.old).told }
        ensures few { length told.new ≤ 2 }
    {
        post.tags[self.index as usize] += 1;
        self.tell_index(post, told, era);
        hold(post, told, self.index, self.root, link, self.steps);
    }
}

// The step after the clock was loaded and this many tries have failed.
fn publish(era: u32, failed: u32) -> At
    ensures { at_of result ≡ PublishEra era (Failed failed) }
{
    At::PublishEra { era, failed }
}

// The step after an era was published: a try, or the request once the tries are used up.
fn published(post: &Post, era: u32, failed: u32) -> At
    ensures { at_of result ≡ trying post.now.layout.config era (Failed failed) }
{
    if post.layout.config().tries <= failed {
        return At::PublishRequest;
    }
    At::LoadLink { era, failed }
}

// The same turn at another step.
fn turning(turn: OwnTurn, at: TurnAt) -> At
    ensures { at_of result ≡ turn_of (record { first = turn.first; era = turn.era; last = turn.last; at = at }) }
{
    let OwnTurn {
        first,
        era,
        last,
        ..
    } = turn;
    At::Turn(OwnTurn {
        first,
        era,
        last,
        at,
    })
}

// A turn begins under an era.
fn begin_turn(first: u32, era: u32, last: bool) -> At
    ensures { at_of result ≡ PublishHelper first era last }
{
    let at = TurnAt::PublishHelper;
    At::Turn(OwnTurn {
        first,
        era,
        last,
        at,
    })
}

// The step after the answer in the own request word was found.
fn answered(found: u64) -> At
    ensures { at_of result ≡ answer_in (request_in found) }
{
    match read_request(found) {
        Some(Request::Answered { link, era }) => At::TakeAnswer { link, era },
        _ => At::TakeAnswer { link: 0, era: 0 },
    }
}

// The step after a turn of its own was lost to a move of the clock.
fn lost(first: u32, last: bool, found: u32) -> At
    ensures { at_of result ≡ lost_turn first last found }
{
    if last {
        return At::LoadAnswer { first };
    }
    begin_turn(first, found, true)
}

impl Machine for WfeProtect {
    ghost use Rattle.wfe_core.specs.Phases.Ending.{Protected};
    ghost use Rattle.wfe_fast.specs.Phases.{protect_phase};

    type End = ProtectEnd;

    ghost phase = { protect_phase };

    ghost ending = { λ e. Protected e };

    fn next_op(&self, post: &Post) -> Op {
        match self.at {
            At::LoadClock | At::CheckClock { .. } | At::LoadOwnClock => Op::Load {
                word: post.layout.clock(),
            },
            At::PublishEra { era, .. } => Op::Store {
                word: post.layout.index(post.seat, self.index),
                value: index_word(post, self.index, era),
            },
            At::LoadLink { .. } => Op::Load {
                word: link_word_number(post.layout, self.root),
            },
            At::PublishRequest => Op::Store {
                word: post.layout.request(post.seat),
                value: asking_own(post, self.index, self.root),
            },
            At::Turn(turn) => turn_op(post, self.index, self.root, turn),
            At::LoadAnswer { .. } => Op::Load {
                word: post.layout.request(post.seat),
            },
            At::TakeAnswer { era, .. } => Op::Store {
                word: post.layout.index(post.seat, self.index),
                value: reservation_word(Reservation {
                    era,
                    tag: post.tags[self.index as usize] + 1,
                }),
            },
            At::WithdrawRequest { .. } => Op::Store {
                word: post.layout.request(post.seat),
                value: 0,
            },
            At::WithdrawHelper { .. } => Op::Store {
                word: post.layout.helper(post.seat),
                value: 0,
            },
        }
    }

    fn take(&mut self, post: &mut Post, found: u64, told: &mut Told) -> Option<ProtectEnd> {
        self.steps = self.steps.saturating_add(1);
        match self.at {
            At::LoadClock => self.at = publish(found as u32, 0),
            At::PublishEra { era, failed } => {
                self.tell_index(post, told, era);
                self.at = published(post, era, failed);
            }
            At::LoadLink { era, failed } => {
                let link = found as u32;
                self.at = At::CheckClock { era, failed, link };
            }
            At::CheckClock { era, failed, link } => {
                if found == era as u64 {
                    hold(post, told, self.index, self.root, link, self.steps);
                    return Some(protect_end(post, link, era));
                }
                self.at = publish(found as u32, failed + 1);
            }
            At::PublishRequest => self.at = At::LoadOwnClock,
            At::LoadOwnClock => self.at = begin_turn(found as u32, found as u32, false),
            At::Turn(turn) => self.at = self.take_turn(post, found, told, turn),
            At::LoadAnswer { .. } => self.at = answered(found),
            At::TakeAnswer { link, era } => {
                self.take_answer(post, told, link, era);
                self.at = At::WithdrawRequest { link, era };
            }
            At::WithdrawRequest { link, era } => self.at = At::WithdrawHelper { link, era },
            At::WithdrawHelper { link, era } => {
                tell_helper(post, told, 0);
                return Some(protect_end(post, link, era));
            }
        }
        None
    }
}
