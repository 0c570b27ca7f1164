// The steps of a reader's own turn: it shows an era in its helper word, loads the link and the clock, and
// answers its own request.
ghost use Rattle.std.specs.Prelude.{◌≡◌};
ghost use Rattle.wfe_core.specs.Machine.{op_of};
ghost use Rattle.wfe_core.specs.Phases.{Alone};
ghost use Rattle.wfe_core.specs.Phases.Base.{Protect};
ghost use Rattle.wfe_core.specs.Ready.{IndexFits, IsReady, RootFits};
ghost use Rattle.wfe_core.specs.SlowPath.{own_request};
ghost use Rattle.wfe_core.specs.Valid.{IsValid};
ghost use Rattle.wfe_fast.specs.Phases.{turn_of};

use wfe_core::{
    Op, Post, Request, Reservation, Root, link_word_number, request_word, reservation_word,
};
use wfe_help::asking_word;

// The step to come of a turn.
#[derive(Clone, Copy)]
pub enum TurnAt {
    PublishHelper,
    LoadOwnLink,
    CheckOwnClock { link: u32 },
    AnswerOwn { link: u32 },
}

// A turn: the clock that was loaded before the first one, the turn's own era, and whether it is the last.
#[derive(Clone, Copy)]
pub struct OwnTurn {
    pub first: u32,
    pub era: u32,
    pub last: bool,
    pub at: TurnAt,
}

// The seat's own request, while it is pending.
pub fn asking_own(post: &Post, index: u32, root: Root) -> u64
    requires valid { IsValid post.now }
    requires index { IndexFits post.now index }
    requires root { RootFits post.now.layout root }
    ensures { result ≡ own_request post.now index root }
{
    asking_word(post, post.tags[index as usize], index, root)
}

// What a step of a turn does.
pub fn turn_op(post: &Post, index: u32, root: Root, turn: OwnTurn) -> Op
    requires valid { IsValid post.now }
    requires ready { IsReady (Protect Alone index root 0 (turn_of turn)) post.now }
    ensures { result ≡ op_of (Protect Alone index root 0 (turn_of turn)) post.now }
{
    match turn.at {
        TurnAt::PublishHelper => Op::Store {
            word: post.layout.helper(post.seat),
            value: reservation_word(Reservation {
                era: turn.era,
                tag: 0,
            }),
        },
        TurnAt::LoadOwnLink => Op::Load {
            word: link_word_number(post.layout, root),
        },
        TurnAt::CheckOwnClock { .. } => Op::Load {
            word: post.layout.clock(),
        },
        TurnAt::AnswerOwn { link } => Op::Cas {
            word: post.layout.request(post.seat),
            old: asking_own(post, index, root),
            new: request_word(Request::Answered {
                link,
                era: turn.era,
            }),
        },
    }
}
