// The steps that answer a request: they load its link and the clock, answer it, and hand the helper's
// reservation over to the reader.
ghost use Rattle.std.specs.Prelude.{◌≡◌, ◌<◌};
ghost use Rattle.wfe_core.specs.Machine.{op_of};
ghost use Rattle.wfe_core.specs.Phases.Base.{Move};
ghost use Rattle.wfe_core.specs.Ready.{IsReady, RootFits};
ghost use Rattle.wfe_core.specs.SlowPath.{asking};
ghost use Rattle.wfe_core.specs.Valid.{IsValid};
ghost use Rattle.wfe_help.specs.Phases.{help_of};

use wfe_core::{
    Op, Post, Request, Reservation, Root, link_word_number, request_word, reservation_word,
};

// A request that was seen pending: whose it is, its tag and index, and the link that it asks for.
#[derive(Clone, Copy)]
pub struct Asked {
    pub seat: u32,
    pub tag: u32,
    pub index: u32,
    pub root: Root,
}

// The step to come for a request.
#[derive(Clone, Copy)]
pub enum HelpAt {
    LoadAsked,
    CheckEra { link: u32 },
    AnswerAsked { link: u32 },
    LoadReserved { link: u32 },
    HandOver { link: u32, old: u32 },
}

/// A seat's request word while its request for a link, at an index and under the index's tag, is
/// pending.
pub fn asking_word(post: &Post, tag: u32, index: u32, root: Root) -> u64
    requires valid { IsValid post.now }
    requires tag { tag < 4294967295 }
    requires index { index < post.now.layout.config.indexes }
    requires root { RootFits post.now.layout root }
    ensures { result ≡ asking post.now.layout tag index root }
{
    request_word(Request::Pending {
        tag,
        index,
        word: link_word_number(post.layout, root),
    })
}

// What a step for a request does under an era.
pub fn help_op(post: &Post, era: u32, asked: Asked, at: HelpAt) -> Op
    requires valid { IsValid post.now }
    requires ready { IsReady (Move (help_of era asked at)) post.now }
    ensures { result ≡ op_of (Move (help_of era asked at)) post.now }
{
    match at {
        HelpAt::LoadAsked => Op::Load {
            word: link_word_number(post.layout, asked.root),
        },
        HelpAt::CheckEra { .. } => Op::Load {
            word: post.layout.clock(),
        },
        HelpAt::AnswerAsked { link } => Op::Cas {
            word: post.layout.request(asked.seat),
            old: asking_word(post, asked.tag, asked.index, asked.root),
            new: request_word(Request::Answered { link, era }),
        },
        HelpAt::LoadReserved { .. } => Op::Load {
            word: post.layout.index(asked.seat, asked.index),
        },
        HelpAt::HandOver { old, .. } => Op::Cas {
            word: post.layout.index(asked.seat, asked.index),
            old: reservation_word(Reservation {
                era: old,
                tag: asked.tag,
            }),
            new: reservation_word(Reservation {
                era,
                tag: asked.tag + 1,
            }),
        },
    }
}
