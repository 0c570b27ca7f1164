// Calls that have code of their own, each named by a type: a put, an enqueue and a dequeue.
ghost use Rattle.std.specs.Prelude.{◌≡◌, refl, true};
ghost use Rattle.wfe_core.specs.Calls.{Idle};
ghost use Rattle.wfe_core.specs.DeskHeld.{HasRoom};
ghost use Rattle.wfe_core.specs.Locals.{may_begin, stays};
ghost use Rattle.wfe_core.specs.Steps.{first_phase};
ghost use Rattle.wfe_core.specs.defs.declared.call.Call.{Call as ModelCall};
ghost use Rattle.wfe_core.specs.words.declared.config.Config.{Config as Setting};
ghost use Rattle.wfe_drive_runs.specs.drive_words.Called.{Here, Makes, at_phase};
ghost use Rattle.wfe_drive_runs.specs.drive_words.Ran.{Answered};
ghost use Rattle.wfe_drive_runs.specs.Pieces.{IsFree};

use crate::change::change_bucket;
use crate::dequeue::dequeue_item;
use crate::enqueue::enqueue_item;
use wfe_core::{Answer, Call, Change, Desk, Post};
use wfe_drive_runs::Words;

/// A call that has code of its own, and how its steps are made. It is one of a seat that stays, and may begin in each
/// setting.
pub trait Alone: Copy {
    /// The call.
    ghost named: { Self → ModelCall };

    ghost begins: { (made : Self) (config : Setting) → may_begin config (named made) ≡ true };

    ghost remains: { (made : Self) → stays (named made) ≡ true };

    /// The call as a value.
    fn call(self) -> Call
        ensures { result ≡ named self };

    /// Makes its steps once it has begun, from the first to its answer. Under 2GE its seat keeps no row.
    fn make<W: Words>(self, words: &mut W, post: &mut Post, desk: &mut Desk) -> Answer
        requires valid { W.valid words.old }
        requires free { IsFree post.old }
        requires here { Here (W.at words.old) (at_phase (first_phase (named self) post.old) post.old desk.old) }
        requires room { HasRoom desk.old post.old.layout }
        ensures valid { W.valid words.new }
        ensures same { W.same words.old words.new }
        ensures room { HasRoom desk.new post.new.layout }
        ensures made { Makes (λ ops l m. Answered l ops result m) (W.at words.old) (W.at words.new)
            (W.stands words.old) (W.stands words.new)
            (at_phase (first_phase (named self) post.old) post.old desk.old) (at_phase Idle post.new desk.new) };
}

/// A put of this value at this key.
#[derive(Clone, Copy)]
pub struct PutCall {
    pub key: u64,
    pub value: u64,
}

impl Alone for PutCall {
    ghost use Rattle.wfe_core.specs.defs.declared.call.Call.TheVariants.{Put as PutOf};

    ghost named = { λ made. PutOf made.key made.value };

    ghost begins = { λ made config. refl };

    ghost remains = { λ made. refl };

    #[inline(always)]
    fn call(self) -> Call {
        Call::Put {
            key: self.key,
            value: self.value,
        }
    }

    #[inline(always)]
    fn make<W: Words>(self, words: &mut W, post: &mut Post, desk: &mut Desk) -> Answer {
        let change = Change::Put {
            key: self.key,
            value: self.value,
        };
        change_bucket::<W, PutCall>(words, post, desk, change, None)
    }
}

/// An enqueue of this value.
#[derive(Clone, Copy)]
pub struct EnqueueCall {
    pub value: u64,
}

impl Alone for EnqueueCall {
    ghost use Rattle.wfe_core.specs.defs.declared.call.Call.TheVariants.{Enqueue as EnqueueOf};

    ghost named = { λ made. EnqueueOf made.value };

    ghost begins = { λ made config. refl };

    ghost remains = { λ made. refl };

    #[inline(always)]
    fn call(self) -> Call {
        Call::Enqueue { value: self.value }
    }

    #[inline(always)]
    fn make<W: Words>(self, words: &mut W, post: &mut Post, desk: &mut Desk) -> Answer {
        enqueue_item::<W, EnqueueCall>(words, post, desk, self.value)
    }
}

/// A dequeue.
#[derive(Clone, Copy)]
pub struct DequeueCall;

impl Alone for DequeueCall {
    ghost use Rattle.wfe_core.specs.defs.declared.call.Call.TheVariants.{Dequeue as DequeueOf};

    ghost named = { λ made. DequeueOf };

    ghost begins = { λ made config. refl };

    ghost remains = { λ made. refl };

    #[inline(always)]
    fn call(self) -> Call {
        Call::Dequeue
    }

    #[inline(always)]
    fn make<W: Words>(self, words: &mut W, post: &mut Post, desk: &mut Desk) -> Answer {
        dequeue_item::<W, DequeueCall>(words, post, desk)
    }
}
