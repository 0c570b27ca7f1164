// The steps of a call, one operation after another, from its beginning to its answer.
ghost use Rattle.std.specs.Prelude.{◌≡◌, ◌<◌, false, true};
ghost use Rattle.laws.specs.AnswerLaw.{suits};
ghost use Rattle.wfe_core.specs.Calls.{Changes, Idle};
ghost use Rattle.wfe_core.specs.DeskHeld.{HasRoom};
ghost use Rattle.wfe_core.specs.Frames.{SamePlace};
ghost use Rattle.wfe_core.specs.Locals.{may_begin, stays};
ghost use Rattle.wfe_core.specs.Rounds.{round};
ghost use Rattle.wfe_core.specs.Steps.{first_phase};
ghost use Rattle.wfe_core.specs.Valid.{IsValid};
ghost use Rattle.wfe_core.specs.words.declared.config.SchemeKind.TheVariants.{Ibr as IbrKind};
ghost use Rattle.wfe_core.specs.defs.declared.call.Call.TheVariants.{Dequeue as DequeueOf, Enqueue as EnqueueOf};
ghost use Rattle.wfe_drive_runs.specs.drive_words.Called.{Called, Here, Makes, at_phase};
ghost use Rattle.wfe_drive_runs.specs.drive_words.Path.{Closes};
ghost use Rattle.wfe_drive_runs.specs.drive_words.Ran.{Answered};
ghost use Rattle.wfe_drive_runs.specs.Pieces.{IsFree};
ghost use Rattle.wfe_drive_call.specs.Changing.{first_kept};

use crate::alone::Alone;
use crate::change::change_bucket;
use crate::dequeue::dequeue_item;
use crate::enqueue::enqueue_item;
use wfe_core::{Answer, Call, Change, Desk, Post, SchemeKind};
use wfe_drive_machines::{He, Hp, Ibr, Scheme, Wfe, drive_under};
use wfe_drive_runs::Words;

/// Makes a whole call of the seat of this post and desk on its words, and answers as the call does.
/// No call of the seat may be under way, and the call must be one that may begin: it names indexes in
/// range, and the seat neither leaves by it nor takes over what another has left. Each operation is the
/// one that the call's state asks for, and the answer is one that the call may have. It takes no memory, and every call ends.
#[inline(always)]
pub fn drive_call<W: Words>(words: &mut W, post: &mut Post, desk: &mut Desk, call: Call) -> Answer
    requires valid { W.valid words.old }
    requires here { Here (W.at words.old) (at_phase Idle post.old desk.old) }
    requires room { HasRoom desk.old post.old.layout }
    requires may { may_begin post.old.layout.config call ≡ true }
    requires stays { stays call ≡ true }
    ensures valid { W.valid words.new }
    ensures same { W.same words.old words.new }
    ensures here { Here (W.at words.new) (at_phase Idle post.new desk.new) }
    ensures room { HasRoom desk.new post.new.layout }
    ensures place { SamePlace post.old post.new }
    ensures suits { suits call result ≡ true }
    ensures called { Called call result (W.at words.old) (W.at words.new)
        (W.stands words.old) (W.stands words.new)
        (at_phase Idle post.old desk.old) (at_phase Idle post.new desk.new) }
{
    words.start(call);
    post.steps = 0;
    desk.notes.clear();
    drive_begun(words, post, desk, call)
}

/// Makes the steps of a call that has begun, under the table's scheme.
#[inline(always)]
fn drive_begun<W: Words>(words: &mut W, post: &mut Post, desk: &mut Desk, call: Call) -> Answer
    requires valid { W.valid words.old }
    requires here { Here (W.at words.old) (at_phase (first_phase call post.old) post.old desk.old) }
    requires stays { stays call ≡ true }
    requires room { HasRoom desk.old post.old.layout }
    ensures valid { W.valid words.new }
    ensures same { W.same words.old words.new }
    ensures room { HasRoom desk.new post.new.layout }
    ensures made { Makes (λ ops l m. Answered l ops result m) (W.at words.old) (W.at words.new)
        (W.stands words.old) (W.stands words.new)
        (at_phase (first_phase call post.old) post.old desk.old) (at_phase Idle post.new desk.new) }
{
    match post.layout.config().scheme {
        SchemeKind::He => drive_free::<W, He>(words, post, desk, call),
        SchemeKind::Ibr => drive_ibr(words, post, desk, call),
        SchemeKind::Wfe => drive_free::<W, Wfe>(words, post, desk, call),
        SchemeKind::Hp => drive_free::<W, Hp>(words, post, desk, call),
    }
}

/// Makes a call that has code of its own as `drive_call` does. All of that code is compiled into the caller, so that neither
/// the call nor its answer goes through memory.
#[inline(always)]
pub fn drive_alone<W: Words, C: Alone>(
    words: &mut W,
    post: &mut Post,
    desk: &mut Desk,
    made: C,
) -> Answer
    requires valid { W.valid words.old }
    requires here { Here (W.at words.old) (at_phase Idle post.old desk.old) }
    requires room { HasRoom desk.old post.old.layout }
    ensures valid { W.valid words.new }
    ensures same { W.same words.old words.new }
    ensures here { Here (W.at words.new) (at_phase Idle post.new desk.new) }
    ensures room { HasRoom desk.new post.new.layout }
    ensures place { SamePlace post.old post.new }
    ensures suits { suits (C.named made) result ≡ true }
    ensures called { Called (C.named made) result (W.at words.old) (W.at words.new)
        (W.stands words.old) (W.stands words.new)
        (at_phase Idle post.old desk.old) (at_phase Idle post.new desk.new) }
{
    words.start(made.call());
    post.steps = 0;
    desk.notes.clear();
    alone_begun(words, post, desk, made)
}

/// Makes the steps of such a call that has begun: by its machine where under 2GE the seat keeps a row.
#[inline(always)]
fn alone_begun<W: Words, C: Alone>(
    words: &mut W,
    post: &mut Post,
    desk: &mut Desk,
    made: C,
) -> Answer
    requires valid { W.valid words.old }
    requires here { Here (W.at words.old) (at_phase (first_phase (C.named made) post.old) post.old desk.old) }
    requires room { HasRoom desk.old post.old.layout }
    ensures valid { W.valid words.new }
    ensures same { W.same words.old words.new }
    ensures room { HasRoom desk.new post.new.layout }
    ensures made { Makes (λ ops l m. Answered l ops result m) (W.at words.old) (W.at words.new)
        (W.stands words.old) (W.stands words.new)
        (at_phase (first_phase (C.named made) post.old) post.old desk.old) (at_phase Idle post.new desk.new) }
{
    if keeps_row(post) {
        return drive_under::<W, Ibr>(words, post, desk, made.call());
    }
    made.make(words, post, desk)
}

// Whether the scheme is 2GE, and the seat keeps a row.
#[inline(always)]
fn keeps_row(post: &Post) -> bool
    requires { IsValid post.now }
    ensures kept { result ≡ true → post.now.layout.config.scheme ≡ IbrKind }
    ensures free { result ≡ false → IsFree post.now }
{
    match post.layout.config().scheme {
        SchemeKind::Ibr => match Ibr::finish(post) {
            Some(_) => false,
            None => true,
        },
        _ => false,
    }
}

/// Makes the steps of a call that has begun under 2GE, as the seat keeps a row or none: the interval would
/// end now.
#[inline(always)]
fn drive_ibr<W: Words>(words: &mut W, post: &mut Post, desk: &mut Desk, call: Call) -> Answer
    requires valid { W.valid words.old }
    requires scheme { post.old.layout.config.scheme ≡ IbrKind }
    requires here { Here (W.at words.old) (at_phase (first_phase call post.old) post.old desk.old) }
    requires stays { stays call ≡ true }
    requires room { HasRoom desk.old post.old.layout }
    ensures valid { W.valid words.new }
    ensures same { W.same words.old words.new }
    ensures room { HasRoom desk.new post.new.layout }
    ensures made { Makes (λ ops l m. Answered l ops result m) (W.at words.old) (W.at words.new)
        (W.stands words.old) (W.stands words.new)
        (at_phase (first_phase call post.old) post.old desk.old) (at_phase Idle post.new desk.new) }
{
    match Ibr::finish(post) {
        Some(_) => drive_free::<W, Ibr>(words, post, desk, call),
        None => drive_under::<W, Ibr>(words, post, desk, call),
    }
}

/// Makes the steps of a call that has begun, of a seat that under 2GE keeps no row. A put, a put that names
/// a version, a remove, an enqueue and a dequeue make them without a machine; a get does so in `drive_get`,
/// under Wait-Free Eras up to its request for help.
#[inline(always)]
fn drive_free<W: Words, S: Scheme>(
    words: &mut W,
    post: &mut Post,
    desk: &mut Desk,
    call: Call,
) -> Answer
    requires valid { W.valid words.old }
    requires scheme { post.old.layout.config.scheme ≡ S.kind }
    requires free { IsFree post.old }
    requires here { Here (W.at words.old) (at_phase (first_phase call post.old) post.old desk.old) }
    requires stays { stays call ≡ true }
    requires room { HasRoom desk.old post.old.layout }
    ensures valid { W.valid words.new }
    ensures same { W.same words.old words.new }
    ensures room { HasRoom desk.new post.new.layout }
    ensures made { Makes (λ ops l m. Answered l ops result m) (W.at words.old) (W.at words.new)
        (W.stands words.old) (W.stands words.new)
        (at_phase (first_phase call post.old) post.old desk.old) (at_phase Idle post.new desk.new) }
{
    match call {
        Call::Put { key, value } => {
            change_apart(words, post, desk, Change::Put { key, value }, None)
        }
        Call::Remove { key } => change_apart(words, post, desk, Change::Removed { key }, None),
        Call::PutIf {
            key,
            value,
            version,
        } => change_apart(words, post, desk, Change::Put { key, value }, Some(version)),
        Call::Enqueue { value } => enqueue_apart(words, post, desk, value),
        Call::Dequeue => dequeue_apart(words, post, desk),
        _ => drive_under::<W, S>(words, post, desk, call),
    }
}

// A change of a bucket, an enqueue and a dequeue, each compiled once, with its steps in it: then what chooses between them
// stays small enough to be compiled into its callers.

#[inline(never)]
fn change_apart<W: Words>(
    words: &mut W,
    post: &mut Post,
    desk: &mut Desk,
    change: Change,
    wanted: Option<u64>,
) -> Answer
    requires valid { W.valid words.old }
    requires free { IsFree post.old }
    requires here { Here (W.at words.old) (at_phase (round (Changes (first_kept change wanted)) post.old) post.old desk.old) }
    requires room { HasRoom desk.old post.old.layout }
    ensures valid { W.valid words.new }
    ensures same { W.same words.old words.new }
    ensures room { HasRoom desk.new post.new.layout }
    ensures made { Closes result (W.at words.old) (W.at words.new) (W.stands words.old) (W.stands words.new)
        (at_phase (round (Changes (first_kept change wanted)) post.old) post.old desk.old) (at_phase Idle post.new desk.new) }
{
    change_bucket::<W, Call>(words, post, desk, change, wanted)
}

#[inline(never)]
fn enqueue_apart<W: Words>(words: &mut W, post: &mut Post, desk: &mut Desk, value: u64) -> Answer
    requires valid { W.valid words.old }
    requires free { IsFree post.old }
    requires here { Here (W.at words.old) (at_phase (first_phase (EnqueueOf value) post.old) post.old desk.old) }
    requires room { HasRoom desk.old post.old.layout }
    ensures valid { W.valid words.new }
    ensures same { W.same words.old words.new }
    ensures room { HasRoom desk.new post.new.layout }
    ensures made { Closes result (W.at words.old) (W.at words.new) (W.stands words.old) (W.stands words.new)
        (at_phase (first_phase (EnqueueOf value) post.old) post.old desk.old) (at_phase Idle post.new desk.new) }
{
    enqueue_item::<W, Call>(words, post, desk, value)
}

#[inline(never)]
fn dequeue_apart<W: Words>(words: &mut W, post: &mut Post, desk: &mut Desk) -> Answer
    requires valid { W.valid words.old }
    requires free { IsFree post.old }
    requires here { Here (W.at words.old) (at_phase (first_phase DequeueOf post.old) post.old desk.old) }
    requires room { HasRoom desk.old post.old.layout }
    ensures valid { W.valid words.new }
    ensures same { W.same words.old words.new }
    ensures room { HasRoom desk.new post.new.layout }
    ensures made { Closes result (W.at words.old) (W.at words.new) (W.stands words.old) (W.stands words.new)
        (at_phase (first_phase DequeueOf post.old) post.old desk.old) (at_phase Idle post.new desk.new) }
{
    dequeue_item::<W, Call>(words, post, desk)
}
