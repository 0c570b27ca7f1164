// The steps of a call that its machine makes, under one scheme.
ghost use Rattle.std.specs.Prelude.{◌≡◌, true};
ghost use Rattle.wfe_core.specs.Calls.{Idle};
ghost use Rattle.wfe_core.specs.DeskHeld.{HasRoom};
ghost use Rattle.wfe_core.specs.Locals.{stays};
ghost use Rattle.wfe_core.specs.Steps.{first_phase};
ghost use Rattle.wfe_drive_words.specs.Called.{Here, Makes, at_phase};
ghost use Rattle.wfe_drive_words.specs.Ran.{Answered};
ghost use Rattle.wfe_drive_machines.specs.Others.{is_at_index, is_other, is_unchanged};

use wfe_bucketmap::{
    Advance, CopyIndex, DropIndex, Get, Hold, Look, Put, PutIf, Release, Remove, Scheme,
};
use wfe_core::{Answer, Call, CallMachine, Desk, Post};
use wfe_drive_words::{Words, drive_on};
use wfe_msqueue::{Dequeue, Enqueue};
use wfe_scan::Scan;

/// Makes the steps of a call that has begun, under the table's scheme. Each kind of call has a loop of
/// its own, so that none of its steps asks which call it is of.
pub fn drive_under<W: Words, S: Scheme>(
    words: &mut W,
    post: &mut Post,
    desk: &mut Desk,
    call: Call,
) -> Answer
    requires valid { W.valid words.old }
    requires scheme { post.old.layout.config.scheme ≡ S.kind }
    requires here { Here (W.at words.old) (at_phase (first_phase call post.old) post.old desk.old) }
    requires stays { stays call ≡ true }
    requires room { HasRoom desk.old post.old.layout }
    ensures valid { W.valid words.new }
    ensures same { W.same words.old words.new }
    ensures room { HasRoom desk.new post.new.layout }
    ensures made { Makes (λ ops l m. Answered l ops result m) (W.at words.old) (W.at words.new)
        (W.stands words.old) (W.stands words.new)
        (at_phase (first_phase call post.old) post.old desk.old) (at_phase Idle post.new desk.new) }
{
    match call {
        Call::Put { key, value } => drive(words, Put::<S>::new(key, value), post, desk, call),
        Call::Remove { key } => drive(words, Remove::<S>::new(key), post, desk, call),
        Call::PutIf {
            key,
            value,
            version,
        } => drive(
            words,
            PutIf::<S>::new(key, value, version),
            post,
            desk,
            call,
        ),
        _ => drive_unchanged::<W, S>(words, post, desk, call),
    }
}

// The same of a call that changes no bucket.
#[inline(always)]
fn drive_unchanged<W: Words, S: Scheme>(
    words: &mut W,
    post: &mut Post,
    desk: &mut Desk,
    call: Call,
) -> Answer
    requires valid { W.valid words.old }
    requires scheme { post.old.layout.config.scheme ≡ S.kind }
    requires here { Here (W.at words.old) (at_phase (first_phase call post.old) post.old desk.old) }
    requires keeps { is_unchanged call ≡ true }
    requires stays { stays call ≡ true }
    requires room { HasRoom desk.old post.old.layout }
    ensures valid { W.valid words.new }
    ensures same { W.same words.old words.new }
    ensures room { HasRoom desk.new post.new.layout }
    ensures made { Makes (λ ops l m. Answered l ops result m) (W.at words.old) (W.at words.new)
        (W.stands words.old) (W.stands words.new)
        (at_phase (first_phase call post.old) post.old desk.old) (at_phase Idle post.new desk.new) }
{
    match call {
        Call::Get { key } => drive(words, Get::<S>::new(key), post, desk, call),
        Call::Enqueue { value } => drive(words, Enqueue::<S>::new(value), post, desk, call),
        Call::Dequeue => drive(words, Dequeue::<S>::new(), post, desk, call),
        _ => drive_other::<W, S>(words, post, desk, call),
    }
}

// The same of a call that is none of these.
#[inline(always)]
fn drive_other<W: Words, S: Scheme>(
    words: &mut W,
    post: &mut Post,
    desk: &mut Desk,
    call: Call,
) -> Answer
    requires valid { W.valid words.old }
    requires scheme { post.old.layout.config.scheme ≡ S.kind }
    requires here { Here (W.at words.old) (at_phase (first_phase call post.old) post.old desk.old) }
    requires other { is_other call ≡ true }
    requires stays { stays call ≡ true }
    requires room { HasRoom desk.old post.old.layout }
    ensures valid { W.valid words.new }
    ensures same { W.same words.old words.new }
    ensures room { HasRoom desk.new post.new.layout }
    ensures made { Makes (λ ops l m. Answered l ops result m) (W.at words.old) (W.at words.new)
        (W.stands words.old) (W.stands words.new)
        (at_phase (first_phase call post.old) post.old desk.old) (at_phase Idle post.new desk.new) }
{
    match call {
        Call::Hold { key } => drive(words, Hold::<S>::new(key), post, desk, call),
        Call::Release => drive(words, Release::<S>::new(), post, desk, call),
        Call::Advance => drive(words, Advance::<S>::new(), post, desk, call),
        Call::Scan => {
            let layout = post.layout;
            drive(words, Scan::new(layout), post, desk, call)
        }
        _ => drive_at_index::<W, S>(words, post, desk, call),
    }
}

// The same of a call on a row that an index protects, and that stays protected.
#[inline(always)]
fn drive_at_index<W: Words, S: Scheme>(
    words: &mut W,
    post: &mut Post,
    desk: &mut Desk,
    call: Call,
) -> Answer
    requires valid { W.valid words.old }
    requires scheme { post.old.layout.config.scheme ≡ S.kind }
    requires here { Here (W.at words.old) (at_phase (first_phase call post.old) post.old desk.old) }
    requires named { is_at_index call ≡ true }
    requires room { HasRoom desk.old post.old.layout }
    ensures valid { W.valid words.new }
    ensures same { W.same words.old words.new }
    ensures room { HasRoom desk.new post.new.layout }
    ensures made { Makes (λ ops l m. Answered l ops result m) (W.at words.old) (W.at words.new)
        (W.stands words.old) (W.stands words.new)
        (at_phase (first_phase call post.old) post.old desk.old) (at_phase Idle post.new desk.new) }
{
    match call {
        Call::Copy { from, index } => {
            drive(words, CopyIndex::<S>::new(from, index), post, desk, call)
        }
        Call::DropIndex { index } => drive(words, DropIndex::<S>::new(index), post, desk, call),
        Call::Look { index, key } => drive(words, Look::<S>::new(index, key), post, desk, call),
        _ => unreachable!(),
    }
}

/// Makes the steps of a call from its machine's first, until it answers.
#[inline(always)]
fn drive<W: Words, M: CallMachine>(
    words: &mut W,
    machine: M,
    post: &mut Post,
    desk: &mut Desk,
    _call: Call,
) -> Answer
    requires valid { W.valid words.old }
    requires first { M.phase machine post.old ≡ first_phase _call post.old }
    requires here { Here (W.at words.old) (at_phase (first_phase _call post.old) post.old desk.old) }
    requires suits { M.suits post.old.layout.config.scheme }
    requires room { HasRoom desk.old post.old.layout }
    ensures valid { W.valid words.new }
    ensures same { W.same words.old words.new }
    ensures room { HasRoom desk.new post.new.layout }
    ensures made { Makes (λ ops l m. Answered l ops result m) (W.at words.old) (W.at words.new)
        (W.stands words.old) (W.stands words.new)
        (at_phase (first_phase _call post.old) post.old desk.old) (at_phase Idle post.new desk.new) }
{
    drive_on(words, machine, post, desk)
}
