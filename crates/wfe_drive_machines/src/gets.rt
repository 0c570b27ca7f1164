// Gets. What a get is made of under one scheme a type names.
ghost use Rattle.std.specs.Prelude.{◌≡◌, ◌<◌, true};
ghost use Rattle.laws.specs.AnswerLaw.{suits};
ghost use Rattle.wfe_core.specs.Calls.{Idle};
ghost use Rattle.wfe_core.specs.DeskHeld.{HasRoom};
ghost use Rattle.wfe_core.specs.Frames.{SamePlace};
ghost use Rattle.wfe_core.specs.Rounds.{bucket_of};
ghost use Rattle.wfe_core.specs.Steps.{first_phase};
ghost use Rattle.wfe_core.specs.defs.declared.call.Call.TheVariants.{Get as GetCall};
ghost use Rattle.wfe_core.specs.words.declared.config.SchemeKind.{SchemeKind as Kind};
ghost use Rattle.wfe_core.specs.words.declared.config.SchemeKind.TheVariants.{Ibr as IbrKind};
ghost use Rattle.wfe_drive_words.specs.Called.{Called, Here, Makes, at_phase};
ghost use Rattle.wfe_drive_words.specs.Ran.{Answered};

use wfe_bucketmap::{Get, He, Hp, Ibr, Scheme, Wfe};
use wfe_core::{Answer, Call, Desk, Post};
use wfe_drive_words::{Words, drive_apart, get_guarded, get_ibr_in};

/// A scheme, and how a get is made under it. Each is named by its type, so that a get under one of them has no code of
/// the others, and stays small.
pub trait GetUnder {
    /// The scheme.
    ghost kind: { Kind };

    /// Makes the steps of a get that has begun, of a key whose bucket is known, from its first step to its answer.
    fn get<W: Words>(
        words: &mut W,
        post: &mut Post,
        desk: &mut Desk,
        key: u64,
        bucket: u32,
    ) -> Answer
        requires valid { W.valid words.old }
        requires scheme { post.old.layout.config.scheme ≡ kind }
        requires here { Here (W.at words.old) (at_phase (first_phase (GetCall key) post.old) post.old desk.old) }
        requires bucket { bucket ≡ bucket_of post.old key }
        requires there { bucket < post.old.layout.config.buckets }
        requires room { HasRoom desk.old post.old.layout }
        ensures valid { W.valid words.new }
        ensures same { W.same words.old words.new }
        ensures room { HasRoom desk.new post.new.layout }
        ensures made { Makes (λ ops l m. Answered l ops result m) (W.at words.old) (W.at words.new)
            (W.stands words.old) (W.stands words.new)
            (at_phase (first_phase (GetCall key) post.old) post.old desk.old) (at_phase Idle post.new desk.new) };
}

impl GetUnder for He {
    ghost use Rattle.wfe_core.specs.words.declared.config.SchemeKind.TheVariants.{He as HeKind};

    ghost kind = { HeKind };

    #[inline(always)]
    fn get<W: Words>(
        words: &mut W,
        post: &mut Post,
        desk: &mut Desk,
        key: u64,
        bucket: u32,
    ) -> Answer {
        get_guarded::<W, He>(words, post, desk, key, bucket)
    }
}

impl GetUnder for Wfe {
    ghost use Rattle.wfe_core.specs.words.declared.config.SchemeKind.TheVariants.{Wfe as WfeKind};

    ghost kind = { WfeKind };

    #[inline(always)]
    fn get<W: Words>(
        words: &mut W,
        post: &mut Post,
        desk: &mut Desk,
        key: u64,
        bucket: u32,
    ) -> Answer {
        get_guarded::<W, Wfe>(words, post, desk, key, bucket)
    }
}

impl GetUnder for Hp {
    ghost use Rattle.wfe_core.specs.words.declared.config.SchemeKind.TheVariants.{Hp as HpKind};

    ghost kind = { HpKind };

    #[inline(always)]
    fn get<W: Words>(
        words: &mut W,
        post: &mut Post,
        desk: &mut Desk,
        key: u64,
        bucket: u32,
    ) -> Answer {
        get_guarded::<W, Hp>(words, post, desk, key, bucket)
    }
}

impl GetUnder for Ibr {
    ghost use Rattle.wfe_core.specs.words.declared.config.SchemeKind.TheVariants.{Ibr as IbrKind};

    ghost kind = { IbrKind };

    #[inline(always)]
    fn get<W: Words>(
        words: &mut W,
        post: &mut Post,
        desk: &mut Desk,
        key: u64,
        bucket: u32,
    ) -> Answer {
        get_free(words, post, desk, key, bucket, Call::Get { key })
    }
}

/// Makes a whole get, of a key whose bucket is known, under the scheme that a type names, and answers as the call does. No
/// call of the seat may be under way. What is seldom apart it drives no machine; and as it hands the words to no function
/// that is compiled apart, a compiler can keep them out of memory. It takes no memory, and every get ends.
#[inline(always)]
pub fn drive_get<W: Words, G: GetUnder>(
    words: &mut W,
    post: &mut Post,
    desk: &mut Desk,
    key: u64,
    bucket: u32,
) -> Answer
    requires valid { W.valid words.old }
    requires scheme { post.old.layout.config.scheme ≡ G.kind }
    requires here { Here (W.at words.old) (at_phase Idle post.old desk.old) }
    requires room { HasRoom desk.old post.old.layout }
    requires bucket { bucket ≡ bucket_of post.old key }
    requires there { bucket < post.old.layout.config.buckets }
    ensures valid { W.valid words.new }
    ensures same { W.same words.old words.new }
    ensures here { Here (W.at words.new) (at_phase Idle post.new desk.new) }
    ensures room { HasRoom desk.new post.new.layout }
    ensures place { SamePlace post.old post.new }
    ensures suits { suits (GetCall key) result ≡ true }
    ensures called { Called (GetCall key) result (W.at words.old) (W.at words.new)
        (W.stands words.old) (W.stands words.new)
        (at_phase Idle post.old desk.old) (at_phase Idle post.new desk.new) }
{
    words.start(Call::Get { key });
    post.steps = 0;
    desk.notes.clear();
    G::get(words, post, desk, key, bucket)
}

/// Makes the steps of a get under 2GE, as the seat keeps a row or none: the interval would end now.
#[inline(always)]
fn get_free<W: Words>(
    words: &mut W,
    post: &mut Post,
    desk: &mut Desk,
    key: u64,
    bucket: u32,
    call: Call,
) -> Answer
    requires valid { W.valid words.old }
    requires get { call ≡ GetCall key }
    requires bucket { bucket ≡ bucket_of post.old key }
    requires there { bucket < post.old.layout.config.buckets }
    requires scheme { post.old.layout.config.scheme ≡ IbrKind }
    requires here { Here (W.at words.old) (at_phase (first_phase call post.old) post.old desk.old) }
    requires room { HasRoom desk.old post.old.layout }
    ensures valid { W.valid words.new }
    ensures same { W.same words.old words.new }
    ensures room { HasRoom desk.new post.new.layout }
    ensures made { Makes (λ ops l m. Answered l ops result m) (W.at words.old) (W.at words.new)
        (W.stands words.old) (W.stands words.new)
        (at_phase (first_phase call post.old) post.old desk.old) (at_phase Idle post.new desk.new) }
{
    match post.span {
        None => match Ibr::finish(post) {
            Some(_) => get_ibr_in(words, post, desk, key, bucket),
            None => get_kept(words, post, desk, key, call),
        },
        Some(_) => get_kept(words, post, desk, key, call),
    }
}

/// Makes the steps of a get under 2GE by its machine.
#[inline(always)]
fn get_kept<W: Words>(
    words: &mut W,
    post: &mut Post,
    desk: &mut Desk,
    key: u64,
    _call: Call,
) -> Answer
    requires valid { W.valid words.old }
    requires get { _call ≡ GetCall key }
    requires scheme { post.old.layout.config.scheme ≡ IbrKind }
    requires here { Here (W.at words.old) (at_phase (first_phase _call post.old) post.old desk.old) }
    requires room { HasRoom desk.old post.old.layout }
    ensures valid { W.valid words.new }
    ensures same { W.same words.old words.new }
    ensures room { HasRoom desk.new post.new.layout }
    ensures made { Makes (λ ops l m. Answered l ops result m) (W.at words.old) (W.at words.new)
        (W.stands words.old) (W.stands words.new)
        (at_phase (first_phase _call post.old) post.old desk.old) (at_phase Idle post.new desk.new) }
{
    drive_apart(words, Get::<Ibr>::new(key), post, desk)
}
