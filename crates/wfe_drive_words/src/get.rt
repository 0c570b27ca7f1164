// A get, step by step: it protects the row of the key's bucket, reads it, and clears its index.
ghost use Rattle.std.specs.Prelude.{◌≡◌, ◌<◌, ◌≤◌, ◌+◌, ◌^◌, ◌%◌, ℕ, false, true, List};
ghost use Rattle.wfe_core.specs.Calls.{Gets, Idle};
ghost use Rattle.wfe_core.specs.DeskHeld.{HasRoom, desk_of};
ghost use Rattle.wfe_core.specs.Desks.{Desk as ModelDesk};
ghost use Rattle.wfe_core.specs.Phases.ProtectAt.{PublishRequest};
ghost use Rattle.wfe_core.specs.Ready.{LinkFits, RootFits};
ghost use Rattle.wfe_core.specs.Rounds.{bucket_of, root_of};
ghost use Rattle.wfe_core.specs.Steps.{first_phase};
ghost use Rattle.wfe_core.specs.Valid.{IsValid};
ghost use Rattle.wfe_core.specs.defs.declared.call.Answer.TheVariants.{Got as GotAnswer};
ghost use Rattle.wfe_core.specs.defs.declared.call.Call.TheVariants.{Get as GetCall};
ghost use Rattle.wfe_core.specs.defs.declared.event.Root.TheVariants as roots;
ghost use Rattle.wfe_core.specs.words.Place.{is_valid};
ghost use Rattle.wfe_core.specs.words.Schemes.{has_one_interval};
ghost use Rattle.wfe_core.specs.words.declared.config.SchemeKind.TheVariants.{Wfe as WfeKind};
ghost use Rattle.wfe_drive_words.specs.Called.{Here, Makes, at_phase};
ghost use Rattle.wfe_drive_words.specs.Path.{Closes, Leads, asking_trial, closing_at, get_trial, held_at, held_reader, protecting};

use crate::Words;
use crate::apart::drive_apart;
use crate::asking::Bounded;
use crate::by_index::ByIndex;
use crate::found::{Found, find};
use crate::path::{publish_as, step};
use wfe_bucketmap_read::{Get, Wfe};
use wfe_core::{Answer, Desk, Layout, Post, Root};
use wfe_fast::WfeProtect;

/// Makes a get under a scheme that clears an index by a step and that a type names, of a key whose bucket is known,
/// from its first step to its answer.
#[inline(always)]
pub fn get_guarded<W: Words, P: ByIndex>(
    words: &mut W,
    post: &mut Post,
    desk: &mut Desk,
    key: u64,
    bucket: u32,
) -> Answer
    requires valid { W.valid words.old }
    requires scheme { post.old.layout.config.scheme ≡ P.kind }
    requires clears { has_one_interval post.old.layout.config.scheme ≡ false }
    requires here { Here (W.at words.old) (at_phase (first_phase (GetCall key) post.old) post.old desk.old) }
    requires bucket { bucket ≡ bucket_of post.old key }
    requires there { bucket < post.old.layout.config.buckets }
    requires room { HasRoom desk.old post.old.layout }
    ensures valid { W.valid words.new }
    ensures same { W.same words.old words.new }
    ensures room { HasRoom desk.new post.new.layout }
    ensures made { Closes result (W.at words.old) (W.at words.new) (W.stands words.old) (W.stands words.new)
        (at_phase (first_phase (GetCall key) post.old) post.old desk.old) (at_phase Idle post.new desk.new) }
{
    // (the post as it is before the steps, for a compiler that can't tell that none of them changes it)
    let place = *post;
    let root = Root::Bucket(bucket);
    match P::protect(words, &place, 0, root) {
        Bounded::Within(guarded) => {
            let found = find_held(words, &place, key, guarded.link);
            close_get::<W, P>(words, &place, post, desk, found, guarded.steps)
        }
        Bounded::Used { steps } => ask(words, post, desk, key, root, steps),
    }
}

// The tries of a get are used up after so many steps: its machine asks for help, and goes on.
#[inline(always)]
fn ask<W: Words>(
    words: &mut W,
    post: &mut Post,
    desk: &mut Desk,
    key: u64,
    root: Root,
    steps: u64,
) -> Answer
    requires valid { W.valid words.old }
    requires scheme { post.old.layout.config.scheme ≡ WfeKind }
    requires here { Here (W.at words.old) (protecting (asking_trial key (desk_of desk.old) steps (post.old.steps + steps)) 0 root PublishRequest post.old) }
    requires room { HasRoom desk.old post.old.layout }
    ensures valid { W.valid words.new }
    ensures same { W.same words.old words.new }
    ensures room { HasRoom desk.new post.new.layout }
    ensures closes { Closes result (W.at words.old) (W.at words.new) (W.stands words.old) (W.stands words.new)
        (protecting (asking_trial key (desk_of desk.old) steps (post.old.steps + steps)) 0 root PublishRequest post.old)
        (at_phase Idle post.new desk.new) }
{
    post.steps += steps;
    let protect = WfeProtect::asking(0, root, steps);
    drive_apart(words, Get::<Wfe>::protecting(key, protect), post, desk)
}

/// The number of the key's bucket.
#[inline(always)]
#[tactic(auto, using(wfe_core::proofs::Ranges::bounds_of))]
pub fn bucket_for(key: u64, layout: &Layout) -> u32
    requires { is_valid layout.now ≡ true }
    ensures bucket { result ≡ key % layout.now.config.buckets }
    ensures there { result < layout.now.config.buckets }
{
    let buckets = layout.config().buckets as u64;
    (key % buckets) as u32
}

// The root of the key's bucket.
#[inline(always)]
pub fn root_for(key: u64, post: &Post) -> Root
    requires { IsValid post.now }
    ensures root { result ≡ root_of (Gets key) post.now }
    ensures there { RootFits post.now.layout result }
{
    Root::Bucket(bucket_for(key, &post.layout))
}

// Reads the row to which the bucket's link leads, if it leads to one. It serves the schemes that
// clear an index by a step.
#[inline(always)]
fn find_held<W: Words>(words: &mut W, post: &Post, key: u64, link: u32) -> Found
    requires valid { W.valid words.old }
    requires later { W.later words.old }
    requires own { IsValid post.now }
    requires clears { has_one_interval post.now.layout.config.scheme ≡ false }
    requires link { LinkFits post.now link }
    requires here { (desk : ModelDesk) × (bucket : ℕ) × (n : ℕ) × (era : ℕ) × (steps : ℕ)
        × Here (W.at words.old) (held_at (get_trial key desk 0) 0 (roots.Bucket bucket) n link era steps post.now) }
    ensures valid { W.valid words.new }
    ensures later { W.later words.new }
    ensures same { W.same words.old words.new }
    ensures few { result.steps < 2 ^ 32 }
    ensures leads { (desk : ModelDesk) (bucket n era steps : ℕ)
        → Here (W.at words.old) (held_at (get_trial key desk 0) 0 (roots.Bucket bucket) n link era steps post.now)
        → Leads (W.at words.old) (W.at words.new) (W.stands words.old) (W.stands words.new)
        (held_at (get_trial key desk 0) 0 (roots.Bucket bucket) n link era steps post.now)
        (closing_at key (held_reader post.now bucket link desk steps) result) }
{
    if link == 0 {
        return Found {
            version: 0,
            value: None,
            steps: 0,
        };
    }
    find(words, post, key, link - 1)
}

// Clears the index, which publishes rows or eras, and answers.
#[inline(always)]
fn close_get<W: Words, P: ByIndex>(
    words: &mut W,
    place: &Post,
    post: &mut Post,
    desk: &mut Desk,
    found: Found,
    before: u64,
) -> Answer
    requires valid { W.valid words.old }
    requires later { W.later words.old }
    requires own { IsValid post.old }
    requires place { place.now ≡ post.old }
    requires scheme { post.old.layout.config.scheme ≡ P.kind }
    requires clears { has_one_interval post.old.layout.config.scheme ≡ false }
    requires room { HasRoom desk.old post.old.layout }
    requires here { (key : ℕ) × (bucket : ℕ) × (link : ℕ)
        × Here (W.at words.old) (closing_at key (held_reader post.old bucket link (desk_of desk.old) (post.old.steps + before)) found) }
    ensures valid { W.valid words.new }
    ensures same { W.same words.old words.new }
    ensures room { HasRoom desk.new post.new.layout }
    ensures closes { (key bucket link : ℕ)
        → Here (W.at words.old) (closing_at key (held_reader post.old bucket link (desk_of desk.old) (post.old.steps + before)) found)
        → Closes result (W.at words.old) (W.at words.new) (W.stands words.old) (W.stands words.new)
        (closing_at key (held_reader post.old bucket link (desk_of desk.old) (post.old.steps + before)) found)
        (at_phase Idle post.new desk.new) }
{
    step(words, publish_as(P::ROWS, place, 0, 0));
    post.standing[0] = None;
    post.steps = post.steps + before + found.steps + 1;
    note_steps(desk, post.steps);
    answer_of(found)
}

// The answer of a get.
#[inline(always)]
pub fn answer_of(found: Found) -> Answer
    ensures { result ≡ GotAnswer found.version found.value }
{
    Answer::Got {
        version: found.version,
        value: found.value,
    }
}

// Notes the steps of a call that has ended, and changes nothing else.
#[inline(always)]
pub fn note_steps(desk: &mut Desk, steps: u64)
    ensures { desk.new ≡ record desk.old { notes = record desk.old.notes { steps = steps } } }
{
    desk.notes.steps = steps;
}
