// A get under 2GE of a seat that keeps no row: an interval begins, the row of the key's bucket is
// protected and read, and the interval ends.
ghost use Rattle.std.specs.Prelude.{◌≡◌, ◌<◌, ◌+◌, ◌^◌, ℕ};
ghost use Rattle.wfe_core.specs.words.Place.Place.{Interval};
ghost use Rattle.wfe_core.specs.words.declared.config.SchemeKind.TheVariants.{Ibr as IbrKind};
ghost use Rattle.wfe_core.specs.defs.declared.call.Answer.TheVariants.{Got as GotAnswer};
ghost use Rattle.wfe_core.specs.defs.declared.call.Call.TheVariants.{Get as GetCall};
ghost use Rattle.wfe_core.specs.defs.declared.event.Root.TheVariants as roots;
ghost use Rattle.wfe_core.specs.Calls.{Idle, Task};
ghost use Rattle.wfe_core.specs.DeskHeld.{HasRoom, desk_of};
ghost use Rattle.wfe_core.specs.Desks.{Desk as ModelDesk};
ghost use Rattle.wfe_core.specs.Memory.{Store as Stores};
ghost use Rattle.wfe_core.specs.Phases.BeginAt.{LoadLower};
ghost use Rattle.wfe_core.specs.Ready.{LinkFits};
ghost use Rattle.wfe_core.specs.Rounds.{bucket_of, kept_row};
ghost use Rattle.wfe_core.specs.Steps.{first_phase};
ghost use Rattle.wfe_core.specs.Valid.{IsValid};
ghost use Rattle.wfe_core.specs.declared.post.Post.{Post as ModelPost};
ghost use Rattle.wfe_drive_cells.specs.Spots.{spotted};
ghost use Rattle.wfe_drive_words.specs.Called.{Here, at_phase};
ghost use Rattle.wfe_drive_words.specs.Path.{Closes, Leads, beginning_at, begun_at, ending_at, get_trial, held_at, spanned};

use crate::Words;
use crate::found::{Found, find};
use crate::get::{answer_of, note_steps};
use crate::path::{any_step, load_clock, step};
use crate::within::{protect_within, store_span};
use wfe_core::{Answer, Desk, Op, Post, Root};
use wfe_drive_cells::Located;

/// Makes a get under 2GE, of a key whose bucket is known, from its first step to its answer.
#[inline(always)]
pub fn get_ibr_in<W: Words>(
    words: &mut W,
    post: &mut Post,
    desk: &mut Desk,
    key: u64,
    bucket: u32,
) -> Answer
    requires valid { W.valid words.old }
    requires scheme { post.old.layout.config.scheme ≡ IbrKind }
    requires span { post.old.span ≡ None }
    requires free { kept_row post.old ≡ None }
    requires here { Here (W.at words.old) (at_phase (first_phase (GetCall key) post.old) post.old desk.old) }
    requires bucket { bucket ≡ bucket_of post.old key }
    requires there { bucket < post.old.layout.config.buckets }
    requires room { HasRoom desk.old post.old.layout }
    ensures valid { W.valid words.new }
    ensures same { W.same words.old words.new }
    ensures room { HasRoom desk.new post.new.layout }
    ensures made { Closes result (W.at words.old) (W.at words.new) (W.stands words.old) (W.stands words.new)
        (at_phase (first_phase (GetCall key) post.old) post.old desk.old) (at_phase Idle post.new desk.new) }
{
    let root = Root::Bucket(bucket);
    let era = begin_span(words, post);
    let guarded = protect_within(words, post, root, era, era);
    let found = find_within(words, post, key, guarded.link);
    end_get(words, post, desk, found, guarded.steps + 2)
}

// An interval begins, at the clock that it answers.
#[inline(always)]
pub fn begin_span<W: Words>(words: &mut W, post: &Post) -> u32
    requires valid { W.valid words.old }
    requires own { IsValid post.now }
    requires here { (task : Task) × (desk : ModelDesk) × (steps : ℕ) × Here (W.at words.old) (beginning_at task desk post.now steps LoadLower) }
    ensures valid { W.valid words.new }
    ensures later { W.later words.new }
    ensures same { W.same words.old words.new }
    ensures rest { W.rest words.new < W.rest words.old }
    ensures leads { (task : Task) (desk : ModelDesk) (steps : ℕ) → Here (W.at words.old) (beginning_at task desk post.now steps LoadLower)
        → Leads (W.at words.old) (W.at words.new) (W.stands words.old) (W.stands words.new) (beginning_at task desk post.now steps LoadLower) (begun_at task desk post.now (steps + 2) result) }
{
    let era = any_step(words, load_clock(post)) as u32;
    step(words, store_span(post, era, era));
    era
}

// Reads the row to which the bucket's link leads, if it leads to one.
#[inline(always)]
fn find_within<W: Words>(words: &mut W, post: &Post, key: u64, link: u32) -> Found
    requires valid { W.valid words.old }
    requires later { W.later words.old }
    requires own { IsValid post.now }
    requires link { LinkFits post.now link }
    requires here { (p : ModelPost) × (p.layout ≡ post.now.layout) × (desk : ModelDesk) × (bucket : ℕ) × (n : ℕ) × (era : ℕ) × (steps : ℕ)
        × Here (W.at words.old) (held_at (get_trial key desk 0) 0 (roots.Bucket bucket) n link era steps p) }
    ensures valid { W.valid words.new }
    ensures later { W.later words.new }
    ensures same { W.same words.old words.new }
    ensures few { result.steps < 2 ^ 32 }
    ensures leads { (p : ModelPost) (desk : ModelDesk) (bucket n era steps : ℕ) → p.layout ≡ post.now.layout → p.layout.config.scheme ≡ IbrKind → kept_row p ≡ None
        → Here (W.at words.old) (held_at (get_trial key desk 0) 0 (roots.Bucket bucket) n link era steps p)
        → Leads (W.at words.old) (W.at words.new) (W.stands words.old) (W.stands words.new)
        (held_at (get_trial key desk 0) 0 (roots.Bucket bucket) n link era steps p) (ending_at key p desk steps result) }
{
    if link == 0 {
        return Found {
            version: 0,
            value: None,
            steps: 0,
        };
    }
    find(words, post, key, link - 1)
}

// A store of no interval into the seat's word.
#[inline(always)]
pub fn store_none(post: &Post) -> Located
    requires { IsValid post.now }
    ensures { result ≡ spotted post.now.layout (Stores (Interval post.now.seat) 0) }
{
    let word = post.layout.interval(post.seat);
    Located::alone(&post.layout, Op::Store { word, value: 0 })
}

// The interval ends, and the call is answered.
#[inline(always)]
fn end_get<W: Words>(
    words: &mut W,
    post: &mut Post,
    desk: &mut Desk,
    found: Found,
    before: u64,
) -> Answer
    requires valid { W.valid words.old }
    requires later { W.later words.old }
    requires own { IsValid post.old }
    requires room { HasRoom desk.old post.old.layout }
    requires here { (key : ℕ) × (lo : ℕ) × (hi : ℕ) × Here (W.at words.old) (ending_at key (spanned post.old lo hi) (desk_of desk.old) (post.old.steps + before) found) }
    ensures valid { W.valid words.new }
    ensures same { W.same words.old words.new }
    ensures room { HasRoom desk.new post.new.layout }
    ensures closes { (key lo hi : ℕ) → Here (W.at words.old) (ending_at key (spanned post.old lo hi) (desk_of desk.old) (post.old.steps + before) found)
        → Closes result (W.at words.old) (W.at words.new) (W.stands words.old) (W.stands words.new)
        (ending_at key (spanned post.old lo hi) (desk_of desk.old) (post.old.steps + before) found) (at_phase Idle post.new desk.new) }
{
    step(words, store_none(post));
    post.standing[0] = None;
    post.span = None;
    post.steps = post.steps + before + found.steps + 1;
    note_steps(desk, post.steps);
    answer_of(found)
}
