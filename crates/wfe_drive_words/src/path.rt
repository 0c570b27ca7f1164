// One step of a call, and the operations that calls ask for.
ghost use Rattle.std.specs.Prelude.{◌≡◌, ◌<◌, ℕ, true};
ghost use Rattle.wfe_core.specs.words.Place.Place.{Clock, Index, Row};
ghost use Rattle.wfe_core.specs.words.Place.{has, number};
ghost use Rattle.wfe_core.specs.words.Schemes.{publishes_rows as shows_rows};
ghost use Rattle.wfe_core.specs.Links.{link_place};
ghost use Rattle.wfe_core.specs.Memory.{Load as Loads, Store as Stores};
ghost use Rattle.wfe_drive_cells.specs.Spots.{spotted};
ghost use Rattle.wfe_core.specs.Posts.{index_word as own_index_word, shown_word as own_shown_word};
ghost use Rattle.wfe_core.specs.Ready.{IndexFits, RootFits};
ghost use Rattle.wfe_core.specs.Valid.{IsValid};
ghost use Rattle.wfe_drive_cells.specs.Unit.{SeatView};
ghost use Rattle.wfe_drive_words.specs.Path.{AsksFor, StepFrom};

use crate::Words;
use wfe_core::{Op, Post, Root, SchemeKind, index_word, link_word_number, shown_word};
use wfe_drive_cells::Located;

// Makes the step that the seat's state asks for, whichever state that is.
#[inline(always)]
pub fn any_step<W: Words>(words: &mut W, op: Located) -> u64
    requires valid { W.valid words.old }
    requires asks { (seat : SeatView) × AsksFor (W.at words.old) seat op }
    ensures valid { W.valid words.new }
    ensures later { W.later words.new }
    ensures same { W.same words.old words.new }
    ensures rest { W.rest words.new < W.rest words.old }
    ensures steps { StepFrom (W.at words.old) (W.at words.new) (W.stands words.old) (W.stands words.new) op result }
{
    words.perform(op)
}

// The same, where the call has made a step before.
#[inline(always)]
pub fn step<W: Words>(words: &mut W, op: Located) -> u64
    requires valid { W.valid words.old }
    requires later { W.later words.old }
    requires asks { (seat : SeatView) × AsksFor (W.at words.old) seat op }
    ensures valid { W.valid words.new }
    ensures later { W.later words.new }
    ensures same { W.same words.old words.new }
    ensures rest { W.rest words.new < W.rest words.old }
    ensures steps { StepFrom (W.at words.old) (W.at words.new) (W.stands words.old) (W.stands words.new) op result }
{
    words.perform_on(op)
}

// A load of the clock.
#[inline(always)]
pub fn load_clock(post: &Post) -> Located
    ensures { result ≡ spotted post.now.layout (Loads Clock) }
{
    let word = post.layout.clock();
    Located::alone(&post.layout, Op::Load { word })
}

// A store of an era into the word of one of the seat's indexes.
#[inline(always)]
pub fn publish(post: &Post, index: u32, era: u32) -> Located
    requires valid { IsValid post.now }
    requires index { IndexFits post.now index }
    ensures { result ≡ spotted post.now.layout (Stores (Index post.now.seat index) (own_index_word post.now index era)) }
{
    let word = post.layout.index(post.seat, index);
    let value = index_word(post, index, era);
    Located::alone(&post.layout, Op::Store { word, value })
}

// A store into it of what it publishes: an era, or where rows are published a link.
#[inline(always)]
pub fn publish_as(rows: bool, post: &Post, index: u32, number: u32) -> Located
    requires valid { IsValid post.now }
    requires index { IndexFits post.now index }
    ensures { result ≡ spotted post.now.layout (Stores (Index post.now.seat index) (own_shown_word rows post.now index number)) }
{
    let word = post.layout.index(post.seat, index);
    let value = shown_word(rows, post, index, number);
    Located::alone(&post.layout, Op::Store { word, value })
}

// The seat's index words publish rows, and no eras.
#[inline(always)]
pub fn publishes_rows(post: &Post) -> bool
    ensures { result ≡ shows_rows post.now.layout.config.scheme }
{
    matches!(post.layout.config().scheme, SchemeKind::Hp)
}

// A load of a root.
#[inline(always)]
pub fn load_link(post: &Post, root: Root) -> Located
    requires valid { IsValid post.now }
    requires there { RootFits post.now.layout root }
    ensures { result ≡ spotted post.now.layout (Loads (link_place root)) }
{
    let op = Op::Load {
        word: link_word_number(post.layout, root),
    };
    match root {
        Root::Bucket(_) => Located::root(&post.layout, op),
        Root::Next(_) => Located::dense(&post.layout, op),
        Root::Head => Located::end(&post.layout, op),
        Root::Tail => Located::end(&post.layout, op),
    }
}

// A load of a word of a row, of which the number of the first word is known.
#[inline(always)]
pub fn load_cell(post: &Post, _slot: u32, first: u32, place: u32) -> Located
    requires valid { IsValid post.now }
    requires there { has post.now.layout (Row _slot place) ≡ true }
    requires first { first ≡ number post.now.layout (Row _slot 0) }
    ensures { result ≡ spotted post.now.layout (Loads (Row _slot place)) }
{
    let word = first + place;
    Located::dense(&post.layout, Op::Load { word })
}
