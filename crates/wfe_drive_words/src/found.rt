// What a get finds in a row: the version, the count, and the keys in order up to its own.
ghost use Rattle.std.specs.Prelude.{◌≡◌, ◌<◌, ◌≤◌, ◌+◌, ◌^◌};
ghost use Rattle.wfe_core.specs.words.Place.{number};
ghost use Rattle.wfe_core.specs.words.Place.Place.{Row};
ghost use Rattle.wfe_core.specs.Calls.{FindVersion};
ghost use Rattle.wfe_core.specs.Valid.{IsValid};
ghost use Rattle.wfe_drive_words.specs.Called.{Here};
ghost use Rattle.wfe_drive_words.specs.Path.{Leads, Reader, found_at, next_pair, reading};

use crate::Words;
use crate::path::{load_cell, step};
use wfe_core::Post;

// The version, the value of the key, and the steps that it took to read them.
#[derive(Clone, Copy)]
pub struct Found {
    pub version: u64,
    pub value: Option<u64>,
    pub steps: u64,
}

// Reads a row that stands, from its version on.
#[inline(always)]
pub fn find<W: Words>(words: &mut W, post: &Post, key: u64, slot: u32) -> Found
    requires valid { W.valid words.old }
    requires later { W.later words.old }
    requires own { IsValid post.now }
    requires slot { slot ≤ post.now.layout.config.slots }
    requires here { (r : Reader) × (r.post.layout ≡ post.now.layout) × Here (W.at words.old) (reading key r 0 (FindVersion slot)) }
    ensures valid { W.valid words.new }
    ensures later { W.later words.new }
    ensures same { W.same words.old words.new }
    ensures few { result.steps < 2 ^ 32 }
    ensures leads { (r : Reader) → r.post.layout ≡ post.now.layout → Here (W.at words.old) (reading key r 0 (FindVersion slot))
        → Leads (W.at words.old) (W.at words.new) (W.stands words.old) (W.stands words.new) (reading key r 0 (FindVersion slot)) (found_at key r result) }
{
    let first = post.layout.row(slot, 0);
    let version = step(words, load_cell(post, slot, first, 1));
    let count = step(words, load_cell(post, slot, first, 2)) as u32;
    find_key(words, post, key, slot, first, version, count)
}

// Reads its keys up to this one, and then the value.
#[inline(always)]
pub fn find_key<W: Words>(
    words: &mut W,
    post: &Post,
    key: u64,
    slot: u32,
    first: u32,
    version: u64,
    count: u32,
) -> Found
    requires valid { W.valid words.old }
    requires later { W.later words.old }
    requires own { IsValid post.now }
    requires slot { slot ≤ post.now.layout.config.slots }
    requires first { first ≡ number post.now.layout (Row slot 0) }
    requires count { count ≤ post.now.layout.config.pairs }
    requires here { (r : Reader) × (r.post.layout ≡ post.now.layout) × Here (W.at words.old) (next_pair key r 2 slot version count 0) }
    ensures valid { W.valid words.new }
    ensures later { W.later words.new }
    ensures same { W.same words.old words.new }
    ensures few { result.steps < 2 ^ 32 }
    ensures leads { (r : Reader) → r.post.layout ≡ post.now.layout → Here (W.at words.old) (next_pair key r 2 slot version count 0)
        → Leads (W.at words.old) (W.at words.new) (W.stands words.old) (W.stands words.new) (next_pair key r 2 slot version count 0) (found_at key r result) }
{
    let mut pair = 0;
    while pair < count {
        if step(words, load_cell(post, slot, first, 3 + 2 * pair)) == key {
            let value = step(words, load_cell(post, slot, first, 4 + 2 * pair));
            return Found {
                version,
                value: Some(value),
                steps: 4 + pair as u64,
            };
        }
        pair += 1;
    }
    Found {
        version,
        value: None,
        steps: 2 + pair as u64,
    }
}
