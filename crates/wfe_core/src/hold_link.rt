// What protections publish and tell, under every scheme.
ghost use Rattle.std.specs.Prelude.{◌≡◌, ◌<◌, ◌≤◌, ◌+◌, ◌++◌, length};
ghost use Rattle.wfe_core.specs.Guards.{linked_row as row_of_link, one_era as era_span};
ghost use Rattle.wfe_core.specs.Posts.{index_word as own_index_word, publishes_index, shown_word as own_shown_word};
ghost use Rattle.wfe_core.specs.Protect.{held_post, told_held, protect_end as end_of};
ghost use Rattle.wfe_core.specs.Ready.{LinkFits, SlotFits, IndexFits, protect_within};
ghost use Rattle.wfe_core.specs.Valid.{IsValid};

use crate::{Post, ProtectEnd, Told};
use wfe_defs::{Event, Guard, Interval, Root};
use wfe_words::{Reservation, reservation_word};

/// The interval of one era; era 0 publishes nothing.
#[inline(always)]
pub fn one_era(era: u32) -> Option<Interval>
    ensures { result ≡ era_span era }
{
    if era == 0 {
        return None;
    }
    Some(Interval { lo: era, hi: era })
}

/// The word with which one of the seat's indexes publishes an era, under the index's tag.
#[inline(always)]
pub fn index_word(post: &Post, index: u32, era: u32) -> u64
    requires valid { IsValid post.now }
    requires index { IndexFits post.now index }
    ensures { result ≡ own_index_word post.now index era }
{
    reservation_word(Reservation {
        era,
        tag: post.tags[index as usize],
    })
}

/// The row that a link leads to; a null link leads to none.
#[inline(always)]
pub fn linked_row(link: u32) -> Option<u32>
    ensures { result ≡ row_of_link link }
{
    if link == 0 {
        return None;
    }
    Some(link - 1)
}

/// The word with which one of the seat's indexes publishes a number: an era under the index's tag, or
/// where rows are published a link as it is (Michael 2004).
#[inline(always)]
pub fn shown_word(rows: bool, post: &Post, index: u32, number: u32) -> u64
    requires valid { IsValid post.now }
    requires index { IndexFits post.now index }
    ensures { result ≡ own_shown_word rows post.now index number }
{
    if rows {
        number as u64
    } else {
        index_word(post, index, number)
    }
}

/// Tells that one of the seat's indexes publishes a number: an era, or where rows are published the row
/// of a link.
#[inline(always)]
pub fn publish_index(rows: bool, post: &Post, told: &mut Told, index: u32, number: u32)
    requires room { length told.old < 8 }
    ensures told { told.new ≡ told.old ++ publishes_index rows post.now index number }
    ensures few { length told.new ≤ length told.old + 1 }
{
    let guard = Guard::Index {
        seat: post.seat,
        index,
    };
    if rows {
        told.push(Event::Hazard {
            guard,
            slot: linked_row(number),
        });
    } else {
        told.push(Event::Reserve {
            guard,
            span: one_era(number),
        });
    }
}

/// How a protection ends that found this link under this era.
#[inline(always)]
pub fn protect_end(post: &Post, link: u32, era: u32) -> ProtectEnd
    requires { LinkFits post.now link }
    ensures value { result ≡ end_of link era }
    ensures within { protect_within result post.now }
{
    if link == 0 {
        ProtectEnd::Null
    } else {
        ProtectEnd::Held {
            slot: link - 1,
            era,
        }
    }
}

/// Tells what a protection found in its n-th step, and lets the row stand. The row of a next link
/// stands only once it was followed.
#[inline(always)]
pub fn hold(post: &mut Post, told: &mut Told, index: u32, root: Root, link: u32, n: u64)
    requires valid { IsValid post.old }
    requires index { IndexFits post.old index }
    requires link { LinkFits post.old link }
    requires room { length told.old < 8 }
    ensures valid { IsValid post.new }
    ensures post { post.new ≡ held_post post.old index root link }
    ensures layout { post.new.layout ≡ post.old.layout }
    ensures seat { post.new.seat ≡ post.old.seat }
    ensures steps { post.new.steps ≡ post.old.steps }
    ensures told { told.new ≡ told.old ++ told_held index root link n }
    ensures few { length told.new ≤ length told.old + 1 }
{
    if link == 0 {
        told.push(Event::Null { index, steps: n });
        return;
    }
    match root {
        Root::Next(_) => {}
        _ => {
            let slot = link - 1;
            post.standing[index as usize] = Some(slot);
            told.push(Event::Held {
                index,
                slot,
                steps: n,
            });
        }
    }
}
