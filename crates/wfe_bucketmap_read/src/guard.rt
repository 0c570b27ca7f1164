// The word that publishes what an index of the seat protects.
ghost use Rattle.std.specs.Prelude.{◌≡◌};
ghost use Rattle.wfe_core.specs.words.Schemes.{has_one_interval, publishes_rows as shows_rows};
ghost use Rattle.wfe_core.specs.Keep.{held_number as number_held, own_place};
ghost use Rattle.wfe_core.specs.Memory.{Load, numbered};
ghost use Rattle.wfe_core.specs.Ready.{IndexFits, ShownFits};
ghost use Rattle.wfe_core.specs.Rounds.{scheme_of};
ghost use Rattle.wfe_core.specs.Valid.{IsValid};

use wfe_core::{Op, Post, SchemeKind, read_reservation};

// The seat has one interval for all its indexes.
#[inline(always)]
pub fn has_interval(post: &Post) -> bool
    requires { IsValid post.now }
    ensures { result ≡ has_one_interval (scheme_of post.now) }
{
    matches!(post.layout.config().scheme, SchemeKind::Ibr)
}

// The seat's index words publish rows, and no eras.
#[inline(always)]
pub fn publishes_rows(post: &Post) -> bool
    requires { IsValid post.now }
    ensures { result ≡ shows_rows (scheme_of post.now) }
{
    matches!(post.layout.config().scheme, SchemeKind::Hp)
}

// What an index word publishes: an era, or where rows are published a link.
#[inline(always)]
pub fn held_number(post: &Post, found: u64) -> u32
    requires valid { IsValid post.now }
    requires fits { ShownFits (shows_rows (scheme_of post.now)) post.now found }
    ensures { result ≡ number_held (shows_rows (scheme_of post.now)) found }
{
    if publishes_rows(post) {
        found as u32
    } else {
        read_reservation(found).era
    }
}

// The load of the word that serves an index.
#[inline(always)]
pub fn load_guard(index: u32, post: &Post) -> Op
    requires valid { IsValid post.now }
    requires index { IndexFits post.now index }
    ensures { result ≡ numbered post.now.layout (Load (own_place post.now index)) }
{
    let word = if has_interval(post) {
        post.layout.interval(post.seat)
    } else {
        post.layout.index(post.seat, index)
    };
    Op::Load { word }
}
