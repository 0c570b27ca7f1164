// What a scheme does for a call: its machines, and where it needs none.
ghost use Rattle.std.specs.Prelude.{◌≡◌, ◌<◌, ◌≤◌, ◌+◌, ◌++◌, Bool, true, length};
ghost use Rattle.wfe_core.specs.words.Place.{is_valid};
ghost use Rattle.wfe_core.specs.words.Schemes.{moves as do_move};
ghost use Rattle.wfe_core.specs.words.declared.config.SchemeKind.{SchemeKind as Kind};
ghost use Rattle.wfe_core.specs.declared.ends.ProtectEnd.{ProtectEnd as End};
ghost use Rattle.wfe_core.specs.Links.{link_number, root_at as root_of};
ghost use Rattle.wfe_core.specs.Phases.Ending.{Done, Protected};
ghost use Rattle.wfe_core.specs.Ready.{IndexFits, RootFits};
ghost use Rattle.wfe_core.specs.Rounds.{begin_base, clear_base, clear_post, clear_told, finish_base, helps as do_help, protect_base, release_base};
ghost use Rattle.wfe_core.specs.Valid.{IsValid};
ghost use Rattle.wfe_iface.specs.Schemes.{phases};

use wfe_core::{Machine, Post, ProtectEnd, Told};

/// A reclamation scheme, as the calls see it. A None means that the scheme needs no step there.
pub trait Scheme {
    /// The tables that it serves.
    ghost kind: { Kind };

    ghost HELPS: { Bool };

    /// Whether those that move the clock help the seats that ask for a protection.
    const HELPS: bool;

    ghost MOVES: { Bool };

    /// Whether retirements move the clock.
    const MOVES: bool;

    type Begin: Machine<End = ()>;

    type Protect: Machine<End = ProtectEnd>;

    type Clear: Machine<End = ()>;

    type Finish: Machine<End = ()>;

    type Release: Machine<End = ()>;

    /// What a round begins with.
    fn begin(post: &Post) -> Option<Self::Begin>
        ensures { phases Self.Begin.phase result ≡ begin_base kind post.now };

    /// A protection at an index of the seat, of the link in this word, which is a root or the next link
    /// of a row that stands.
    fn protect(post: &Post, index: u32, word: u32) -> Self::Protect
        requires layout { is_valid post.now.layout ≡ true }
        requires there { RootFits post.now.layout (root_of post.now.layout word) }
        requires number { link_number post.now.layout (root_of post.now.layout word) ≡ word }
        ensures { Self.Protect.phase result ≡ protect_base kind index (root_of post.now.layout word) };

    /// Clears an index of the seat. Where that takes no step, what stood there stands there no more at
    /// once, and the event is told here.
    fn clear(post: &mut Post, index: u32, told: &mut Told) -> Option<Self::Clear>
        requires valid { IsValid post.old }
        requires index { IndexFits post.old index }
        requires room { length told.old < 8 }
        ensures base { phases Self.Clear.phase result ≡ clear_base kind index }
        ensures post { post.new ≡ clear_post kind post.old index }
        ensures told { told.new ≡ told.old ++ clear_told kind post.old index }
        ensures valid { IsValid post.new }
        ensures layout { post.new.layout ≡ post.old.layout }
        ensures seat { post.new.seat ≡ post.old.seat }
        ensures steps { post.new.steps ≡ post.old.steps }
        ensures few { length told.new ≤ length told.old + 1 };

    /// What a round ends with, once its indexes are cleared. Where the scheme has one interval it stays
    /// while a row stands at an index from 2 on.
    fn finish(post: &Post) -> Option<Self::Finish>
        requires { IsValid post.now }
        ensures { phases Self.Finish.phase result ≡ finish_base kind post.now };

    /// What stands at an index of the seat is let go. None where the scheme has one interval and a row
    /// stands at another index from 2 on: the interval stays then.
    fn release(post: &Post, index: u32) -> Option<Self::Release>
        requires valid { IsValid post.now }
        requires index { IndexFits post.now index }
        ensures { phases Self.Release.phase result ≡ release_base kind post.now index };

    // Each machine ends as the model's does.

    ghost helps: { HELPS ≡ do_help kind };

    ghost moves: { MOVES ≡ do_move kind };

    ghost begun: { (e : Unit {0}) → Self.Begin.ending e ≡ Done };

    ghost protected: { (e : End) → Self.Protect.ending e ≡ Protected e };

    ghost cleared: { (e : Unit {0}) → Self.Clear.ending e ≡ Done };

    ghost finished: { (e : Unit {0}) → Self.Finish.ending e ≡ Done };

    ghost released: { (e : Unit {0}) → Self.Release.ending e ≡ Done };
}
