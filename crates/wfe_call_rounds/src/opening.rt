// A round begins: what the scheme begins with, and then the protection of the root.
ghost use Rattle.std.specs.Prelude.{◌≡◌, ◌≤◌, [], length, true, IfSome};
ghost use Rattle.wfe_core.specs.words.Place.{is_valid};
ghost use Rattle.wfe_core.specs.Machine.{after, op_of};
ghost use Rattle.wfe_core.specs.Ready.{IsReady, Plausible, RootFits, protect_within};
ghost use Rattle.wfe_core.specs.Rounds.{protect_base};
ghost use Rattle.wfe_core.specs.Valid.{IsValid};
ghost use Rattle.wfe_call_rounds.specs.Rounds.{OpensOn, open_base, opening_base, opening_of};

use wfe_core::{Machine, Op, Post, ProtectEnd, Root, Told, link_word_number};
use wfe_iface::{Rounds, Scheme};

/// The first machines of a round: what the scheme begins with, if anything, and the protection of a
/// root.
#[derive(Drop)]
pub enum Opening<B: Machine<End = ()>, P: Machine<End = ProtectEnd>> {
    Begins(B),
    Protects(P),
}

impl<B: Machine<End = ()>, P: Machine<End = ProtectEnd>> Opening<B, P> {
    /// The operation that the round asks for.
    #[inline(always)]
    pub fn next_op(&self, post: &Post) -> Op
        requires valid { IsValid post.now }
        requires ready { IsReady (opening_base B.phase P.phase self.now) post.now }
        ensures { result ≡ op_of (opening_base B.phase P.phase self.now) post.now }
    {
        match self {
            Opening::Begins(machine) => machine.next_op(post),
            Opening::Protects(machine) => machine.next_op(post),
        }
    }
}

/// Begins a round that protects a root at an index of the seat.
#[inline(always)]
pub fn open<S: Scheme>(post: &Post, index: u32, root: Root) -> Opening<S::Begin, S::Protect>
    requires layout { is_valid post.now.layout ≡ true }
    requires there { RootFits post.now.layout root }
    ensures { opening_of ⟦<S as Rounds>⟧.all_phases result ≡ open_base S.kind post.now index root }
{
    match S::begin(post) {
        Some(machine) => Opening::Begins(machine),
        None => Opening::Protects(S::protect(post, index, link_word_number(post.layout, root))),
    }
}

/// Takes what the operation of a beginning round found. It answers where the root is protected.
#[inline(always)]
pub fn take_open<S: Scheme>(
    opening: &mut Opening<S::Begin, S::Protect>,
    index: u32,
    root: Root,
    post: &mut Post,
    found: u64,
    told: &mut Told,
) -> Option<ProtectEnd>
    requires valid { IsValid post.old }
    requires there { RootFits post.old.layout root }
    requires ready { IsReady (opening_of ⟦<S as Rounds>⟧.all_phases opening.old) post.old }
    requires plausible { Plausible (opening_of ⟦<S as Rounds>⟧.all_phases opening.old) post.old found }
    requires empty { told.old ≡ [] }
    ensures valid { IsValid post.new }
    ensures layout { post.new.layout ≡ post.old.layout }
    ensures seat { post.new.seat ≡ post.old.seat }
    ensures steps { post.new.steps ≡ post.old.steps }
    ensures post { post.new ≡ (after (opening_of ⟦<S as Rounds>⟧.all_phases opening.old) post.old found).post }
    ensures told { told.new ≡ (after (opening_of ⟦<S as Rounds>⟧.all_phases opening.old) post.old found).told }
    ensures few { length told.new ≤ 2 }
    ensures next { OpensOn (protect_base S.kind index root) (after (opening_of ⟦<S as Rounds>⟧.all_phases opening.old) post.old found).outcome result (opening_of ⟦<S as Rounds>⟧.all_phases opening.new) }
    ensures within { IfSome result (λ e. protect_within e post.new) }
{
    match opening {
        Opening::Begins(machine) => {
            if machine.take(post, found, told).is_some() {
                let word = link_word_number(post.layout, root);
                *opening = Opening::Protects(S::protect(post, index, word));
            }
            None
        }
        Opening::Protects(machine) => machine.take(post, found, told),
    }
}
