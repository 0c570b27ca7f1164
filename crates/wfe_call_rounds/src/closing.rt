// A round ends: an index is cleared, and then comes what the scheme ends with.
ghost use Rattle.std.specs.Prelude.{◌≡◌, ◌<◌, ◌≤◌, ◌+◌, [], length};
ghost use Rattle.wfe_core.specs.Machine.{op_of};
ghost use Rattle.wfe_core.specs.Ready.{IndexFits, IsReady, Plausible};
ghost use Rattle.wfe_core.specs.Valid.{IsValid};
ghost use Rattle.wfe_call_rounds.specs.Rounds.{Closes, close_at, close_base, close_from, close_step, closing_of, closings_of, finish_from};

use wfe_core::{Machine, Op, Post, Told};
use wfe_iface::{Rounds, Scheme};

/// The last machines of a round: the clear of an index, and what the scheme ends with.
#[derive(Drop)]
pub enum Closing<C: Machine<End = ()>, F: Machine<End = ()>> {
    Clears(C),
    Finishes(F),
}

impl<C: Machine<End = ()>, F: Machine<End = ()>> Closing<C, F> {
    /// The operation that the round asks for.
    #[inline(always)]
    pub fn next_op(&self, post: &Post) -> Op
        requires valid { IsValid post.now }
        requires ready { IsReady (close_base (close_at C.phase F.phase self.now)) post.now }
        ensures { result ≡ op_of (close_base (close_at C.phase F.phase self.now)) post.now }
    {
        match self {
            Closing::Clears(machine) => machine.next_op(post),
            Closing::Finishes(machine) => machine.next_op(post),
        }
    }
}

// What the scheme ends with, unless another round comes at once.
#[inline(always)]
fn finish<S: Scheme>(post: &Post, again: bool) -> Option<Closing<S::Clear, S::Finish>>
    requires { IsValid post.now }
    ensures { closings_of ⟦<S as Rounds>⟧.all_phases result ≡ (finish_from S.kind again post.now []).at }
{
    if again {
        return None;
    }
    match S::finish(post) {
        Some(machine) => Some(Closing::Finishes(machine)),
        None => None,
    }
}

/// Begins to end a round: an index of the seat is cleared. None where the round is over at once.
/// Where another round comes at once, what the scheme ends with is left out.
#[inline(always)]
pub fn close<S: Scheme>(
    post: &mut Post,
    told: &mut Told,
    index: u32,
    again: bool,
) -> Option<Closing<S::Clear, S::Finish>>
    requires valid { IsValid post.old }
    requires index { IndexFits post.old index }
    requires room { length told.old < 8 }
    ensures post { post.new ≡ (close_from S.kind index again post.old told.old).post }
    ensures told { told.new ≡ (close_from S.kind index again post.old told.old).told }
    ensures next { closings_of ⟦<S as Rounds>⟧.all_phases result ≡ (close_from S.kind index again post.old told.old).at }
    ensures valid { IsValid post.new }
    ensures layout { post.new.layout ≡ post.old.layout }
    ensures seat { post.new.seat ≡ post.old.seat }
    ensures steps { post.new.steps ≡ post.old.steps }
    ensures few { length told.new ≤ length told.old + 1 }
{
    match S::clear(post, index, told) {
        Some(machine) => Some(Closing::Clears(machine)),
        None => finish::<S>(post, again),
    }
}

/// Takes what the operation of an ending round found. Whether the round is over.
#[inline(always)]
pub fn take_close<S: Scheme>(
    closing: &mut Closing<S::Clear, S::Finish>,
    again: bool,
    post: &mut Post,
    found: u64,
    told: &mut Told,
) -> bool
    requires valid { IsValid post.old }
    requires ready { IsReady (close_base (closing_of ⟦<S as Rounds>⟧.all_phases closing.old)) post.old }
    requires plausible { Plausible (close_base (closing_of ⟦<S as Rounds>⟧.all_phases closing.old)) post.old found }
    requires empty { told.old ≡ [] }
    ensures post { post.new ≡ (close_step S.kind again (closing_of ⟦<S as Rounds>⟧.all_phases closing.old) post.old found).post }
    ensures told { told.new ≡ (close_step S.kind again (closing_of ⟦<S as Rounds>⟧.all_phases closing.old) post.old found).told }
    ensures next { Closes (close_step S.kind again (closing_of ⟦<S as Rounds>⟧.all_phases closing.old) post.old found).at result (closing_of ⟦<S as Rounds>⟧.all_phases closing.new) }
    ensures valid { IsValid post.new }
    ensures layout { post.new.layout ≡ post.old.layout }
    ensures seat { post.new.seat ≡ post.old.seat }
    ensures steps { post.new.steps ≡ post.old.steps }
    ensures few { length told.new ≤ 2 }
{
    match closing {
        Closing::Clears(machine) => {
            if machine.take(post, found, told).is_none() {
                return false;
            }
            match finish::<S>(post, again) {
                Some(next) => {
                    *closing = next;
                    false
                }
                None => true,
            }
        }
        Closing::Finishes(machine) => machine.take(post, found, told).is_some(),
    }
}
