// The steps of a call that code without a machine leaves to its machine. The loop is compiled into that
// code, which so hands its words to nobody, and the machine's turns apart from it.
ghost use Rattle.std.specs.Prelude.{◌≡◌, [], true};
ghost use Rattle.wfe_core.specs.Calls.{Idle};
ghost use Rattle.wfe_core.specs.CallReady.{IsCallPlausible, IsCallReady, NotesFit};
ghost use Rattle.wfe_core.specs.DeskHeld.{HasRoom, Took, desk_of};
ghost use Rattle.wfe_core.specs.Locals.{busy_in};
ghost use Rattle.wfe_core.specs.Posts.{counted};
ghost use Rattle.wfe_core.specs.Steps.{call_op, phase_turn};
ghost use Rattle.wfe_core.specs.Valid.{IsValid};
ghost use Rattle.wfe_drive_words.specs.Called.{Here, Makes, at_phase};
ghost use Rattle.wfe_drive_words.specs.Ran.{Answered};

use crate::Words;
use wfe_core::{Answer, CallMachine, Desk, Op, Post, Told};
use wfe_drive_cells::Located;

/// Makes the steps of a call as `drive_on` does.
#[inline(always)]
pub fn drive_apart<W: Words, M: CallMachine>(
    words: &mut W,
    mut machine: M,
    post: &mut Post,
    desk: &mut Desk,
) -> Answer
    requires valid { W.valid words.old }
    requires busy { busy_in (M.phase machine post.old) ≡ true }
    requires here { Here (W.at words.old) (at_phase (M.phase machine post.old) post.old desk.old) }
    requires suits { M.suits post.old.layout.config.scheme }
    requires room { HasRoom desk.old post.old.layout }
    ensures valid { W.valid words.new }
    ensures same { W.same words.old words.new }
    ensures room { HasRoom desk.new post.new.layout }
    ensures made { Makes (λ ops l m. Answered l ops result m) (W.at words.old) (W.at words.new)
        (W.stands words.old) (W.stands words.new)
        (at_phase (M.phase machine post.old) post.old desk.old) (at_phase Idle post.new desk.new) }
{
    let mut told = Told::new();
    loop {
        let op = next_apart(&machine, post, desk);
        let at = Located::of(&post.layout, op);
        let found = words.perform(at);
        told.clear();
        if let Some(answer) = take_apart(&mut machine, post, desk, found, &mut told) {
            return answer;
        }
    }
}

// The operation that a machine asks for.
#[inline(never)]
fn next_apart<M: CallMachine>(machine: &M, post: &Post, desk: &Desk) -> Op
    requires valid { IsValid post.now }
    requires scheme { M.suits post.now.layout.config.scheme }
    requires ready { IsCallReady (M.phase machine.now post.now) post.now (desk_of desk.now) }
    ensures { result ≡ call_op (M.phase machine.now post.now) post.now }
{
    machine.next_op(post, desk)
}

// What a machine makes of the word that its operation found.
#[inline(never)]
fn take_apart<M: CallMachine>(
    machine: &mut M,
    post: &mut Post,
    desk: &mut Desk,
    found: u64,
    told: &mut Told,
) -> Option<Answer>
    requires valid { IsValid post.old }
    requires scheme { M.suits post.old.layout.config.scheme }
    requires room { HasRoom desk.old post.old.layout }
    requires ready { IsCallReady (M.phase machine.old post.old) post.old (desk_of desk.old) }
    requires noted { NotesFit post.old (desk_of desk.old) }
    requires plausible { IsCallPlausible (M.phase machine.old post.old) post.old found }
    requires empty { told.old ≡ [] }
    ensures valid { IsValid post.new }
    ensures layout { post.new.layout ≡ post.old.layout }
    ensures seat { post.new.seat ≡ post.old.seat }
    ensures room { HasRoom desk.new post.new.layout }
    ensures took { Took (phase_turn (M.phase machine.old post.old) (counted post.old) (desk_of desk.old) found)
        post.new desk.new told.new result (M.phase machine.new post.new) }
{
    machine.take(post, desk, found, told)
}
