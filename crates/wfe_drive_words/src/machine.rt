// The steps of a call that its machine makes, one operation after another.
ghost use Rattle.std.specs.Prelude.{◌≡◌, true};
ghost use Rattle.wfe_core.specs.Calls.{Idle};
ghost use Rattle.wfe_core.specs.DeskHeld.{HasRoom};
ghost use Rattle.wfe_core.specs.Locals.{busy_in};
ghost use Rattle.wfe_drive_words.specs.Called.{Here, Makes, at_phase};
ghost use Rattle.wfe_drive_words.specs.Ran.{Answered};

use crate::Words;
use wfe_core::{Answer, CallMachine, Desk, Post, Told};
use wfe_drive_cells::Located;

/// Makes the steps of a call from where its machine stands, until it answers.
pub fn drive_on<W: Words, M: CallMachine>(
    words: &mut W,
    mut machine: M,
    post: &mut Post,
    desk: &mut Desk,
) -> Answer
    requires valid { W.valid words.old }
    requires busy { busy_in (M.phase machine post.old) ≡ true }
    requires here { Here (W.at words.old) (at_phase (M.phase machine post.old) post.old desk.old) }
    requires suits { M.suits post.old.layout.config.scheme }
    requires room { HasRoom desk.old post.old.layout }
    ensures valid { W.valid words.new }
    ensures same { W.same words.old words.new }
    ensures room { HasRoom desk.new post.new.layout }
    ensures made { Makes (λ ops l m. Answered l ops result m) (W.at words.old) (W.at words.new)
        (W.stands words.old) (W.stands words.new)
        (at_phase (M.phase machine post.old) post.old desk.old) (at_phase Idle post.new desk.new) }
{
    let mut told = Told::new();
    loop {
        let op = machine.next_op(post, desk);
        let at = Located::of(&post.layout, op);
        let found = words.perform(at);
        told.clear();
        if let Some(answer) = machine.take(post, desk, found, &mut told) {
            return answer;
        }
    }
}
