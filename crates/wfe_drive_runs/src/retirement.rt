// The retirement of a row that a call cut, and what follows it.
ghost use Rattle.std.specs.Prelude.{◌≡◌, ◌<◌, ◌==◌, ◌%◌, Some};
ghost use Rattle.wfe_core.specs.defs.declared.call.Answer.{Answer as ModelAnswer};
ghost use Rattle.wfe_core.specs.defs.declared.call.ClockMove.TheVariants.{Still as StillMove};
ghost use Rattle.wfe_core.specs.Calls.{Idle, Retires, Runs};
ghost use Rattle.wfe_core.specs.DeskHeld.{HasRoom, desk_of};
ghost use Rattle.wfe_core.specs.Desks.{noting, with_life};
ghost use Rattle.wfe_core.specs.Memory.{Load as Loads, Store as Stores};
ghost use Rattle.wfe_core.specs.Phases.Base.{Retire as Retiring};
ghost use Rattle.wfe_core.specs.Phases.RetireAt.{LoadLife};
ghost use Rattle.wfe_core.specs.Ready.{SlotFits};
ghost use Rattle.wfe_core.specs.Rounds.{with_clock};
ghost use Rattle.wfe_core.specs.Steps.{tidying};
ghost use Rattle.wfe_core.specs.Valid.{IsValid};
ghost use Rattle.wfe_core.specs.words.Packed.{life_word as word_of};
ghost use Rattle.wfe_core.specs.words.Place.Place.{Life as LifeWord};
ghost use Rattle.wfe_drive_words.specs.drive_cells.Spots.{spotted};
ghost use Rattle.wfe_drive_words.specs.Called.{Here, at_phase};
ghost use Rattle.wfe_drive_words.specs.Path.{Closes};
ghost use Rattle.wfe_drive_runs.specs.Pieces.{TurnsTo, retire_told};

use crate::tidy_run::tidy;
use wfe_call_rounds::birth_of;
use wfe_core::{ClockMove, Desk, Life, Lifetime, Op, Post, life_word};
use wfe_drive_words::{Located, Words, load_clock, note_steps, step};

/// Retires the row, and then tidies where that is due. It answers the outcome of the move; `Still` where
/// there is none, as the call's answer says before it.
#[inline(always)]
pub fn retire<W: Words>(words: &mut W, post: &mut Post, desk: &mut Desk, slot: u32) -> ClockMove
    requires valid { W.valid words.old }
    requires later { W.later words.old }
    requires here { (answer : ModelAnswer) × (with_clock answer StillMove ≡ answer) × Here (W.at words.old) (at_phase (Runs (Retires answer) (Retiring (LoadLife slot))) post.old desk.old) }
    requires room { HasRoom desk.old post.old.layout }
    ensures valid { W.valid words.new }
    ensures same { W.same words.old words.new }
    ensures room { HasRoom desk.new post.new.layout }
    ensures closes { (answer : ModelAnswer) → with_clock answer StillMove ≡ answer → Here (W.at words.old) (at_phase (Runs (Retires answer) (Retiring (LoadLife slot))) post.old desk.old)
        → Closes (with_clock answer result) (W.at words.old) (W.at words.new) (W.stands words.old) (W.stands words.new)
        (at_phase (Runs (Retires answer) (Retiring (LoadLife slot))) post.old desk.old) (at_phase Idle post.new desk.new) }
{
    store_life(words, post, desk, slot);
    let config = post.layout.config();
    if post.retired % config.every as u64 != 0 {
        note_steps(desk, post.steps);
        return ClockMove::Still;
    }
    let clock = tidy(words, post, desk);
    note_steps(desk, post.steps);
    clock
}

// Stores the row's retire era, a clock value loaded now, and puts its life on the list.
#[inline(always)]
fn store_life<W: Words>(words: &mut W, post: &mut Post, desk: &mut Desk, slot: u32) -> Lifetime
    requires valid { W.valid words.old }
    requires later { W.later words.old }
    requires own { IsValid post.old }
    requires slot { SlotFits post.old slot }
    requires here { (answer : ModelAnswer) × Here (W.at words.old) (at_phase (Runs (Retires answer) (Retiring (LoadLife slot))) post.old desk.old) }
    requires room { HasRoom desk.old post.old.layout }
    ensures valid { W.valid words.new }
    ensures later { W.later words.new }
    ensures same { W.same words.old words.new }
    ensures room { HasRoom desk.new post.new.layout }
    ensures layout { post.new.layout ≡ post.old.layout }
    ensures noted { desk_of desk.new ≡ noting (with_life (desk_of desk.old) result) (retire_told result) }
    ensures turns { (answer : ModelAnswer) → Here (W.at words.old) (at_phase (Runs (Retires answer) (Retiring (LoadLife slot))) post.old desk.old)
        → TurnsTo (W.at words.old) (W.at words.new) (W.stands words.old) (W.stands words.new)
        (at_phase (Runs (Retires answer) (Retiring (LoadLife slot))) post.old desk.old)
        (tidying answer post.new (with_life (desk_of desk.old) result) (retire_told result) (post.new.retired % post.new.layout.config.every == 0)) }
{
    let place = *post;
    let word = step(words, load_life(&place, slot));
    let birth = birth_of(word);
    let retire = step(words, load_clock(&place)) as u32;
    step(words, store_lifetime(&place, slot, birth, retire));
    let life = Lifetime {
        slot,
        birth,
        retire,
    };
    post.steps += 3;
    post.retired = post.retired.saturating_add(1);
    desk.list.add(life);
    note_retired(desk, life);
    life
}

// Notes the life of the row that the call has retired, and changes nothing else.
#[inline(always)]
fn note_retired(desk: &mut Desk, life: Lifetime)
    ensures { desk.new ≡ record desk.old { notes = record desk.old.notes { retired = Some life } } }
{
    desk.notes.retired = Some(life);
}

// A load of a row's lifetime word.
#[inline(always)]
fn load_life(post: &Post, slot: u32) -> Located
    requires valid { IsValid post.now }
    requires slot { SlotFits post.now slot }
    ensures { result ≡ spotted post.now.layout (Loads (LifeWord slot)) }
{
    let word = post.layout.life(slot);
    Located::dense(&post.layout, Op::Load { word })
}

// A store of both eras into it.
#[inline(always)]
fn store_lifetime(post: &Post, slot: u32, birth: u32, retire: u32) -> Located
    requires valid { IsValid post.now }
    requires slot { SlotFits post.now slot }
    ensures { result ≡ spotted post.now.layout (Stores (LifeWord slot) (word_of (record { birth = birth; retire = retire }))) }
{
    let word = post.layout.life(slot);
    let value = life_word(Life { birth, retire });
    Located::dense(&post.layout, Op::Store { word, value })
}
