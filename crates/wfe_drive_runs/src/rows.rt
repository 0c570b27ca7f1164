// A row is taken for a call, or given up before it was linked. One that is free at the first try is taken
// without a walk.
ghost use Rattle.std.specs.Prelude.{◌≡◌, ◌<◌, ◌≤◌, ◌+◌, ◌^◌, ◌⊎◌, [], IfErr, IfOk, List, ℕ, Some, length, false, true};
ghost use Rattle.wfe_core.specs.Allocate.{is_claimed};
ghost use Rattle.wfe_core.specs.defs.declared.call.Answer.{Answer as ModelAnswer};
ghost use Rattle.wfe_core.specs.Calls.{GivesUp, Idle, Runs, Why};
ghost use Rattle.wfe_core.specs.DeskHeld.{HasRoom, desk_of};
ghost use Rattle.wfe_core.specs.Locals.{Local};
ghost use Rattle.wfe_core.specs.Memory.{Or as SetsBits, Store as Stores};
ghost use Rattle.wfe_core.specs.Phases.{ends as turn_ends, goes as turn_goes};
ghost use Rattle.wfe_core.specs.Phases.AllocateAt.{LoadBirth};
ghost use Rattle.wfe_core.specs.Phases.Base.{Allocate as Allocating, GiveUp as GivingUp};
ghost use Rattle.wfe_core.specs.Phases.Ending.{Allocated};
ghost use Rattle.wfe_core.specs.Ready.{EraFits, SlotFits, allocate_within};
ghost use Rattle.wfe_core.specs.Steps.{run_turn};
ghost use Rattle.wfe_core.specs.Valid.{IsValid};
ghost use Rattle.wfe_core.specs.declared.op.Op.{Op as Operation};
ghost use Rattle.wfe_core.specs.words.Packed.{life_word as word_of};
ghost use Rattle.wfe_core.specs.words.Place.{claim_mask as mask_of, claim_word};
ghost use Rattle.wfe_core.specs.words.Place.Place.{Claim, Life as LifeWord};
ghost use Rattle.wfe_drive_words.specs.drive_cells.Spots.{spotted};
ghost use Rattle.wfe_drive_words.specs.drive_cells.Unit.{SeatView};
ghost use Rattle.wfe_drive_words.specs.Called.{Here, at_phase};
ghost use Rattle.wfe_drive_words.specs.Path.{Closes};
ghost use Rattle.wfe_slots.specs.Phases.{allocate_phase};
ghost use Rattle.wfe_drive_runs.specs.Pieces.{EndsSo, IsWalk, TurnsTo, claimed_at, claimed_by};

use crate::base_run::run;
use wfe_core::{AllocateEnd, Answer, Desk, Life, Machine, Op, Post, Told, life_word};
use wfe_drive_words::{Located, Words, load_clock, note_steps, step};
use wfe_slots::{Allocate, GiveUp, is_taken, slot_after};

/// Takes the first row that is free from the seat's cursor on.
#[inline(always)]
pub fn take_row<W: Words>(words: &mut W, post: &mut Post, desk: &mut Desk) -> AllocateEnd
    requires valid { W.valid words.old }
    requires later { W.later words.old }
    requires here { (why : Why) × Here (W.at words.old) (at_phase (Runs why (Allocating LoadBirth)) post.old desk.old) }
    requires room { HasRoom desk.old post.old.layout }
    ensures valid { W.valid words.new }
    ensures later { W.later words.new }
    ensures same { W.same words.old words.new }
    ensures rest { W.rest words.new < W.rest words.old }
    ensures room { HasRoom desk.new post.new.layout }
    ensures layout { post.new.layout ≡ post.old.layout }
    ensures within { allocate_within result post.new }
    ensures standing { post.new.standing ≡ post.old.standing }
    ensures ends { (why : Why) → Here (W.at words.old) (at_phase (Runs why (Allocating LoadBirth)) post.old desk.old)
        → EndsSo (W.at words.old) (W.at words.new) (W.stands words.old) (W.stands words.new)
        (at_phase (Runs why (Allocating LoadBirth)) post.old desk.old) why (Allocated result) post.new desk.new }
{
    let place = *post;
    let birth = step(words, load_clock(&place)) as u32;
    let slot = place.cursor;
    let found = step(words, set_claim(&place, slot));
    post.steps += 2;
    if is_taken(found, slot) {
        return walk_on(words, post, desk, birth, found);
    }
    step(words, store_birth(&place, slot, birth));
    post.steps += 1;
    post.cursor = slot_after(post.layout.config().slots, slot);
    note_given(desk, slot, birth);
    AllocateEnd::Given { slot, birth }
}

// The walk from the row that was found taken on. It has code of its own, since a call seldom walks and pays for what it
// keeps in memory. It is over at once, without a step, or ends after steps of its own.
#[cold]
#[inline(never)]
fn walk_on<W: Words>(
    words: &mut W,
    post: &mut Post,
    desk: &mut Desk,
    birth: u32,
    found: u64,
) -> AllocateEnd
    requires valid { W.valid words.old }
    requires later { W.later words.old }
    requires own { IsValid post.old }
    requires era { EraFits birth }
    requires taken { is_claimed found post.old.cursor ≡ true }
    requires here { (why : Why) × Here (W.at words.old) (claimed_at why birth found post.old (desk_of desk.old)) }
    requires room { HasRoom desk.old post.old.layout }
    ensures valid { W.valid words.new }
    ensures later { W.later words.new }
    ensures same { W.same words.old words.new }
    ensures rest { W.rest words.new ≤ W.rest words.old }
    ensures room { HasRoom desk.new post.new.layout }
    ensures layout { post.new.layout ≡ post.old.layout }
    ensures within { allocate_within result post.new }
    ensures standing { post.new.standing ≡ post.old.standing }
    ensures ends { (why : Why) → Here (W.at words.old) (claimed_at why birth found post.old (desk_of desk.old))
        → ((words.new ≡ words.old) × (post.new ≡ post.old) × (desk.new ≡ desk.old) × (claimed_by birth found post.old ≡ turn_ends post.old [] (Allocated result)))
        ⊎ EndsSo (W.at words.old) (W.at words.new) (W.stands words.old) (W.stands words.new) (claimed_at why birth found post.old (desk_of desk.old)) why (Allocated result) post.new desk.new }
{
    match walk_past(post, birth, found) {
        Ok(machine) => run(words, machine, post, desk),
        Err(end) => end,
    }
}

// The walk once its first row was found taken: at the next one that it was not shown taken, or at its end.
fn walk_past(post: &mut Post, birth: u32, found: u64) -> Result<Allocate, AllocateEnd>
    requires own { IsValid post.old }
    requires era { EraFits birth }
    requires taken { is_claimed found post.old.cursor ≡ true }
    ensures post { post.new ≡ post.old }
    ensures goes { IfOk result (λ machine. (claimed_by birth found post.old ≡ turn_goes post.old [] (allocate_phase machine)) × IsWalk (allocate_phase machine)) }
    ensures ends { IfErr result (λ end. (claimed_by birth found post.old ≡ turn_ends post.old [] (Allocated end)) × allocate_within end post.new) }
{
    let mut machine = Allocate::new(post);
    let mut told = Told::new();
    machine.take(post, birth as u64, &mut told);
    match machine.take(post, found, &mut told) {
        Some(end) => Err(end),
        None => Ok(machine),
    }
}

// Notes the row that was given, and changes nothing else.
#[inline(always)]
fn note_given(desk: &mut Desk, slot: u32, birth: u32)
    requires few { length desk.old.notes.back < 2 ^ 32 }
    ensures { desk.new ≡ record desk.old { notes = record desk.old.notes { given = Some (slot, birth); early = length desk.old.notes.back } } }
{
    desk.notes.given = Some((slot, birth));
    desk.notes.early = desk.notes.back.len() as u32;
}

// An operation that sets a slot's claim bit.
#[inline(always)]
fn set_claim(post: &Post, slot: u32) -> Located
    requires valid { IsValid post.now }
    requires slot { SlotFits post.now slot }
    ensures { result ≡ spotted post.now.layout (SetsBits (Claim (claim_word slot)) (mask_of slot)) }
{
    let word = post.layout.claim(slot);
    let bits = post.layout.claim_mask(slot);
    Located::dense(&post.layout, Op::Or { word, bits })
}

// A store of the birth era into the slot's lifetime word.
#[inline(always)]
fn store_birth(post: &Post, slot: u32, birth: u32) -> Located
    requires valid { IsValid post.now }
    requires slot { SlotFits post.now slot }
    ensures { result ≡ spotted post.now.layout (Stores (LifeWord slot) (word_of (record { birth = birth; retire = 0 }))) }
{
    let word = post.layout.life(slot);
    let value = life_word(Life { birth, retire: 0 });
    Located::dense(&post.layout, Op::Store { word, value })
}

/// Gives up a row that was not linked, and then the call is answered.
#[cold]
#[inline(never)]
pub fn give_up<W: Words>(
    words: &mut W,
    post: &mut Post,
    desk: &mut Desk,
    slot: u32,
    answer: Answer,
) -> Answer
    requires valid { W.valid words.old }
    requires later { W.later words.old }
    requires here { Here (W.at words.old) (at_phase (Runs (GivesUp answer) (GivingUp slot)) post.old desk.old) }
    requires room { HasRoom desk.old post.old.layout }
    ensures valid { W.valid words.new }
    ensures same { W.same words.old words.new }
    ensures room { HasRoom desk.new post.new.layout }
    ensures closes { Closes result (W.at words.old) (W.at words.new) (W.stands words.old) (W.stands words.new)
        (at_phase (Runs (GivesUp answer) (GivingUp slot)) post.old desk.old) (at_phase Idle post.new desk.new) }
{
    run(words, GiveUp::new(slot), post, desk);
    note_steps(desk, post.steps);
    answer
}
