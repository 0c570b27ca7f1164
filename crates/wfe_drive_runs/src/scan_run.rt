// A scan, whatever the call does after it: it reads each guard once, and then gives back the rows whose lives nothing keeps
// that it read.
ghost use Rattle.std.specs.Prelude.{◌≡◌, ◌≤◌, ◌+◌, ◌<◌, [], nat_lt, true};
ghost use Rattle.wfe_core.specs.words.Place.{has};
ghost use Rattle.wfe_core.specs.Calls.{AfterScan, GiveBack, ReadGuard, Scans};
ghost use Rattle.wfe_core.specs.DeskHeld.{HasRoom, desk_of};
ghost use Rattle.wfe_core.specs.Guards.{guard_place, guards as model_guards};
ghost use Rattle.wfe_core.specs.Machine.{free_move};
ghost use Rattle.wfe_core.specs.Memory.{Load as Loads};
ghost use Rattle.wfe_core.specs.Ready.{SlotFits};
ghost use Rattle.wfe_core.specs.Scan.{reading, scanned, unmet_from};
ghost use Rattle.wfe_core.specs.Valid.{IsValid};
ghost use Rattle.wfe_drive_words.specs.drive_cells.Spots.{spotted};
ghost use Rattle.wfe_drive_words.specs.Called.{Here, at_phase};
ghost use Rattle.wfe_drive_runs.specs.Pieces.{TurnsTo, giving_at};

use wfe_core::{Desk, Event, Guard, Lifetime, Op, Post, ScanReport};
use wfe_drive_words::{Located, Words, step};
use wfe_scan::{first_unmet, guard_at, guard_count, guard_word, shown_by};

/// Scans. Each step is counted, and what goes back is noted.
#[inline(always)]
pub fn scan<W: Words>(words: &mut W, post: &mut Post, desk: &mut Desk)
    requires valid { W.valid words.old }
    requires later { W.later words.old }
    requires here { (later : AfterScan) × Here (W.at words.old) (at_phase (Scans later (ReadGuard 0)) post.old desk.old) }
    requires room { HasRoom desk.old post.old.layout }
    ensures valid { W.valid words.new }
    ensures later { W.later words.new }
    ensures same { W.same words.old words.new }
    ensures rest { W.rest words.new < W.rest words.old }
    ensures room { HasRoom desk.new post.new.layout }
    ensures layout { post.new.layout ≡ post.old.layout }
    ensures standing { post.new.standing ≡ post.old.standing }
    ensures turns { (later : AfterScan) → Here (W.at words.old) (at_phase (Scans later (ReadGuard 0)) post.old desk.old)
        → TurnsTo (W.at words.old) (W.at words.new) (W.stands words.old) (W.stands words.new)
        (at_phase (Scans later (ReadGuard 0)) post.old desk.old) (scanned later post.new (desk_of desk.new) []) }
{
    read_guards(words, post, desk);
    let mut from = 0;
    'rows: loop {
        match next_unmet(desk, from) {
            Some((place, life)) => {
                give_back(words, post, desk, place, life.slot);
                from = place;
            }
            None => {
                let kept = desk.list.len() as u32;
                note_kept(&mut desk.report, kept);
                return;
            }
        }
    }
}

// Reads the guards, each once and in order.
#[inline(always)]
fn read_guards<W: Words>(words: &mut W, post: &mut Post, desk: &mut Desk)
    requires valid { W.valid words.old }
    requires later { W.later words.old }
    requires here { (later : AfterScan) × Here (W.at words.old) (at_phase (Scans later (ReadGuard 0)) post.old desk.old) }
    requires room { HasRoom desk.old post.old.layout }
    ensures valid { W.valid words.new }
    ensures later { W.later words.new }
    ensures same { W.same words.old words.new }
    ensures rest { W.rest words.new < W.rest words.old }
    ensures room { HasRoom desk.new post.new.layout }
    ensures layout { post.new.layout ≡ post.old.layout }
    ensures standing { post.new.standing ≡ post.old.standing }
    ensures turns { (later : AfterScan) → Here (W.at words.old) (at_phase (Scans later (ReadGuard 0)) post.old desk.old)
        → TurnsTo (W.at words.old) (W.at words.new) (W.stands words.old) (W.stands words.new)
        (at_phase (Scans later (ReadGuard 0)) post.old desk.old) (giving_at later 0 post.new (desk_of desk.new)) }
{
    let count = guard_count(post.layout.config());
    let mut number = 0;
    'guards: loop {
        read_guard(words, post, desk, number);
        if number + 1 == count {
            return;
        }
        number += 1;
    }
}

// Reads one guard.
#[inline(always)]
fn read_guard<W: Words>(words: &mut W, post: &mut Post, desk: &mut Desk, number: u32)
    requires valid { W.valid words.old }
    requires later { W.later words.old }
    requires here { (later : AfterScan) × Here (W.at words.old) (at_phase (Scans later (ReadGuard number)) post.old desk.old) }
    requires room { HasRoom desk.old post.old.layout }
    ensures valid { W.valid words.new }
    ensures later { W.later words.new }
    ensures same { W.same words.old words.new }
    ensures rest { W.rest words.new < W.rest words.old }
    ensures room { HasRoom desk.new post.new.layout }
    ensures post { post.new ≡ record post.old { steps = post.old.steps + 1 } }
    ensures turns { (later : AfterScan) → Here (W.at words.old) (at_phase (Scans later (ReadGuard number)) post.old desk.old)
        → TurnsTo (W.at words.old) (W.at words.new) (W.stands words.old) (W.stands words.new)
        (at_phase (Scans later (ReadGuard number)) post.old desk.old)
        (reading later number post.new (desk_of desk.new) [] (nat_lt (number + 1) (model_guards post.new.layout.config))) }
{
    let guard = guard_at(post.layout.config(), number);
    let found = step(words, load_guard(post, guard));
    post.steps += 1;
    let shown = shown_by(post, guard, found);
    desk.report.note(number, guard, shown);
}

// Gives a row back: its claim bit is cleared, and it leaves the list.
#[inline(always)]
fn give_back<W: Words>(words: &mut W, post: &mut Post, desk: &mut Desk, place: usize, slot: u32)
    requires valid { W.valid words.old }
    requires later { W.later words.old }
    requires here { (later : AfterScan) × Here (W.at words.old) (at_phase (Scans later (GiveBack place slot)) post.old desk.old) }
    requires room { HasRoom desk.old post.old.layout }
    ensures valid { W.valid words.new }
    ensures later { W.later words.new }
    ensures same { W.same words.old words.new }
    ensures rest { W.rest words.new < W.rest words.old }
    ensures room { HasRoom desk.new post.new.layout }
    ensures post { post.new ≡ record post.old { steps = post.old.steps + 1 } }
    ensures turns { (later : AfterScan) → Here (W.at words.old) (at_phase (Scans later (GiveBack place slot)) post.old desk.old)
        → TurnsTo (W.at words.old) (W.at words.new) (W.stands words.old) (W.stands words.new)
        (at_phase (Scans later (GiveBack place slot)) post.old desk.old) (giving_at later place post.new (desk_of desk.new)) }
{
    step(words, free_slot(post, slot));
    post.steps += 1;
    desk.list.remove(place);
    count_back(&mut desk.report);
    desk.notes.note(&Event::Back { slot });
}

// The first row from a place of the list on that may go back, with its place.
#[inline(always)]
fn next_unmet(desk: &Desk, from: usize) -> Option<(usize, Lifetime)>
    ensures { result ≡ unmet_from (desk_of desk.now) from }
{
    first_unmet(&desk.list, &desk.report.read, from)
}

// One row more went back.
#[inline(always)]
fn count_back(report: &mut ScanReport)
    requires { report.old.back < 4294967295 }
    ensures { report.new ≡ record report.old { back = report.old.back + 1 } }
{
    report.back += 1;
}

// So many rows stay.
#[inline(always)]
fn note_kept(report: &mut ScanReport, kept: u32)
    ensures { report.new ≡ record report.old { kept = kept } }
{
    report.kept = kept;
}

// A load of a guard's word.
#[inline(always)]
fn load_guard(post: &Post, guard: Guard) -> Located
    requires valid { IsValid post.now }
    requires there { has post.now.layout (guard_place guard) ≡ true }
    ensures { result ≡ spotted post.now.layout (Loads (guard_place guard)) }
{
    let word = guard_word(post.layout, guard);
    Located::alone(&post.layout, Op::Load { word })
}

// An operation that clears a slot's claim bit.
#[inline(always)]
#[tactic(auto, unfolding(wfe_words::specs::Place::claim_others))]
fn free_slot(post: &Post, slot: u32) -> Located
    requires valid { IsValid post.now }
    requires slot { SlotFits post.now slot }
    ensures { result ≡ spotted post.now.layout (free_move slot) }
{
    let word = post.layout.claim(slot);
    let bits = u64::MAX - post.layout.claim_mask(slot);
    Located::dense(&post.layout, Op::And { word, bits })
}
