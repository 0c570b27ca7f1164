// What a seat that leaves lets go in one step: what stands at an index, or all of it with the interval.
ghost use Rattle.std.specs.Prelude.{◌≡◌, ◌<◌, ◌≤◌, [], drop, false, length, not, true, ℕ};
ghost use Rattle.wfe_core.specs.Desks.{Desk as ModelDesk};
ghost use Rattle.wfe_core.specs.Keep.{parting};
ghost use Rattle.wfe_core.specs.Posts.{cleared_from, counted};
ghost use Rattle.wfe_core.specs.Steps.{call_op, phase_turn};
ghost use Rattle.wfe_core.specs.Valid.{IsValid};
ghost use Rattle.wfe_core.specs.words.Schemes.{has_one_interval, publishes_rows};
ghost use Rattle.wfe_core.specs.Rounds.{scheme_of};
ghost use Rattle.wfe_drive_cells.specs.Operations.{performed, word_in};
ghost use Rattle.wfe_drive_seat.specs.Leaving.{is_marking};
ghost use Rattle.wfe_drive_seat.specs.Letting.{LettingFits, letting_phase};
ghost use Rattle.wfe_drive_seat.specs.declared.letting.Letting.TheVariants.{At, Span};

use wfe_core::{Event, Guard, Op, Post, SchemeKind, Told, publish_index, shown_word};
use wfe_drive_cells::Cells;

// What is to be let go next.
#[derive(Clone, Copy)]
enum Letting {
    // Nothing stands any more, and nothing is published.
    Nothing,
    // What stands at an index that publishes by itself.
    At { index: u32 },
    // The interval, and all that stands.
    Span,
}

// The first index from 2 on at which something stands.
fn first_standing(post: &Post) -> Letting
    requires valid { IsValid post.now }
    requires apart { has_one_interval (scheme_of post.now) ≡ false }
    ensures phase { letting_phase (publishes_rows (scheme_of post.now)) result ≡ parting post.now }
    ensures fits { LettingFits result post.now }
{
    for index in 2u32..8 {
        if post.standing[index as usize].is_some() {
            return Letting::At { index };
        }
    }
    Letting::Nothing
}

// What is to be let go next, by the table's scheme.
fn next_letting(post: &Post) -> Letting
    requires valid { IsValid post.now }
    ensures phase { letting_phase (publishes_rows (scheme_of post.now)) result ≡ parting post.now }
    ensures fits { LettingFits result post.now }
{
    match post.layout.config().scheme {
        SchemeKind::Ibr => match post.span {
            Some(_) => Letting::Span,
            None => Letting::Nothing,
        },
        _ => first_standing(post),
    }
}

// Whether index words publish rows.
fn has_rows(post: &Post) -> bool
    ensures { result ≡ publishes_rows (scheme_of post.now) }
{
    matches!(post.layout.config().scheme, SchemeKind::Hp)
}

// Lets go of what stands at an index: one store.
fn let_at<C: Cells>(cells: &mut C, post: &mut Post, index: u32, rows: bool, told: &mut Told)
    requires valid { IsValid post.old }
    requires index { index < post.old.layout.config.indexes }
    requires there { word_in (call_op (letting_phase rows (At index)) post.old) < length (C.words cells.old) }
    requires zero { post.old.steps ≡ 0 }
    requires empty { told.old ≡ [] }
    ensures words { C.words cells.new ≡ performed (C.words cells.old) (call_op (letting_phase rows (At index)) post.old) }
    ensures post { (desk : ModelDesk) (found : ℕ) → post.new ≡ (phase_turn (letting_phase rows (At index)) (counted post.old) desk found).post }
    ensures told { (desk : ModelDesk) (found : ℕ) → told.new ≡ (phase_turn (letting_phase rows (At index)) (counted post.old) desk found).told }
{
    let op = Op::Store {
        word: post.layout.index(post.seat, index),
        value: shown_word(rows, post, index, 0),
    };
    cells.perform(post.seat, op);
    if let Some(slot) = post.standing[index as usize] {
        told.push(Event::Clear { index, slot });
    }
    post.standing[index as usize] = None;
    post.steps = 1;
    publish_index(rows, post, told, index, 0);
}

// Tells Clear for each index from 2 on at which something stands.
#[tactic(auto, using(crate::proofs::Rows::cleared_here, crate::proofs::Rows::cleared_past))]
fn tell_cleared(post: &Post, told: &mut Told)
    requires valid { IsValid post.now }
    requires empty { told.old ≡ [] }
    ensures told { told.new ≡ cleared_from 2 (drop 2 post.now.standing) }
    ensures few { length told.new ≤ 6 }
{
    for index in 2u32..8 {
        if let Some(slot) = post.standing[index as usize] {
            told.push(Event::Clear { index, slot });
        }
    }
}

// Lets go of all that stands, and withdraws the interval: one store.
fn let_span<C: Cells>(cells: &mut C, post: &mut Post, told: &mut Told)
    requires valid { IsValid post.old }
    requires there { word_in (call_op (letting_phase (publishes_rows (scheme_of post.old)) Span) post.old) < length (C.words cells.old) }
    requires zero { post.old.steps ≡ 0 }
    requires empty { told.old ≡ [] }
    ensures words { C.words cells.new ≡ performed (C.words cells.old) (call_op (letting_phase (publishes_rows (scheme_of post.old)) Span) post.old) }
    ensures post { (desk : ModelDesk) (found : ℕ) → post.new ≡ (phase_turn (letting_phase (publishes_rows (scheme_of post.old)) Span) (counted post.old) desk found).post }
    ensures told { (desk : ModelDesk) (found : ℕ) → told.new ≡ (phase_turn (letting_phase (publishes_rows (scheme_of post.old)) Span) (counted post.old) desk found).told }
{
    let op = Op::Store {
        word: post.layout.interval(post.seat),
        value: 0,
    };
    cells.perform(post.seat, op);
    tell_cleared(post, told);
    post.standing = [None; 8];
    post.span = None;
    post.steps = 1;
    told.push(Event::Reserve {
        guard: Guard::Whole { seat: post.seat },
        span: None,
    });
}

// Lets go of what is to be let go next, if something is.
pub fn let_next<C: Cells>(cells: &mut C, post: &mut Post, told: &mut Told) -> bool
    requires valid { IsValid post.old }
    requires there { word_in (call_op (parting post.old) post.old) < length (C.words cells.old) }
    requires zero { post.old.steps ≡ 0 }
    requires empty { told.old ≡ [] }
    ensures more { result ≡ not (is_marking (parting post.old)) }
    ensures none { result ≡ false → C.words cells.new ≡ C.words cells.old }
    ensures still { result ≡ false → told.new ≡ [] }
    ensures words { result ≡ true → C.words cells.new ≡ performed (C.words cells.old) (call_op (parting post.old) post.old) }
    ensures post { result ≡ true → (desk : ModelDesk) (found : ℕ) → post.new ≡ (phase_turn (parting post.old) (counted post.old) desk found).post }
    ensures told { result ≡ true → (desk : ModelDesk) (found : ℕ) → told.new ≡ (phase_turn (parting post.old) (counted post.old) desk found).told }
    ensures desk { (desk : ModelDesk) (found : ℕ) → (phase_turn (parting post.old) (counted post.old) desk found).desk ≡ desk }
    ensures layout { post.new.layout ≡ post.old.layout }
{
    match next_letting(post) {
        Letting::Nothing => false,
        Letting::At { index } => {
            let rows = has_rows(post);
            let_at(cells, post, index, rows, told);
            true
        }
        Letting::Span => {
            let_span(cells, post, told);
            true
        }
    }
}
