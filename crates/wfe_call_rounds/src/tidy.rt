// The clock is moved, where the scheme has it moved, and then the retire list is scanned.
ghost use Rattle.std.specs.Prelude.{◌≡◌, ◌≤◌, [], length};
ghost use Rattle.wfe_core.specs.Calls.{AfterScan};
ghost use Rattle.wfe_core.specs.DeskHeld.{HasRoom, desk_of};
ghost use Rattle.wfe_core.specs.Rounds.{helps as do_help, scheme_of, tidy_by};
ghost use Rattle.wfe_core.specs.Steps.{after_move, call_op, phase_turn};
ghost use Rattle.wfe_core.specs.Valid.{IsValid};
ghost use Rattle.wfe_core.specs.declared.post.Post.{Post as ModelPost};
ghost use Rattle.wfe_core.specs.defs.declared.call.ClockMove.TheVariants.{Still};
ghost use Rattle.wfe_call_rounds.specs.Tidies.{IsTidyPlausible, IsTidyReady, tidy_op_ready, tidy_phase, tidy_turn};

use wfe_core::{ClockMove, Desk, Machine, Op, Post, Told};
use wfe_help::MoveClock;
use wfe_scan::Scanner;

/// A move of the clock, where there is one, and then a scan, with the outcome of the move. What comes
/// after it is the call's matter.
#[derive(Drop)]
pub enum Tidy {
    Moves(MoveClock),
    Scans(ClockMove, Scanner),
}

impl Tidy {
    /// A tidying that has made no step. Where nothing `moves` the clock, which stands still, it begins
    /// with the scan; the move answers pending requests first where it `helps`.
    pub fn new(moves: bool, helps: bool) -> Tidy
        ensures { (later : AfterScan) (post : ModelPost) → helps ≡ do_help (scheme_of post) → after_move later Still ≡ later → tidy_phase later result ≡ tidy_by moves later post }
    {
        if moves {
            Tidy::Moves(MoveClock::new(helps))
        } else {
            Tidy::Scans(ClockMove::Still, Scanner::new())
        }
    }

    /// The operation that it asks for.
    pub fn next_op(&self, post: &Post) -> Op
        requires valid { IsValid post.now }
        requires ready { tidy_op_ready self.now post.now }
        ensures { (later : AfterScan) → result ≡ call_op (tidy_phase later self.now) post.now }
    {
        match self {
            Tidy::Moves(machine) => machine.next_op(post),
            Tidy::Scans(_, scanner) => scanner.next_op(post),
        }
    }

    /// Takes what that operation found, and tells its events. It answers with the outcome of the
    /// move, in eras, where the scan is over.
    pub fn take(
        &mut self,
        post: &mut Post,
        desk: &mut Desk,
        found: u64,
        told: &mut Told,
    ) -> Option<ClockMove>
        requires valid { IsValid post.old }
        requires room { HasRoom desk.old post.old.layout }
        requires ready { IsTidyReady self.old post.old (desk_of desk.old) }
        requires plausible { IsTidyPlausible self.old post.old found }
        requires empty { told.old ≡ [] }
        ensures turn { (later : AfterScan) → phase_turn (tidy_phase later self.old) post.old (desk_of desk.old) found ≡ tidy_turn later post.new (desk_of desk.new) told.new result self.new }
        ensures valid { IsValid post.new }
        ensures layout { post.new.layout ≡ post.old.layout }
        ensures seat { post.new.seat ≡ post.old.seat }
        ensures room { HasRoom desk.new post.new.layout }
        ensures notes { (desk_of desk.new).notes ≡ (desk_of desk.old).notes }
        ensures few { length told.new ≤ 2 }
    {
        match self {
            Tidy::Moves(machine) => {
                let clock = machine.take(post, found, told)?;
                *self = Tidy::Scans(clock, Scanner::new());
                None
            }
            Tidy::Scans(clock, scanner) => {
                if scanner.take(post, desk, found, told) {
                    return Some(*clock);
                }
                None
            }
        }
    }
}
