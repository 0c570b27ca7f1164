// A row that was cut is retired, and then, when that is due, the clock is moved, where the scheme has
// it moved, and the list scanned.
ghost use Rattle.std.specs.Prelude.{◌≡◌, ◌≤◌, ◌==◌, ◌%◌, [], length};
ghost use Rattle.wfe_core.specs.words.Schemes.{moves as do_move};
ghost use Rattle.wfe_core.specs.defs.declared.call.Answer.{Answer};
ghost use Rattle.wfe_core.specs.defs.declared.call.ClockMove.TheVariants.{Still};
ghost use Rattle.wfe_core.specs.Calls.{Retires, Runs};
ghost use Rattle.wfe_core.specs.DeskHeld.{HasRoom, desk_of};
ghost use Rattle.wfe_core.specs.Phases.Base.{Retire as Retiring};
ghost use Rattle.wfe_core.specs.Phases.RetireAt.{LoadLife};
ghost use Rattle.wfe_core.specs.Rounds.{helps as do_help, with_clock};
ghost use Rattle.wfe_core.specs.Steps.{call_op, phase_turn};
ghost use Rattle.wfe_core.specs.Valid.{IsValid};
ghost use Rattle.wfe_call_rounds.specs.Reclaims.{IsReclaimPlausible, IsReclaimReady, reclaim_op_ready, reclaim_phase, reclaim_turn};

use crate::Tidy;
use wfe_core::{ClockMove, Desk, Machine, Op, Post, Told};
use wfe_retire::Retire;

/// The retirement of a row that the call cut, and then, after each so many retirements of the seat, a
/// tidying.
#[derive(Drop)]
pub enum Reclaim {
    Retires(Retire),
    Tidies(Tidy),
}

impl Reclaim {
    /// A retirement of the row that has made no step.
    pub fn new(slot: u32) -> Reclaim
        ensures { (answer : Answer) → reclaim_phase answer result ≡ Runs (Retires answer) (Retiring (LoadLife slot)) }
    {
        Reclaim::Retires(Retire::new(slot))
    }

    /// The operation that it asks for.
    pub fn next_op(&self, post: &Post) -> Op
        requires valid { IsValid post.now }
        requires ready { reclaim_op_ready self.now post.now }
        ensures { (answer : Answer) → result ≡ call_op (reclaim_phase answer self.now) post.now }
    {
        match self {
            Reclaim::Retires(machine) => machine.next_op(post),
            Reclaim::Tidies(tidy) => tidy.next_op(post),
        }
    }

    /// Takes what that operation found, and tells its events. It answers where all is done, with the
    /// outcome of the move, in eras; `Still` where no move was due. `moves` is whether the scheme has the
    /// clock moved, and `helps` whether its movers answer pending requests.
    pub fn take(
        &mut self,
        moves: bool,
        helps: bool,
        post: &mut Post,
        desk: &mut Desk,
        found: u64,
        told: &mut Told,
    ) -> Option<ClockMove>
        requires valid { IsValid post.old }
        requires moves { moves ≡ do_move post.old.layout.config.scheme }
        requires helps { helps ≡ do_help post.old.layout.config.scheme }
        requires room { HasRoom desk.old post.old.layout }
        requires ready { IsReclaimReady self.old post.old (desk_of desk.old) }
        requires plausible { IsReclaimPlausible self.old post.old found }
        requires empty { told.old ≡ [] }
        ensures turn { (answer : Answer) → with_clock answer Still ≡ answer → phase_turn (reclaim_phase answer self.old) post.old (desk_of desk.old) found ≡ reclaim_turn answer post.new (desk_of desk.new) told.new result self.new }
        ensures valid { IsValid post.new }
        ensures layout { post.new.layout ≡ post.old.layout }
        ensures seat { post.new.seat ≡ post.old.seat }
        ensures room { HasRoom desk.new post.new.layout }
        ensures notes { (desk_of desk.new).notes ≡ (desk_of desk.old).notes }
        ensures few { length told.new ≤ 2 }
    {
        match self {
            Reclaim::Retires(machine) => {
                let life = machine.take(post, found, told)?;
                desk.list.add(life);
                if is_due(post) {
                    *self = Reclaim::Tidies(Tidy::new(moves, helps));
                    return None;
                }
                Some(ClockMove::Still)
            }
            Reclaim::Tidies(tidy) => tidy.take(post, desk, found, told),
        }
    }
}

// The seat has retired so many rows that the clock is moved.
fn is_due(post: &Post) -> bool
    requires { IsValid post.now }
    ensures { result ≡ (post.now.retired % post.now.layout.config.every == 0) }
{
    post.retired % post.layout.config().every as u64 == 0
}
