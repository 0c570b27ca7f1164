// What histories give a seat's code, and what a call leaves of its seat, each law the contract of a
// function that does nothing.
ghost use Rattle.std.specs.Prelude.{◌≡◌, List, ℕ, true};
ghost use Rattle.wfe_core.specs.Locals.{Local, begun, busy_in, stays};
ghost use Rattle.wfe_core.specs.defs.declared.call.Answer.{Answer};
ghost use Rattle.wfe_core.specs.defs.declared.call.Call.{Call};
ghost use Rattle.wfe_core.specs.declared.op.Op.{Op as Operation};
ghost use Rattle.wfe_drive_cells.specs.Unit.{shown};
ghost use Rattle.wfe_drive_words.specs.Comes.{Comes, Given};
ghost use Rattle.wfe_drive_words.specs.Ran.{Answered, Left};
ghost use Rattle.wfe_drive_words.specs.Readiness.{MayAsk, MayTake, Settles};

/// Where a history comes to a seat's state, the seat's code may ask for its operation, and in a call
/// of a seat that stays it may take what that operation finds there. A step of a call under way goes on or answers: where it goes on
/// the call is still under way, its answer is one that the call may have, and either way one step
/// more is counted.
pub fn histories_ready_seats()
    ensures asks { (l : Local) → Comes l → MayAsk (shown l) }
    ensures takes { (l : Local) (n : ℕ) → Given l n → busy_in l.phase ≡ true → stays l.call ≡ true → MayTake (shown l) n }
    ensures settles { (l : Local) (n : ℕ) (g : Given l n) → busy_in l.phase ≡ true → Settles l n g }
{}

/// A call that began and was answered leaves its seat between calls, in its place, and with one
/// group more in its log. Post and notes count one step for each operation, and the answer is one
/// that the call may have.
pub fn answers_leave_groups()
    ensures { (l : Local) (call : Call) (ops : List (Operation × ℕ)) (answer : Answer) (m : Local)
        → Answered (begun l call) ops answer m → Left l call ops answer m }
{}
