// How many steps calls take by what others do meanwhile: gets and holds by the moves of the clock, or the changes of their bucket's
// root; puts, removes, enqueues and dequeues by the changes of their bucket, or of the queue; leaves by what they let go of; and that
// something is done among so many turns, whichever seats take them. Each function here does nothing, and carries a theorem of each
// history.

ghost use Rattle.law_bounds.specs.Changes.{ChangesEnd, ChangesGoOn};
ghost use Rattle.law_bounds.specs.Free.{HistoriesGetOn, LockFree, SeatsGetOn};
ghost use Rattle.law_bounds.specs.Gets.{ReadsEnd, ReadsGoOn};
ghost use Rattle.law_bounds.specs.Leaves.{LeavesEnd};
ghost use Rattle.law_bounds.specs.Paces.{HistoriesPaced};
ghost use Rattle.law_bounds.specs.Tails.{TailsKeepUp};
ghost use Rattle.law_bounds.specs.WrongSteps.{WrongRefused};

/// Under Hazard Eras and 2GE a get takes at most three steps for each move of the clock during the call and three, and `pairs + 6`
/// more; a hold as many, and 4 more. Under hazard pointers these are two steps for each change of its bucket's root, and two. So it
/// is told where the call ends.
pub fn reads_end()
    ensures { ReadsEnd }
{}

/// So many turns at most has the seat of such a call taken, wherever a history stands in it.
pub fn reads_go_on()
    ensures { ReadsGoOn }
{}

/// A put, a remove, an enqueue and a dequeue take at most a round's steps for each change of their bucket during the call, or of the
/// queue, and two rounds'; three steps for each move of the clock; and what comes once in a call. So it is told where the call ends.
pub fn changes_end()
    ensures { ChangesEnd }
{}

/// So many turns at most has the seat of such a call taken, wherever a history stands in it.
pub fn changes_go_on()
    ensures { ChangesGoOn }
{}

/// A leave takes a step for each row that it lets go of, and one, whatever others do; under 2GE, where one step lets go of all, two at
/// most. So it is told where it ends.
pub fn leaves_end()
    ensures { LeavesEnd }
{}

/// The queue's tail is behind by the last value queued at most: each other one it has gone on to. So between two values queued it goes on
/// once at most.
pub fn tails_keep_up()
    ensures { TailsKeepUp }
{}

/// Where a seat takes more turns than a number by the setting, wherever the others stand, something is done meanwhile, by it or by
/// another: a call ends, a bucket is changed, a value is queued or taken, or the clock is moved. That the tail goes on is none.
pub fn seats_get_on()
    ensures { SeatsGetOn }
{}

/// So it is among so many turns for each seat, whichever seats take them: the calls are lock-free, under each scheme.
pub fn lock_free()
    ensures { LockFree }
{}

/// So wherever a history stands, no more turns have been taken since something was done.
pub fn histories_get_on()
    ensures { HistoriesGetOn }
{}

/// What is told where calls end, of all calls in one statement.
pub fn histories_are_paced()
    ensures { HistoriesPaced }
{}

/// Each of the wrong records is refused by the sentence that it breaks, and not by the law of steps; so are wrong histories,
/// which tell nothing for ever, or move the tail for ever.
pub fn wrong_steps_are_refused()
    ensures { WrongRefused }
{}
