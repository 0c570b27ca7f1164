// What the rule of the shared table says, each law the contract of a function that does nothing.
ghost use Rattle.wfe_drive_rule.specs.Ended.{HandlesEnd, SharedRule};
ghost use Rattle.wfe_drive_rule.specs.Standing.{HandlesStand, StepsTell};

/// Between any two steps of any threads a history of calls that begin and steps that are made comes to
/// the World that the table shows, which so has the invariant. The table's words are its memory, each
/// seat stands there as the view of its handle says, that seat's past begins the history, and a seat
/// that no view has has made no call.
pub fn tables_follow_histories()
    ensures { SharedRule }
{}

/// A history that goes on from its seat's past comes to a World in which a handle's seat stands, with
/// the call of its slot begun. What a step tells is what the operation of the seat finds in such a World.
pub fn handles_stand_in_histories()
    ensures stand { HandlesStand }
    ensures tell { StepsTell }
{}

/// Where one handle has as many seats as the table, all between calls, the words are those of such a
/// World, in which no call is under way, and each seat has one place among the handle's.
pub fn handles_end()
    ensures { HandlesEnd }
{}
