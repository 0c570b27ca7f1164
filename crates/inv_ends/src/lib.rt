//! What steps tell of rows (`Told.antt`), how machines end, whence links come, steps left (`Falls.antt`). And the covers of
//! rows in the slow path of Wait-Free Eras, from the word of a helper to the word of the seat that asked (`Helped.antt`). Each
//! function here does nothing, and carries a theorem.
#![tactic(auto)]

mod falls;
mod tracked;

ghost use Rattle.inv_ends.specs.Births.{GivenBegin, GivenKept, GivenStart, RetiresGiven};
ghost use Rattle.inv_ends.specs.Lists.{AdoptsAlone, AdoptsTold, LeftTold, ListsTold, MarkedTold, NoneTaken};
ghost use Rattle.inv_ends.specs.Moves.{MeetingBegin, MeetingKept, MeetingStart, MetAnswered, MetOpen};
ghost use Rattle.inv_ends.specs.Nulls.{NullTold};
ghost use Rattle.inv_ends.specs.Standing.{ClearStood, CopiedCovered, CopiedStands, CopiedTold, HeldCovered, HeldStands, HeldTold, StandingTold};
ghost use Rattle.inv_ends.specs.Told.{NoReuse, RowsTold, RowsWere};
ghost use Rattle.inv_ends.specs.Walks.{FullSeen, SeenTaken, WalkingBegin, WalkingKept, WalkingStart};
ghost use Rattle.inv_ends.specs.Handover.{AnsweredRowsStay, FollowedRowsStand, HandoverBegin, HandoverKept, HandoverStart};

pub use falls::{rest_falls, rest_is_small, rest_stays, rounds_are_few};
pub use tracked::{
    ends_are_tracked, held_links_stay, links_give, links_hold, origins_hold, tracked_links_came,
};

/// What a step tells of rows is its move of rows: which row is given, unused, retired or back. A row
/// that is given was free, and one that is unused or back was the seat's own. A row is retired with
/// its birth era and with a clock value that was loaded once it was cut.
pub fn rows_are_told()
    ensures told { RowsTold }
    ensures were { RowsWere }
{}

/// A step tells that a list is left exactly where it marks its seat's place as left, with the length of the
/// seat's list, and then the end of its call. It tells that a list is taken over exactly where it finds a
/// place so marked, with the length of the list that was left there, and nothing besides; and its move of
/// rows takes that list over, which comes at the end of the seat's own. Where it finds no such list, or has
/// marked the list, it tells the end of its call.
pub fn lists_are_told()
    ensures told { ListsTold }
    ensures left { LeftTold }
    ensures adopts { AdoptsTold }
    ensures alone { AdoptsAlone }
    ensures none { NoneTaken }
    ensures marked { MarkedTold }
{}

/// Where a row stands at an index of a seat, no step of any seat tells that it is given, unused or
/// back.
pub fn no_row_is_reused()
    ensures { NoReuse }
{}

/// A row is retired with the birth era under which it was given last: from the start on, and over
/// every step and every call that begins, that is the birth era of each row that has one.
pub fn births_are_told()
    ensures start { GivenStart }
    ensures begin { GivenBegin }
    ensures step { GivenKept }
    ensures retired { RetiresGiven }
{}

/// A step tells Null exactly where the link is null by which it concludes a protection: the link of
/// a try whose era is the clock, that of the answer, or one that hazard pointers load.
pub fn nulls_are_told()
    ensures { NullTold }
{}

/// A step tells that a row stands at an index exactly where it makes it stand, and the row stands
/// there from then on, covered by the guard of the index. It tells that a row is copied exactly where
/// it copies it, upwards, and the row stands at both indexes from then on, covered by the guard of the
/// second. What it tells to stand no more stood there. At each index stands what was told last of it.
pub fn standing_rows_are_told()
    ensures held { HeldTold }
    ensures stands { HeldStands }
    ensures covered { HeldCovered }
    ensures copied { CopiedTold }
    ensures copies { CopiedStands }
    ensures guards { CopiedCovered }
    ensures cleared { ClearStood }
    ensures standing { StandingTold }
{}

/// Each slot that a walk has passed was taken at a step of this walk: from the start on, and over
/// every step and every call that begins. A walk that ends with Full has seen each row taken.
pub fn walks_see_rows_taken()
    ensures start { WalkingStart }
    ensures begin { WalkingBegin }
    ensures step { WalkingKept }
    ensures full { FullSeen }
    ensures taken { SeenTaken }
{}

/// Where a mover of the clock comes to exchange the clock, no request that it has seen pending on its
/// way is pending any more: each has an answer, or its tag has risen. So from the start on, and over
/// every step and every call that begins.
pub fn moves_meet_requests()
    ensures start { MeetingStart }
    ensures begin { MeetingBegin }
    ensures step { MeetingKept }
    ensures seen { MetOpen }
    ensures answered { MetAnswered }
{}

/// Under Wait-Free Eras what stands at an index of a seat is covered by the word of that index, over
/// every step of every seat. From a load on the row is covered by the word of the seat that loaded
/// the link: by a helper word until the answer is handed over or taken, and then by the index word.
pub fn answers_are_covered()
    ensures start { HandoverStart }
    ensures begin { HandoverBegin }
    ensures step { HandoverKept }
{}

/// A row that a word holds is neither made free nor claimed by the next step of any seat: one that
/// stands, one that a try or a turn has loaded, and one that an answer leads to.
pub fn answered_rows_stay()
    ensures { AnsweredRowsStay }
{}

/// Under every scheme the row whose next link a dequeue follows stands at index 0 of its seat.
pub fn parents_of_links_stand()
    ensures { FollowedRowsStand }
{}
