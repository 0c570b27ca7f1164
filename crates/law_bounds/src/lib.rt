//! Which rows are taken (`Rows.antt`), wait (`Scans.antt`, `Hazards.antt`), are kept (`Eras.antt`, `Kept.antt`); how many steps calls
//! take by what others do (`Gets.antt`, `Changes.antt`); lock-freedom (`Free.antt`).
//!
//! How far the queue's tail is behind is in `Tails.antt`, the steps of a leave in `Leaves.antt`.
//! They are of the record of each history, and follow from what histories keep; what callers are told of rows is in `Waits.antt`, all
//! bounds of rows together are in `Whole.antt`, those of steps in `Paces.antt`. Each function here does nothing, and carries a theorem.
#![tactic(auto)]

mod refusals;
mod steps;

ghost use Rattle.law_bounds.specs.Eras.{RecordsBoundStill, RecordsJudge};
ghost use Rattle.law_bounds.specs.Hazards.{RecordsBoundHazards, RecordsNeedRows};
ghost use Rattle.law_bounds.specs.Kept.{RecordsKeepFew};
ghost use Rattle.law_bounds.specs.Rows.{ClosesLoseNone, RecordsLoseNone, RecordsTakeFew};
ghost use Rattle.law_bounds.specs.Scans.{GoodLeaves, RecordsBoundScans};
ghost use Rattle.law_bounds.specs.Waits.{SeatsWaitFew, TablesCloseFew};
ghost use Rattle.law_bounds.specs.Whole.{HistoriesBounded};

pub use refusals::wrong_records_are_refused;
pub use steps::{
    changes_end, changes_go_on, histories_are_paced, histories_get_on, leaves_end, lock_free,
    reads_end, reads_go_on, seats_get_on, tails_keep_up, wrong_steps_are_refused,
};

/// After each history that leaves no call under way the taken rows are just the rows of the roots of the buckets that were
/// changed, the queue's rows with its dummy, and those on the lists, of seats that left too until another takes them over; each
/// of them once. So their number is the sum of these.
pub fn records_lose_none()
    ensures { RecordsLoseNone }
{}

/// So a table that is closed shows as many rows taken as buckets were changed, values are left with the dummy, and lives wait
/// on lists.
pub fn closes_lose_none()
    ensures { ClosesLoseNone }
{}

/// Whatever calls are under way, these rows are taken, and besides them each seat in a call has one at most in hand.
pub fn records_take_few()
    ensures { RecordsTakeFew }
{}

/// No row is twice on a list. Where a seat is in no call, something that its last block read keeps each life that the block
/// judged, and all others on its list came since. Where a call ends with a scan, and no guard published anything meanwhile,
/// its seat's list is empty.
pub fn records_bound_scans()
    ensures { RecordsBoundScans }
{}

/// So it is, but that no row is twice on a list, in each record that a check finds good.
pub fn good_records_leave_few()
    ensures { GoodLeaves }
{}

/// Under hazard pointers a list has, where its seat is in no call, at most one row for each guard, and one for each that the
/// seat retired since their number was a multiple of `every`, beside those that came with lists that it took over since its
/// last scan. Where no list was taken over it has never more than one row for each guard and `every`.
pub fn records_bound_hazards()
    ensures { RecordsBoundHazards }
{}

/// Under hazard pointers, where no list was taken over, no more rows are taken than one for each bucket, one for each value that
/// waits and the dummy, and for each seat one for each guard, `every`, and one in hand: wherever seats have stopped. So in a
/// table with more slots some row is free.
pub fn records_need_rows()
    ensures { RecordsNeedRows }
{}

/// Where guards publish eras, one that stands still keeps no row on a list that was given in a call which began once the clock
/// had passed its eras; and each row that it keeps was taken, or sought by the call that was given it, while the clock was one
/// of them.
pub fn records_bound_still()
    ensures { RecordsBoundStill }
{}

/// Where guards publish eras, and a seat is in no call, its last block has read for each life on its list that it judged an
/// interval that meets the life; and the row was taken, or sought by the call that was given it, while the clock was one of
/// that interval's eras.
pub fn records_judge()
    ensures { RecordsJudge }
{}

/// Where guards publish eras: while the clock stays at an era, but at the last, each seat retires at most `every` rows. What an interval
/// keeps of all lists was there at a position while the clock had not passed it, in a bucket, in the queue or in hand, or was given
/// to a call that had begun by then, or was retired before it, while the clock was one of its eras. So while its eras are before the
/// last one it keeps at most one row for each bucket, one for each value that waits and the dummy, two for each seat, and for each of its
/// eras `every` for each seat; and a scan leaves at most so many for each guard that it read, by what that published.
pub fn records_keep_few()
    ensures { RecordsKeepFew }
{}

/// What waits for a seat that has ended its last call, and has not left. No row is twice on its list; something that its last scan
/// read keeps each row that the scan judged, so none is left of these where nothing was published; of the others fewer than `every`
/// came by retirements, and no more with lists that it took over than its calls were answered since the last that only scans. Under
/// hazard pointers at most one row for each guard waits, and `every` but one, beside those that came with lists.
pub fn seats_wait_few()
    ensures { SeatsWaitFew }
{}

/// What waits on all lists of a table whose seats have ended their calls. No row is lost, so just as many are taken as buckets were
/// changed, values are left with the dummy, and rows wait on lists. Under hazard pointers these are at most one for each guard and
/// `every` but one, for each seat, beside those that came with lists.
pub fn tables_close_few()
    ensures { TablesCloseFew }
{}

/// All of these that hold of the record of each history, in one statement.
pub fn histories_are_bounded()
    ensures { HistoriesBounded }
{}
