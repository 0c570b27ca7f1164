//! Which rows calls are given, link, cut, retire; which scan (`Records.antt`); turns of protections. In which order they do;
//! which calls move the clock, and what they answer of it. How many turns of its seat a protection takes is in
//! `Turns/Records.antt`. Each function here does nothing, and carries a theorem.
#![tactic(auto)]

mod tries;

ghost use Rattle.law_scans.specs.Places.{RecordsCountRetires, RecordsKeepOrder, RecordsLinkNexts, RecordsPlaceRows, RecordsRefuse, RecordsRetireCuts, RecordsRetireOne};
ghost use Rattle.law_scans.specs.Records.{RecordsAnswerPlainly, RecordsCountPlainly, RecordsKeepOutcomes, RecordsMovePlainly, RecordsMoveWhereDue, RecordsRetireFew, RecordsScanPlainly, RecordsScanWhereDue};

pub use tries::{
    handovers_meet, hazards_count, loads_count, protections_count, protections_end,
    protections_last, records_withdraw_next, tries_count, turns_find_last, withdrawals_follow,
};

/// A call that only scans reads each guard once. A call in which the number of its seat's
/// retirements became a multiple of `every` does so once after that. A put, a remove or an enqueue
/// may do so once more before it is given a row. No guard is read elsewhere.
pub fn records_scan_where_due()
    ensures { RecordsScanWhereDue }
{}

/// The clock is moved only by an Advance, or in a call before one of its scans, which then has to
/// come; once at most for each.
pub fn records_move_where_due()
    ensures { RecordsMoveWhereDue }
{}

/// What a call answers of the clock: that it is still, just where it is no Advance and the number of
/// its seat's retirements did not become a multiple of `every` in it; an era that it moved the clock
/// to, just where it has told that era; that another moved it or that the last era is reached, only
/// where it has told none since it had to.
pub fn records_keep_outcomes()
    ensures { RecordsKeepOutcomes }
{}

/// No more rows are retired than the map was changed and values were taken, which is at most
/// `last_version` times for each bucket and for the queue, so that a count of 64 bits has room for
/// all.
pub fn records_retire_few()
    ensures { RecordsRetireFew }
{}

/// The count by which scans and moves of the clock come due, which stops at the greatest number of
/// 64 bits, is at each position the number of rows that its seat has retired.
pub fn records_count_plainly()
    ensures { RecordsCountPlainly }
{}

/// A call that only scans reads each guard once, and one in which the number of its seat's
/// retirements became a multiple of `every` does so once after that, however many there were. A call
/// may do so once more before it is given a row.
pub fn records_scan_plainly()
    ensures { RecordsScanPlainly }
{}

/// The clock is moved only by an Advance, or in a call before one of these scans.
pub fn records_move_plainly()
    ensures { RecordsMovePlainly }
{}

/// A call answers that the clock is still just where it is no Advance and the number of its seat's
/// retirements did not become a multiple of `every` in it.
pub fn records_answer_plainly()
    ensures { RecordsAnswerPlainly }
{}

/// A call is given one row at most. Where it ends, that row was linked by it, or told unused by the
/// same seat, and not both. What it links at a bucket's root or at a next link is that row, and it
/// has not linked it before.
pub fn records_place_rows()
    ensures { RecordsPlaceRows }
{}

/// After a link to a bucket's root the next entries, of the same seat, are the cut of the row that the
/// root had, if it had one, and a change of the bucket; after a link to a next link a value queued;
/// after a link to the head the cut of the row that the head had, and a value taken. Cuts and changes
/// come nowhere else.
pub fn records_keep_order()
    ensures { RecordsKeepOrder }
{}

/// A row is linked at a next link only while that is null, what the head is linked to is the next row
/// of the head's row, and what the tail is linked to is the next row of the tail's row.
pub fn records_link_nexts()
    ensures { RecordsLinkNexts }
{}

/// A row is retired only by a call that has cut it and not retired it since, and where a call ends
/// it has retired each row that it has cut.
pub fn records_retire_cuts()
    ensures { RecordsRetireCuts }
{}

/// Where a call ends it has retired one row if it took a value, or if it changed a bucket that was
/// changed before, so that its version is above 1; and else none.
pub fn records_count_retires()
    ensures { RecordsCountRetires }
{}

/// A call retires one row at most, and only a put, a remove or a dequeue retires one.
pub fn records_retire_one()
    ensures { RecordsRetireOne }
{}

/// Only a call that answers Done, Queued or Taken has told a change of the map or of the queue, or a
/// link that is not to the tail. So a refused call has told none.
pub fn records_refuse()
    ensures { RecordsRefuse }
{}
