//! Why calls answer what they do (`Records.antt`); which eras are told (`Eras/Records.antt`). With how often calls begin anew.
//! Each function here does nothing, and carries a theorem.
#![tactic(auto)]

mod dates;

ghost use Rattle.law_reasons.specs.Records.{RecordsKeepFull, RecordsKeepLacks, RecordsKeepReasons, RecordsKeepRepeats, RecordsScanForRoom, RecordsStayInRange};

pub use dates::{
    clock_between, record_clock, records_advance, records_give_current, records_keep_eras,
    records_keep_guards, records_keep_kinds, records_keep_times, records_name_guards,
    records_reserve_current, records_retire_current,
};

/// Where a call ends, in the record of any history, its answer has its reason in the record: a change
/// was refused, or made, as the pairs of its bucket at a version current during the call say; the
/// queue's numbers are spent; a dequeue found all taken at a position of its call; a hold found a
/// bucket that had not been changed; what was held stands, or stands no more; nothing stands at a seat
/// that left; and a list that was not taken over had not been left at a position of the call, or
/// another call had taken it over.
pub fn records_keep_reasons()
    ensures { RecordsKeepReasons }
{}

/// A call that still seeks a row, a put, a remove or an enqueue that was given none, reads a guard
/// only where each row was taken at a position of this call before.
pub fn records_scan_for_room()
    ensures { RecordsScanForRoom }
{}

/// A call that answers Full was given no row and has read each guard once; and since the last row
/// that went back then, or the last guard that it read, each row was taken at a position.
pub fn records_keep_full()
    ensures { RecordsKeepFull }
{}

/// A call that answers Full lacks nothing but a row: a put or a remove could have been made at a
/// version of its bucket that was current during the call, and an enqueue had a number left at a
/// position of it.
pub fn records_keep_lacks()
    ensures { RecordsKeepLacks }
{}

/// A call tells once at most that its root was found, and once more for each change of the bucket of
/// a put or a remove since it began, for each value queued and each link to the tail since an enqueue
/// began, for each value taken and each link to the tail since a dequeue began; and once more where
/// it has made a scan.
pub fn records_keep_repeats()
    ensures { RecordsKeepRepeats }
{}

/// Each entry is of a seat of the table, and the indexes, rows, buckets and places that it tells of are
/// those of the table. No list that is left or taken over has more entries than there are rows.
pub fn records_stay_in_range()
    ensures { RecordsStayInRange }
{}
