// What a seat's log is by the record (`Records.antt`). And what the answers in it say of the map and of the queue
// (`Answered.antt`): which versions and numbers a seat has met (`Versions.antt`). Each function here does nothing, and carries
// a theorem.

ghost use Rattle.law_all.specs.Logs.Records.{LogsAreCut, LogsExtend, RecordReads, RecordsGrow, RecordsKeepLogs, TurnsLeaveNotes};

/// A turn of a seat leaves the notes of its call as they were. What the turn tells is noted where the
/// seat is settled.
pub fn turns_leave_notes()
    ensures { TurnsLeaveNotes }
{}

/// The log of each seat, the notes of its last call, and whether it is in a call and in which, are
/// what the record of the history says.
pub fn records_keep_logs()
    ensures { RecordsKeepLogs }
{}

/// What a seat keeps of the guards that it read in its last scan is what its last block has read by
/// the record.
pub fn record_reads()
    ensures { RecordReads }
{}

/// The record of a history begins with the record of its first items.
pub fn records_grow()
    ensures { RecordsGrow }
{}

/// A group in a log is an End of the record, at a position where the log was what comes before it.
/// This holds of each record.
pub fn logs_are_cut()
    ensures { LogsAreCut }
{}

/// What the calls of a log have met, with one call more: a version or number that its answer tells
/// takes the place of the one before.
pub fn logs_extend()
    ensures { LogsExtend }
{}
