//! All that histories keep (`Whole.antt`), and the law of runs (`RunLaw.antt`). What the answers in a seat's log say
//! (`Answers.antt`), and what the logs of all seats, and the table that they leave, say together. Each function here does
//! nothing, and carries a theorem.
#![tactic(auto)]

mod answered;

ghost use Rattle.law_all.specs.Answers.{CallsAnswer, ChangesAreRead, GetsAgree, HoldsSeeNothing, LogsAnswer, LogsGrow, LogsMeet, LogsRise, LogsTakeFewSteps, ScansTellBacks};
ghost use Rattle.law_all.specs.Runs.{RunsAddUp, RunsAgree, RunsAreLawful, RunsHaveOrder, RunsKeep, RunsList, RunsTick};
ghost use Rattle.law_all.specs.Whole.{HistoriesLawful};
ghost use Rattle.law_held.specs.Steps.Records.{RecordsCountTries, RecordsRaiseEras, RecordsRaiseSpans, RecordsRaiseTries};

pub use answered::{
    logs_are_cut, logs_extend, record_reads, records_grow, records_keep_logs, turns_leave_notes,
};

/// Each history of a table with a valid setting is lawful, whatever calls begin and whichever seats
/// make their steps. The list of items is any: an item that does not fit does nothing, and the first
/// items of a list, up to any place, are a list of items too. So each prefix of a history is a
/// history, and it is lawful as it stands.
pub fn histories_are_lawful()
    ensures { HistoriesLawful }
{}

/// What calls of all seats tell of the map, of the queue, of rows and of eras adds up to what the
/// record has.
pub fn runs_add_up()
    ensures { RunsAddUp }
{}

/// What answers say of the map and of the queue is so by the record, and within a seat it rises.
pub fn runs_agree()
    ensures { RunsAgree }
{}

/// What a copy and a look answer is right by what their seat keeps: a look shows the row that a hold
/// found, by way of copies or not, at a version no earlier than those that the seat told of the bucket
/// before that hold, and each look at that row shows the same version.
pub fn runs_keep()
    ensures { RunsKeep }
{}

/// What answers say of the clock is so by the record, and within a seat eras rise.
pub fn runs_tick()
    ensures { RunsTick }
{}

/// What goes back is on the list of the seat that gives it back, in the list's order; that list has the lists that the seat
/// took over, each of which was left, by a seat that makes no call after that, and was taken over once.
pub fn runs_list()
    ensures { RunsList }
{}

/// The calls of seats that are all between calls, each seat's in its own order, are in one order in which a map and a queue, used by one
/// call after another, give the same answers, and come to what the record has there: linearizability (Herlihy and Wing, TOPLAS 1990).
pub fn runs_have_order()
    ensures { RunsHaveOrder }
{}

/// The logs of seats that are all between calls, and what the record has there, meet the law of runs.
pub fn runs_are_lawful()
    ensures { RunsAreLawful }
{}

/// Under Hazard Eras the number in a Held or Null is one more than three times the number of eras that the index
/// word has published before that entry, since it published nothing, and for a row held at index 1 one more still;
/// and each of these eras is later than the one before it.
pub fn records_count_tries()
    ensures { RecordsCountTries }
{}

/// The eras that are told of an index word rise until it publishes nothing, but for those that a seat tells
/// under Wait-Free Eras while its helper word publishes.
pub fn records_raise_tries()
    ensures { RecordsRaiseTries }
{}

/// The eras that a seat whose helper word publishes nothing tells of an index word rise until that
/// publishes nothing: under Hazard Eras in each protection, under Wait-Free Eras in the tries of
/// each.
pub fn records_raise_eras()
    ensures { RecordsRaiseEras }
{}

/// An interval of 2GE begins with one era. Until it is withdrawn its lower end is kept, and each
/// change raises its upper end.
pub fn records_raise_spans()
    ensures { RecordsRaiseSpans }
{}

/// Each call in a seat's log: its answer says what is so of its bucket or of the queue, at a version
/// or number no older than those where it began; and what its seat had met before is no newer than
/// these. Where it ends, the row that a hold answers stands at index 2 of its seat. A call that is
/// answered Full was given no row and has read each guard, and since then each row was taken. What a
/// copy answers stands at both indexes; what a look answers stands at its index, and shows the version
/// and the value; after a release or a drop nothing stands there. Where a seat has left, nothing stands
/// at it, and it has told how long its list is. A list that is taken over had been left, and not been
/// taken over; then it comes last in the list of the seat that takes it over, and is none at its own.
pub fn logs_answer()
    ensures { LogsAnswer }
{}

/// The versions and numbers that a seat has met are at most those that the record counts.
pub fn logs_meet()
    ensures { LogsMeet }
{}

/// Two gets of a key that answer the same version tell the same value, whichever seats made them.
pub fn gets_agree()
    ensures { GetsAgree }
{}

/// Where a get answers the version of a put, at a version or not, or a remove that is done, in the
/// same bucket, it tells what that change left: of the change's own key the value put, or none; and
/// of each other key its value at the version before. The two calls may be of one seat or of two.
pub fn changes_are_read()
    ensures { ChangesAreRead }
{}

/// The first call that a seat ends after a World in which it is in none: its answer says what is so,
/// at a version or number no older than those in that World.
pub fn calls_answer()
    ensures { CallsAnswer }
{}

/// A hold answers Nothing only where its seat had seen no version of the key's bucket: where the
/// calls of the seat before it told none, or told 0.
pub fn holds_see_nothing()
    ensures { HoldsSeeNothing }
{}

/// A log only grows: after more items it begins with what it was.
pub fn logs_grow()
    ensures { LogsGrow }
{}

/// The versions and numbers that a seat has met never fall.
pub fn logs_rise()
    ensures { LogsRise }
{}

/// A scan in a seat's log answers how many rows went back in it: as many as its notes tell.
pub fn scans_tell_backs()
    ensures { ScansTellBacks }
{}

/// Each call in a seat's log, whatever the other seats did meanwhile: a release and a drop take one
/// step; a copy that is made two where index words publish, and any other one; a look that
/// finds nothing one, and any other three at most and one for each pair that a bucket may have; a
/// call that only scans one for each guard and one for each row that its notes say went back; an
/// advance `7 * seats + 3` at most under Wait-Free Eras, and else two at most. Under Wait-Free Eras a
/// hold takes `3 * tries + 16` at most, and a get `3 * tries + 18` and one for each pair that a
/// bucket may have.
pub fn logs_take_few_steps()
    ensures { LogsTakeFewSteps }
{}
