// Which eras are told (`Eras/Records.antt`), and which calls answer. Each function here does nothing, and carries a theorem.

ghost use Rattle.law_reasons.specs.Eras.Current.{ClockBetween};
ghost use Rattle.law_reasons.specs.Eras.Records.{RecordClock, RecordsAdvance, RecordsGiveCurrent, RecordsKeepEras, RecordsKeepGuards, RecordsKeepKinds, RecordsNameGuards, RecordsReserveCurrent, RecordsRetireCurrent};
ghost use Rattle.law_scans.specs.Records.{RecordsKeepTimes};

/// The clock's word is 1 plus the number of Era entries.
pub fn record_clock()
    ensures { RecordClock }
{}

/// The k-th Era entry is of era k + 1, at most the last one. A guard is told to publish nothing, or
/// eras up to the clock, and one era alone but under 2GE. No birth era is after the clock. A row is
/// retired with the birth era of its last Give, and with a retire era from there up to the clock.
pub fn records_keep_eras()
    ensures { RecordsKeepEras }
{}

/// Where retirements do not move the clock, only an Advance moves it, once at most.
pub fn records_advance()
    ensures { RecordsAdvance }
{}

/// Guards are told to publish rows, and scans to have read rows, of index words, where the scheme
/// publishes rows; where it does not, both are of intervals.
pub fn records_keep_kinds()
    ensures { RecordsKeepKinds }
{}

/// A seat tells only what its own guards publish, but for one case under Wait-Free Eras: that an
/// index word publishes the interval which the seat's own helper word then publishes. It tells rows
/// of its own index words alone.
pub fn records_keep_guards()
    ensures { RecordsKeepGuards }
{}

/// An era was the clock at a position after an entry just where it lies between the clock there and
/// the present one.
pub fn clock_between()
    ensures { ClockBetween }
{}

/// A row's birth era was the clock somewhere in the call that the row is given to.
pub fn records_give_current()
    ensures { RecordsGiveCurrent }
{}

/// A row is retired with a retire era that was the clock at a position after the seat has told its
/// cut.
pub fn records_retire_current()
    ensures { RecordsRetireCurrent }
{}

/// The upper end of what a guard is told to publish was the clock at a position of the call that
/// tells it, whichever guard it is: an own index, helper or interval word, or the index word that a
/// mover of the clock hands over. A copy alone may publish an older one: the interval that the index
/// word publishes from which it copies.
pub fn records_reserve_current()
    ensures { RecordsReserveCurrent }
{}

/// Each guard that is told to publish, or that a scan reads, is one of the table, and of a kind that
/// its scheme has.
pub fn records_name_guards()
    ensures { RecordsNameGuards }
{}

/// An era that another moved the clock to is later than the clock where the call began, or where it
/// has retired a row since, and at most the clock where it ends; a last era is the clock where it
/// ends.
pub fn records_keep_times()
    ensures { RecordsKeepTimes }
{}
