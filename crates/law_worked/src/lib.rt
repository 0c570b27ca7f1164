//! Worked records that all laws take, and wrong ones (`Judges.antt`); worked runs. Of each wrong one it says which laws refuse
//! it: a file `Wrong..` for each kind of law. Each function here does nothing, and carries a theorem.
#![tactic(auto)]

pub mod runs;

ghost use Rattle.law_worked.specs.Full.{FullWorked};
ghost use Rattle.law_worked.specs.Helped.{HelpedWorked};
ghost use Rattle.law_worked.specs.Intervals.{IntervalsWorked};
ghost use Rattle.law_worked.specs.Kept.{KeptWorked};
ghost use Rattle.law_worked.specs.Moved.{MovedWorked};
ghost use Rattle.law_worked.specs.PutThenGet.{PutThenGetWorked};
ghost use Rattle.law_worked.specs.Queued.{QueuedWorked};
ghost use Rattle.law_worked.specs.Refusals.{ReadersJudge};
ghost use Rattle.law_worked.specs.RightEdits.{RightEditsTaken};
ghost use Rattle.law_worked.specs.Spent.{SpentWorked};
ghost use Rattle.law_worked.specs.WrongAnswers.{WrongAnswersRefused};
ghost use Rattle.law_worked.specs.WrongEras.{WrongErasRefused};
ghost use Rattle.law_worked.specs.WrongHolds.{WrongHoldsRefused};
ghost use Rattle.law_worked.specs.WrongNames.{WrongNamesRefused};
ghost use Rattle.law_worked.specs.WrongOrders.{WrongOrdersRefused};
ghost use Rattle.law_worked.specs.WrongRows.{WrongRowsRefused};
ghost use Rattle.law_worked.specs.WrongScans.{WrongScansRefused};
ghost use Rattle.law_worked.specs.WrongSteps.{WrongStepsRefused};
ghost use Rattle.law_worked.specs.WrongTurns.{WrongTurnsRefused};
ghost use Rattle.law_worked.specs.WrongValues.{WrongValuesRefused};

/// A plain reader, which looks at one line after another, takes a record exactly where the law of
/// records holds of it.
pub fn readers_judge()
    ensures { ReadersJudge }
{}

/// A put of a key, and a get of it.
pub fn a_put_then_a_get_is_worked()
    ensures { PutThenGetWorked }
{}

/// A scan keeps a row that another seat holds, and a later one gives it back.
pub fn a_kept_row_is_worked()
    ensures { KeptWorked }
{}

/// Under 2GE a reader raises its interval, and its row goes back once it has let go.
pub fn a_raised_interval_is_worked()
    ensures { IntervalsWorked }
{}

/// A mover of the clock answers a reader's request.
pub fn a_helped_reader_is_worked()
    ensures { HelpedWorked }
{}

/// Two values are queued and taken, and then the queue is empty.
pub fn queued_values_are_worked()
    ensures { QueuedWorked }
{}

/// A put finds no free row, and a later one does after a scan.
pub fn a_full_table_is_worked()
    ensures { FullWorked }
{}

/// A bucket and the queue have come to their last version and number.
pub fn spent_numbers_are_worked()
    ensures { SpentWorked }
{}

/// Another seat moves the clock first, and then the clock has come to its last era.
pub fn a_clock_that_others_move_is_worked()
    ensures { MovedWorked }
{}

/// Worked records, changed at a few lines, that each law takes.
pub fn other_records_are_taken()
    ensures { RightEditsTaken }
{}

/// Worked records, each wrong by a sentence on answers: the laws that refuse each of them.
pub fn wrong_answers_are_refused()
    ensures { WrongAnswersRefused }
{}

/// Worked records, each wrong by a sentence on eras: the laws that refuse each of them.
pub fn wrong_eras_are_refused()
    ensures { WrongErasRefused }
{}

/// Worked records, each wrong by a sentence on what is held: the laws that refuse each of them.
pub fn wrong_holds_are_refused()
    ensures { WrongHoldsRefused }
{}

/// Worked records, that name what the table does not have: the laws that refuse each of them.
pub fn wrong_names_are_refused()
    ensures { WrongNamesRefused }
{}

/// Worked records, that changed are not linearizable: no order of their calls serves, or a call tells what it was not made for; and the
/// other laws that refuse each of them.
pub fn wrong_orders_are_refused()
    ensures { WrongOrdersRefused }
{}

/// Worked records, each wrong by a sentence on calls, on what stands, or on the way of rows: the laws that refuse each of them.
pub fn wrong_rows_are_refused()
    ensures { WrongRowsRefused }
{}

/// Worked records, each wrong by a sentence on scans: the laws that refuse each of them.
pub fn wrong_scans_are_refused()
    ensures { WrongScansRefused }
{}

/// Worked records, each wrong by a sentence on steps: the laws that refuse each of them.
pub fn wrong_steps_are_refused()
    ensures { WrongStepsRefused }
{}

/// Worked histories, each wrong by a law on turns: the laws that refuse each of them.
pub fn wrong_turns_are_refused()
    ensures { WrongTurnsRefused }
{}

/// Worked records, each wrong by a sentence on the map or on the queue: the laws that refuse each of them.
pub fn wrong_values_are_refused()
    ensures { WrongValuesRefused }
{}
