// Worked and wrong records under hazard pointers. The laws take each worked one; of each wrong one it says which laws refuse
// it. Each function here does nothing, and carries a theorem.

ghost use Rattle.law_worked_later.specs.Hazards.Crowded.{CrowdedTaken};
ghost use Rattle.law_worked_later.specs.Hazards.Followed.{FollowedTaken};
ghost use Rattle.law_worked_later.specs.Hazards.PutThenGet.{PutThenGetWorked};
ghost use Rattle.law_worked_later.specs.Hazards.RightEdits.{RightEditsTaken};
ghost use Rattle.law_worked_later.specs.Hazards.Seen.{SeenWorked};
ghost use Rattle.law_worked_later.specs.Hazards.WrongAnswers.{WrongAnswersRefused};
ghost use Rattle.law_worked_later.specs.Hazards.WrongHazards.{WrongHazardsRefused};
ghost use Rattle.law_worked_later.specs.Hazards.WrongHolds.{WrongHoldsRefused};
ghost use Rattle.law_worked_later.specs.Hazards.WrongScans.{WrongScansRefused};
ghost use Rattle.law_worked_later.specs.Hazards.WrongSteps.{WrongStepsRefused};
ghost use Rattle.law_worked_later.specs.Hazards.WrongTurns.{WrongTurnsRefused};

/// A put of a key, and a get of it.
pub fn a_put_then_a_get_is_worked()
    ensures { PutThenGetWorked }
{}

/// A hold whose row is changed between its two loads: a scan keeps the row that it published first, and a later one gives it back.
pub fn a_row_that_scans_see_is_worked()
    ensures { SeenWorked }
{}

/// A row is copied to a higher index and kept by that, and a value is queued and taken.
pub fn a_copied_row_is_taken()
    ensures { FollowedTaken }
{}

/// A put finds no free row, and a later one does after a scan.
pub fn a_full_table_is_taken()
    ensures { CrowdedTaken }
{}

/// Worked records, each wrong by a sentence on scans: the laws that refuse each of them.
pub fn wrong_scans_are_refused()
    ensures { WrongScansRefused }
{}

/// Worked records, each wrong by a sentence on what is published, or on eras: the laws that refuse each of them.
pub fn wrong_hazards_are_refused()
    ensures { WrongHazardsRefused }
{}

/// Worked records, each wrong by a sentence on what stands: the laws that refuse each of them.
pub fn wrong_holds_are_refused()
    ensures { WrongHoldsRefused }
{}

/// Worked records, each wrong by a sentence on steps: the laws that refuse each of them.
pub fn wrong_steps_are_refused()
    ensures { WrongStepsRefused }
{}

/// Worked records, each wrong by a sentence on answers: the laws that refuse each of them.
pub fn wrong_answers_are_refused()
    ensures { WrongAnswersRefused }
{}

/// Worked records, changed at a few lines, that each law takes.
pub fn other_records_are_taken()
    ensures { RightEditsTaken }
{}

/// Histories, each wrong by a sentence on turns: the laws that refuse each of them.
pub fn wrong_turns_are_refused()
    ensures { WrongTurnsRefused }
{}
