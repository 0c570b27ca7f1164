// Worked runs, and wrong ones, each refused by one bullet of their law. Each function here does nothing, and carries a
// theorem.

ghost use Rattle.law_worked.specs.RunRecords.Crowded.{CrowdedWorked};
ghost use Rattle.law_worked.specs.RunRecords.Handed.{HandedWorked};
ghost use Rattle.law_worked.specs.RunRecords.Hazards.{HazardsWorked};
ghost use Rattle.law_worked.specs.RunRecords.Kept.{KeptWorked};
ghost use Rattle.law_worked.specs.RunRecords.Loose.{LooseTaken};
ghost use Rattle.law_worked.specs.RunRecords.Readers.{ReadersJudge};
ghost use Rattle.law_worked.specs.RunRecords.Shared.{SharedWorked};
ghost use Rattle.law_worked.specs.RunRecords.Spent.{SpentWorked};
ghost use Rattle.law_worked.specs.RunRecords.WrongAnswers.{WrongAnswersRefused};
ghost use Rattle.law_worked.specs.RunRecords.WrongEras.{WrongErasRefused};
ghost use Rattle.law_worked.specs.RunRecords.WrongLists.{WrongListsRefused};
ghost use Rattle.law_worked.specs.RunRecords.WrongLooks.{WrongLooksRefused};
ghost use Rattle.law_worked.specs.RunRecords.WrongQueues.{WrongQueuesRefused};
ghost use Rattle.law_worked.specs.RunRecords.WrongRises.{WrongRisesRefused};
ghost use Rattle.law_worked.specs.RunRecords.WrongRows.{WrongRowsRefused};
ghost use Rattle.law_worked.specs.RunRecords.WrongTexts.{WrongTextsRefused};
ghost use Rattle.law_worked.specs.RunRecords.WrongVersions.{WrongVersionsRefused};

/// A plain reader takes a run exactly where the law of runs holds of it, and a bullet of it exactly
/// where that bullet's law does; the law leaves no choice of the changes, the values and their number.
pub fn readers_judge()
    ensures { ReadersJudge }
{}

/// Two seats change one bucket in turn, queue and take values, and give rows back.
pub fn a_shared_table_is_worked()
    ensures { SharedWorked }
{}

/// Two seats come to the last version, to the last number and to the last era.
pub fn spent_versions_are_worked()
    ensures { SpentWorked }
{}

/// Two seats fill a bucket and the table.
pub fn a_crowded_table_is_worked()
    ensures { CrowdedWorked }
{}

/// A seat keeps two versions of a bucket, copies and looks at them, and another puts at versions.
pub fn kept_rows_are_worked()
    ensures { KeptWorked }
{}

/// A list that a seat leaves goes by way of another seat to a third one.
pub fn a_list_handed_over_is_worked()
    ensures { HandedWorked }
{}

/// Under hazard pointers rows are kept while they stand, and changes leave the clock alone.
pub fn hazards_are_worked()
    ensures { HazardsWorked }
{}

/// Runs that are wrong by a sentence on answers: that bullet alone refuses each of them.
pub fn wrong_answers_are_refused()
    ensures { WrongAnswersRefused }
{}

/// The same of sentences on versions and pairs.
pub fn wrong_versions_are_refused()
    ensures { WrongVersionsRefused }
{}

/// The same of versions that a seat tells one after another.
pub fn wrong_rises_are_refused()
    ensures { WrongRisesRefused }
{}

/// The same of sentences on copies and looks.
pub fn wrong_looks_are_refused()
    ensures { WrongLooksRefused }
{}

/// The same of sentences on the queue.
pub fn wrong_queues_are_refused()
    ensures { WrongQueuesRefused }
{}

/// The same of rows that are given and free again.
pub fn wrong_rows_are_refused()
    ensures { WrongRowsRefused }
{}

/// The same of retire lists, and of those that are left and taken over.
pub fn wrong_lists_are_refused()
    ensures { WrongListsRefused }
{}

/// The same of sentences on eras.
pub fn wrong_eras_are_refused()
    ensures { WrongErasRefused }
{}

/// Lines that are of no run.
pub fn wrong_texts_are_refused()
    ensures { WrongTextsRefused }
{}

/// Runs that no history leaves, and that the law takes: what it does not say.
pub fn loose_runs_are_taken()
    ensures { LooseTaken }
{}
