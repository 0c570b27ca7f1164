// Worked and wrong records of seats that leave and lists taken over. The laws take each worked one; of each wrong one it says
// which laws refuse it. Each function here does nothing, and carries a theorem.

ghost use Rattle.law_worked_later.specs.Leaves.HandedOver.{HandedOverWorked};
ghost use Rattle.law_worked_later.specs.Leaves.PassedOn.{PassedOnWorked};
ghost use Rattle.law_worked_later.specs.Leaves.WrongAnswers.{WrongAnswersRefused};
ghost use Rattle.law_worked_later.specs.Leaves.WrongLists.{WrongListsRefused};
ghost use Rattle.law_worked_later.specs.Leaves.WrongRows.{WrongRowsRefused};

/// A seat lets go of its rows and leaves, and another seat, which came too early before, takes its list
/// over and gives its row back.
pub fn a_list_handed_over_is_worked()
    ensures { HandedOverWorked }
{}

/// Under 2GE a seat withdraws its interval with all its rows at once and leaves; its list goes on from the
/// seat that took it over to a third one.
pub fn a_list_passed_on_is_worked()
    ensures { PassedOnWorked }
{}

/// Worked records, each wrong by a sentence on what calls of leaving answer: the laws that refuse each of them.
pub fn wrong_answers_are_refused()
    ensures { WrongAnswersRefused }
{}

/// Worked records, each wrong by a sentence on lists that are left and taken over: the laws that refuse each of them.
pub fn wrong_lists_are_refused()
    ensures { WrongListsRefused }
{}

/// Worked records, each wrong by a sentence on rows that a seat lets go of where it leaves, or on what goes back: the laws that
/// refuse each of them.
pub fn wrong_rows_are_refused()
    ensures { WrongRowsRefused }
{}
