// Worked and wrong records of copies, looks, drops, puts at a version. The laws take each worked one; of each wrong one it
// says which laws refuse it. Each function here does nothing, and carries a theorem.

ghost use Rattle.law_worked_later.specs.Copies.AtVersion.{AtVersionWorked};
ghost use Rattle.law_worked_later.specs.Copies.Copied.{CopiedWorked};
ghost use Rattle.law_worked_later.specs.Copies.CopiedAnew.{CopiedAnewWorked};
ghost use Rattle.law_worked_later.specs.Copies.KeptTwice.{KeptTwiceWorked};
ghost use Rattle.law_worked_later.specs.Copies.WrongCopies.{WrongCopiesRefused};
ghost use Rattle.law_worked_later.specs.Copies.WrongLooks.{WrongLooksRefused};
ghost use Rattle.law_worked_later.specs.Copies.WrongOrders.{WrongOrdersRefused};
ghost use Rattle.law_worked_later.specs.Copies.WrongVersions.{WrongVersionsRefused};

/// A row is copied to a higher index, let go at the lower one, looked at while another is in its
/// place, and dropped.
pub fn a_copied_row_is_worked()
    ensures { CopiedWorked }
{}

/// Under 2GE a row stands at two indexes under one interval.
pub fn a_row_kept_twice_is_worked()
    ensures { KeptTwiceWorked }
{}

/// A later version is copied to where an earlier one stands.
pub fn a_row_copied_anew_is_worked()
    ensures { CopiedAnewWorked }
{}

/// Puts that name the version at which they are done.
pub fn puts_at_a_version_are_worked()
    ensures { AtVersionWorked }
{}

/// Worked records, each wrong by a sentence on copies or on what is dropped: the laws that refuse each of them.
pub fn wrong_copies_are_refused()
    ensures { WrongCopiesRefused }
{}

/// Worked records, each wrong by a sentence on what copies, drops and looks answer: the laws that refuse each of them.
pub fn wrong_looks_are_refused()
    ensures { WrongLooksRefused }
{}

/// Worked records, each wrong by a sentence on puts that name a version: the laws that refuse each of them.
pub fn wrong_versions_are_refused()
    ensures { WrongVersionsRefused }
{}

/// A record that is not linearizable: a look shows the pairs of another row than it keeps.
pub fn wrong_orders_are_refused()
    ensures { WrongOrdersRefused }
{}
