// Which records are good (`Good.antt`), and one entry more (`Fits.antt`). That is what is judged of a record by itself,
// without the history that made it. No history is named here. Each function does nothing, and carries a theorem.

ghost use Rattle.laws.specs.Fits.{BlankIsGood, GoodGrows};
ghost use Rattle.laws.specs.Good.{CutsAreGood, LawfulIsGood};

/// A good record that is cut after any entry is good.
pub fn cuts_are_good()
    ensures { CutsAreGood }
{}

/// A record that keeps all laws is good, by the laws of the versions from 2 on: so the record of each history is.
pub fn lawful_is_good()
    ensures { LawfulIsGood }
{}

/// The record of no entry is good.
pub fn blank_is_good()
    ensures { BlankIsGood }
{}

/// A record with one entry more is good exactly where it was good and the entry meets each test at its position.
pub fn good_grows()
    ensures { GoodGrows }
{}
