// Which schemes, calls, answers and events a version has (`OfVersion.antt`). The records of a version have no others. The
// function here does nothing, and carries a theorem.

ghost use Rattle.law_printed.specs.OfVersion.{RecordsAreOf};

/// A record that keeps all laws of a scheme that the version has, and begins only calls that the version has, tells
/// only events and answers that the version has.
pub fn records_are_of_their_version()
    ensures { RecordsAreOf }
{}
