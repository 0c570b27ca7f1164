//! That a check finds lawful what a replay prints (`Printed.antt`). That is so where the work is done, and what is printed no
//! longer than a record may be. And of which version the lines of a trace are, with the calls that their record begins; how
//! many rows wait in each seat's list (`ListCounts/Counted.antt`); and that lines of a record are read back
//! (`ReadBack/Printed.antt`). Each function here does nothing, and carries a theorem.
#![tactic(auto)]

mod lists;
mod read_back;
mod versions;

ghost use Rattle.law_printed.specs.Printed.{PrintsLawful};
ghost use Rattle.law_printed.specs.Versions.{GivenOfVersion, RecordsBegin};

pub use lists::records_count_lists;
pub use read_back::{lawful_is_only, lawful_is_read, printed_is_read};
pub use versions::records_are_of_their_version;

/// What a replay of a trace prints where its work is done, and where that is no longer than a record may be, is a record
/// that a check finds lawful.
pub fn prints_a_lawful_record()
    ensures { PrintsLawful }
{}

/// The lines that a trace gives are of a version that is read: their setting has its number of pairs and a scheme of it,
/// and they begin only calls that it has.
pub fn lines_are_of_their_version()
    ensures { GivenOfVersion }
{}

/// The record of lines begins only calls of their version, and these name only indexes and places of the setting.
pub fn records_begin_calls_of_their_lines()
    ensures { RecordsBegin }
{}
