// That the laws follow from what histories keep (`Letter/Letters.antt`). These are lemmas on records alone. The function here does
// nothing, and carries a theorem.

ghost use Rattle.law_reuse.specs.Letter.Letters.{LawsFollow};

/// A record that keeps what is proved of each history keeps each sentence of the laws. No history is named: the laws are
/// tests of records.
pub fn laws_follow()
    ensures { LawsFollow }
{}
