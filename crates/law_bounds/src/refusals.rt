// That wrong records break the bounds (`WrongRecords.antt`). The function here does nothing, and carries a theorem.

ghost use Rattle.law_bounds.specs.WrongRecords.{WrongRefused};

/// Each of the wrong records is refused by the sentence that it breaks.
pub fn wrong_records_are_refused()
    ensures { WrongRefused }
{}
