// How many rows wait in each seat's retire list (`ListCounts/Counted.antt`). The function here does nothing, and carries a theorem.

ghost use Rattle.law_printed.specs.ListCounts.Counted.{RecordsCountLists};

/// What is counted of a seat's list from what is told, a row more at each Retire, one less at each Back,
/// and all of another seat's where it takes over that list, is how many entries the list has.
pub fn records_count_lists()
    ensures { RecordsCountLists }
{}
