// When a guard covers a row (`Covering/Covers.antt`), and what stands where. These are parts of the invariant. Each function here does
// nothing, and carries a theorem.

ghost use Rattle.inv_rows.specs.Covering.Covers.{CoversKept, NotReused, ScansBegin, ScansKept, ScansStart};
ghost use Rattle.inv_rows.specs.Covering.Held.{GuardsFit, HandedCovers, HandedKept, HeldBegin, HeldKept, HeldStart, HelpersFirst, HelpersFit, LoadsCover, StandingStays};
ghost use Rattle.inv_rows.specs.Covering.Parents.{ParentsBegin, ParentsGive, ParentsKept, ParentsStart};
ghost use Rattle.inv_rows.specs.Covering.Rests.{RestsBegin, RestsGive, RestsKept, RestsStart, SpansRest};

/// A row that a guard covers stays covered by it over each step of any seat that does not take from
/// what the guard publishes: the row's life meets the guard's interval, and each scan that has the
/// row on its list has met that life or has not come to the guard.
pub fn covers_stay()
    ensures { CoversKept }
{}

/// No step makes a row free that a guard covers, and no step claims it.
pub fn covered_rows_stay()
    ensures { NotReused }
{}

/// What a scan gives back meets nothing that it read, from the start on and over every step and every
/// call that begins.
pub fn scans_give_back_unmet()
    ensures start { ScansStart }
    ensures begin { ScansBegin }
    ensures step { ScansKept }
{}

/// Where no seat helps another, what stands at an index of a seat is covered by the guard of that index,
/// and so is what a try has loaded while its era is the clock: from the start on, and over every step
/// and every call that begins.
pub fn rows_are_held()
    ensures start { HeldStart }
    ensures begin { HeldBegin }
    ensures step { HeldKept }
{}

/// Where a row stands at an index of a seat, no step of any seat makes it free, and none claims it.
pub fn standing_rows_stay()
    ensures { StandingStays }
{}

/// A scan reads the guard of each index of each seat of the table, under its number, and under
/// Wait-Free Eras each helper word, before all index words: what a guard covers each later one covers
/// that publishes the same.
pub fn guards_are_read()
    ensures own { GuardsFit }
    ensures helpers { HelpersFit }
    ensures first { HelpersFirst }
    ensures handed { HandedCovers }
    ensures kept { HandedKept }
{}

/// Nothing stands at an index whose guard publishes something else in the next step, from the start
/// on, and over every step and every call that begins; and nothing stands at all where a seat that
/// leaves marks its place. Under 2GE nothing stands where no interval does.
pub fn guards_rest()
    ensures start { RestsStart }
    ensures begin { RestsBegin }
    ensures step { RestsKept }
    ensures gives { RestsGive }
    ensures spans { SpansRest }
{}

/// Where no seat helps another, the row whose next link is followed stands at index 0, from the start on,
/// and over every step and every call that begins.
pub fn followed_rows_stand()
    ensures start { ParentsStart }
    ensures begin { ParentsBegin }
    ensures step { ParentsKept }
    ensures gives { ParentsGive }
{}

/// The row of a link that is loaded is covered by each guard that publishes an interval up to the
/// clock, or that row, under every scheme: where the link is a root, or the next link of a row in the
/// queue.
pub fn loads_cover()
    ensures { LoadsCover }
{}
