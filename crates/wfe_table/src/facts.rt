// What the rule of the shared table says of versions and numbers, and what a call that was made says of its steps. Each function here
// does nothing, and carries a theorem.
ghost use Rattle.wfe_table.specs.Ruled.{TablesMeet};
ghost use Rattle.wfe_table.specs.Steps.{CallsKeepPace};

/// Between any two steps of any threads: each version that a seat has seen of a bucket is at most the
/// bucket's, its pairs are those of that version, and the numbers that it has met of the queue are at
/// most those of the present tail and head.
pub fn seats_meet_no_more_than_there_is()
    ensures { TablesMeet }
{}

/// A get or a hold takes no more steps than the moves of the clock during it allow, or under hazard pointers the changes of its
/// bucket's root, under each scheme but Wait-Free Eras, whose bounds hold whatever others do; a put, a put at a version, a remove, an
/// enqueue and a dequeue no more than the changes of their bucket or of the queue during it, and the moves of the clock.
pub fn calls_keep_pace()
    ensures { CallsKeepPace }
{}
