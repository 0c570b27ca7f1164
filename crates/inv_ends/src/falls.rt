// How many steps a call has left, and that they fall (`Falls.antt`). Each function here does nothing, and carries a theorem.

ghost use Rattle.inv_ends.specs.Falls.{LossesBegin, LossesKept, LossesStart, RestFalls, RestIsSmall, RestStays};

/// A step that does not end its call leaves fewer steps of the call than were left before it.
pub fn rest_falls()
    ensures { RestFalls }
{}

/// A step of another seat leaves no more steps of a call than were left before it.
pub fn rest_stays()
    ensures { RestStays }
{}

/// No call has 2^62 steps or more left, so that a count of 64 bits holds them.
pub fn rest_is_small()
    ensures { RestIsSmall }
{}

/// A call has lost no more rounds than its task may lose, from the start on, where a call begins, and
/// over each step; and only under 2GE an interval stands. A step that loses a round needs of the other
/// parts that the rounds are not yet used up.
pub fn rounds_are_few()
    ensures start { LossesStart }
    ensures begin { LossesBegin }
    ensures step { LossesKept }
{}
