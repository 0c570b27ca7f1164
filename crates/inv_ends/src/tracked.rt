// Where the links come from that protections end with (`Tracked.antt`). And what is true of them. Each function here does
// nothing, and carries a theorem.

ghost use Rattle.inv_ends.specs.Links.{HeldLinksStay, LinksBegin, LinksGive, LinksKept, LinksStart, TrackedTried};
ghost use Rattle.inv_ends.specs.Origins.{AnswerTracked, EndComes, EndGood, EndRoot, EndsWith, OriginsBegin, OriginsKept, OriginsStart, TrackedCame};

/// A link that is tracked for a seat after a step was tracked before, for the same root, or the step
/// loads it from that root. Tracked are the links that the seat's protection carries while their era
/// is the clock, the answer to its request, and those that movers have loaded for it.
pub fn tracked_links_came()
    ensures { TrackedCame }
{}

/// What is true of each root and link when the link is loaded, and stays true over each step while
/// the link is tracked, is true of all links that are tracked: from the start on, and over every step
/// and every call that begins.
pub fn origins_hold()
    ensures start { OriginsStart }
    ensures begin { OriginsBegin }
    ensures step { OriginsKept }
{}

/// A protection ends where it has checked a link, and that link was tracked, or is the one that its
/// root leads to now: it is of the root that its call is after, and leads to the row that it holds, or
/// is null. And the answer that a seat finds in its request is a link that was tracked.
pub fn ends_are_tracked()
    ensures ends { EndsWith }
    ensures comes { EndComes }
    ensures good { EndGood }
    ensures root { EndRoot }
    ensures answers { AnswerTracked }
{}

/// Each link that is tracked for a seat is null or leads to a row that fits its root: a row that was
/// linked last to that bucket; a row that was in the queue since it was claimed last; or the row
/// after the one that is followed. So from the start on, and over every step and every call.
pub fn links_hold()
    ensures start { LinksStart }
    ensures begin { LinksBegin }
    ensures step { LinksKept }
{}

/// So a row that a get or a change has protected was linked to its bucket last, and an answer that a
/// request has leads to a row of the queue, or to the row after the one that is followed.
pub fn links_give()
    ensures { LinksGive }
{}

/// Where no seat helps another, each link that is tracked was loaded by a try of its seat, whose guard
/// holds the row: so no step takes or frees it.
pub fn held_links_stay()
    ensures tried { TrackedTried }
    ensures stay { HeldLinksStay }
{}
