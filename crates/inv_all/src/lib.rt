//! The invariant whole (`Known.antt`), in each World of a history, and of its parts what rows of map and queue hold and calls have
//! read (`Contents/Knows.antt`). What the whole gives there, how machines end (`Outcomes.antt`), and how few rounds a call loses. Each
//! function here does nothing, and carries a theorem.
#![tactic(auto)]

mod row_contents;

ghost use Rattle.inv_all.specs.Ends.{InvEnds};
ghost use Rattle.inv_all.specs.Finish.{CallsFinish};
ghost use Rattle.inv_all.specs.Histories.{InvReached, ReachedReady};
ghost use Rattle.inv_all.specs.Inv.{InvBegin, InvCopies, InvKept, InvReady, InvStart, InvStays, InvTells};
ghost use Rattle.inv_all.specs.Joins.{InvJoins, JoinsFit, ListingAdds};
ghost use Rattle.inv_all.specs.Outcomes.{MachinesEnd};
ghost use Rattle.inv_all.specs.Places.{InvPlaceMoves, InvPlaces};
ghost use Rattle.inv_all.specs.Shows.{InvShows, InvTimes};
ghost use Rattle.inv_all.specs.Rounds.{RoundsBegin, RoundsGive, RoundsKept, RoundsStart};

pub use row_contents::{
    bounded_begin, bounded_kept, bounded_start, buckets_show, calls_begin, calls_read,
    changes_know, contents_begin, contents_kept, contents_looked, contents_start, contents_told,
    empty_right, items_begin, items_count, items_kept, items_start, items_told, last_number,
    mute_books, stands_begin, stands_kept, stands_start, work_finds_fit,
};

/// The invariant holds at the start of a table with a valid setting.
pub fn inv_start()
    ensures { InvStart }
{}

/// A call that begins on a seat that is not busy keeps it, where it names indexes that it may name.
pub fn inv_begin()
    ensures { InvBegin }
{}

/// Each step of a seat of the table keeps it.
pub fn inv_kept()
    ensures { InvKept }
{}

/// The code of a seat's next step has what it needs: its word is in the table, and what it knows and
/// what it finds is in range.
pub fn inv_ready()
    ensures { InvReady }
{}

/// Each World that a history comes to has the invariant, whatever calls begin and whichever seats
/// make their steps.
pub fn inv_reached()
    ensures { InvReached }
{}

/// In each such World the code of each seat may make its next step.
pub fn reached_ready()
    ensures { ReachedReady }
{}

/// What a step tells of the map and of the queue is right by what was told before it, and so is what a
/// look answers.
pub fn inv_tells()
    ensures { InvTells }
{}

/// A row that stands at an index of a seat is covered by the guard of that index, and no step of any
/// seat makes it free or claims it.
pub fn inv_stays()
    ensures { InvStays }
{}

/// Between the two steps of a copy the index word that is copied publishes the era, or the link, that was
/// found, and what stands at that index still stands.
pub fn inv_copies()
    ensures { InvCopies }
{}

/// A protection of Wait-Free Eras has made no more steps than it may, each step of a move of the
/// clock leaves fewer, and the clock waits for a pending request.
pub fn inv_times()
    ensures { InvTimes }
{}

/// The words show each bucket's last version and its pairs, no more was taken than queued, and where
/// the head's row has no next link all that was queued was taken.
pub fn inv_shows()
    ensures { InvShows }
{}

/// A seat that is busy has not left, and its list is its own. A list that another seat has taken over is
/// empty, as is one that a seat is to mark so; nothing stands at a seat that is to leave its list. A step of
/// a busy seat changes a place word only where it leaves its list, takes one over or marks it; so a list
/// stays its seat's until another takes it over.
pub fn inv_places()
    ensures shows { InvPlaces }
    ensures moves { InvPlaceMoves }
{}

/// Where the list of a seat that makes no call goes to the end of that of another such seat, and neither has
/// left, the invariant is kept; both lists together have no row twice, and each row is one of the table's.
pub fn inv_joins()
    ensures keeps { InvJoins }
    ensures fits { JoinsFit }
    ensures adds { ListingAdds }
{}

/// Each step that does not end its call leaves it fewer steps, no step leaves another call more, and
/// no call has 2 ^ 62 steps left: so each call ends, whatever other seats do.
pub fn inv_ends()
    ensures { InvEnds }
{}

/// In each World that a history comes to: a walk for a free row ends with Full only where each row
/// was seen taken at a step of this walk; a mover of the clock exchanges it only where no request
/// that it saw pending is pending any more; a row that a step holds or copies is covered by the guard
/// of its index; and a row that is given, unused, retired or back was free or the seat's own.
pub fn machines_end()
    ensures { MachinesEnd }
{}

/// Whatever calls other seats begin and whichever steps they make: among items that have more steps of
/// a seat than its call has left, the call ends.
pub fn calls_finish()
    ensures { CallsFinish }
{}

/// At the start no call has lost a round.
pub fn rounds_start()
    ensures { RoundsStart }
{}

/// A call begins with no round lost.
pub fn rounds_begin()
    ensures { RoundsBegin }
{}

/// Each step keeps it: a put or a remove has lost no more rounds than its bucket was changed, an
/// enqueue no more than rows were queued and the tail was moved, a dequeue no more than rows were taken
/// and the tail was moved, each with one more for a walk that failed; and where a call goes on with a
/// root whose word is another by now, one round more may be lost. Where rows are published this is so of
/// a get and a hold too, each attempt of a protection is a round, and one that loads another link than
/// it has published is lost.
pub fn rounds_kept()
    ensures { RoundsKept }
{}

/// So a call that loses a round has not lost as many as its task may.
pub fn rounds_give()
    ensures { RoundsGive }
{}
