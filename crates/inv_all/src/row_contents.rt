// What rows of map and queue hold, and calls have read (`Contents/Knows.antt`). It is a part of the invariant. Each function here does
// nothing, and carries a theorem.

ghost use Rattle.inv_all.specs.Contents.Bounded.{BoundedBegin, BoundedKept, BoundedStart};
ghost use Rattle.inv_all.specs.Contents.Buckets.{BucketsShow, ChangesKnow};
ghost use Rattle.inv_all.specs.Contents.Contents.{ContentsBegin, ContentsKept, ContentsStart};
ghost use Rattle.inv_all.specs.Contents.Gives.{EmptyRight, ItemsCount, ItemsTold, LastNumber, WorkFinds};
ghost use Rattle.inv_all.specs.Contents.Items.{ItemsBegin, ItemsKept, ItemsStart};
ghost use Rattle.inv_all.specs.Contents.Stands.{StandsBegin, StandsKept, StandsStart};
ghost use Rattle.inv_all.specs.Contents.Told.{ContentsLooked, ContentsTold};
ghost use Rattle.inv_all.specs.Contents.Turns.{CallsBegin, CallsRead, MuteBooks};

/// At the start of a table each bucket is empty, no seat knows anything of a row, and none stands.
pub fn contents_start()
    ensures { ContentsStart }
{}

/// The beginning of a call keeps what rows of the map show, and what seats know of them.
pub fn contents_begin()
    ensures { ContentsBegin }
{}

/// Each step of a seat keeps it: a row that a bucket's root leads to, or led to until it was cut,
/// shows the version under which it was linked and the bucket's pairs at that version; the root
/// leads to the row of the last version, and is null while nothing was changed. What a get or a
/// change has read of a row is what the row shows, what a change writes are the pairs that it read
/// with the change, and where it exchanges the root they are those of the bucket's last version
/// with the change. A row that was linked behind another in the queue shows its number and the value
/// that was queued under it. A row that stands at an index from 2 on was linked to a bucket last, and
/// what a look has read of it is what it shows.
pub fn contents_kept()
    ensures { ContentsKept }
{}

/// What a step tells of the map is right by the changes told before it: a get tells a version that
/// there was, and its key's value among the pairs at that version; a put or a remove tells the next
/// version of its key's bucket; an enqueue tells the next number.
pub fn contents_told()
    ensures { ContentsTold }
{}

/// A look answers the version under which the row that it looks at was linked to its bucket, and the
/// key's value among the bucket's pairs at that version.
pub fn contents_looked()
    ensures { ContentsLooked }
{}

/// A bucket's root is null exactly while the bucket was not changed. Else the row that it leads to
/// has the number of the changes as its version, the number of the pairs that they make, and at the
/// places of the n-th key and value those of the n-th pair.
pub fn buckets_show()
    ensures { BucketsShow }
{}

/// A change that has read a row, or found none, and whose link is still in the root, has decided
/// upon the bucket's last version and its pairs with the change.
pub fn changes_know()
    ensures { ChangesKnow }
{}

/// At the start no call works on a row.
pub fn stands_start()
    ensures { StandsStart }
{}

/// A call begins with no row.
pub fn stands_begin()
    ensures { StandsBegin }
{}

/// Each step of a seat keeps it: what a get or a change has read of, and the row of the queue that a
/// call found at the tail or at the head, stand at index 0 as long as the call works on them, the row
/// after the head that a dequeue has followed stands at index 1, and what a look has read of stands
/// at the index that it looks at.
pub fn stands_kept()
    ensures { StandsKept }
{}

/// Events other than a value queued or taken, a put and a remove leave what the book says of the
/// queue and of the changes of buckets.
pub fn mute_books()
    ensures { MuteBooks }
{}

/// A call begins with nothing read of the queue.
pub fn calls_begin()
    ensures { CallsBegin }
{}

/// A step that exchanges no root, no next link and not the head tells nothing of the queue and of the
/// changes of buckets; and where what it finds is what the row shows, so is what its call has read
/// from then on.
pub fn calls_read()
    ensures { CallsRead }
{}

/// At the start the dummy alone is in the queue, with number 0, and nothing was queued.
pub fn items_start()
    ensures { ItemsStart }
{}

/// A call begins with nothing read of the queue.
pub fn items_begin()
    ensures { ItemsBegin }
{}

/// Each step of a seat keeps it: a row that was in the queue since it was claimed last shows its
/// number and the value queued under it; the last row's number is the count of all values queued, and
/// the head's that of all taken; and what an enqueue or a dequeue has read of such a row still holds.
pub fn items_kept()
    ensures { ItemsKept }
{}

/// An enqueue that finds the tail's next link null has read the count of all values queued.
pub fn last_number()
    ensures { LastNumber }
{}

/// Where the head's row has no next link, all values that were queued were taken.
pub fn empty_right()
    ensures { EmptyRight }
{}

/// No more values were taken than queued, and no more queued than there are numbers.
pub fn items_count()
    ensures { ItemsCount }
{}

/// What a step tells of the queue is right by what was told before it: an enqueue tells the next
/// number, and a dequeue the first number that was not taken, with the value queued under it.
pub fn items_told()
    ensures { ItemsTold }
{}

/// At the start no bucket was changed.
pub fn bounded_start()
    ensures { BoundedStart }
{}

/// The beginning of a call changes no bucket.
pub fn bounded_begin()
    ensures { BoundedBegin }
{}

/// Each step keeps the number of each bucket's versions, and the number of its pairs at each of them,
/// within the setting.
pub fn bounded_kept()
    ensures { BoundedKept }
{}

/// What a step of a call's own finds of a row's version, number or count of pairs is in range.
pub fn work_finds_fit()
    ensures { WorkFinds }
{}
