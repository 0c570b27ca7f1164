//! What stands, where it was found, what guards publish then (`Records.antt`); what numbers of steps count. The last, and when
//! help is asked for, is in `Steps/Records.antt`. Each function here does nothing, and carries a theorem.
#![tactic(auto)]

mod counts;

ghost use Rattle.law_held.specs.Records.{RecordsClearRows, RecordsCopyRows, RecordsFindRoots, RecordsFindSources, RecordsFollowHead, RecordsFollowNexts, RecordsHoldAlone, RecordsHoldThroughout, RecordsLinkHeld, RecordsRestGuards, RecordsTellRows, RecordsUseIndexes};

pub use counts::{
    records_ask_late, records_keep_ends, records_keep_helpers, records_keep_raises,
    records_show_late, records_take_late,
};

/// Where a seat links a row at a root, the row that the root had stands at its index 0; where it links
/// one behind a row of the queue, that row does. What the head is linked to stands at its index 1, and
/// so does what a dequeue links the tail to.
pub fn records_link_held()
    ensures { RecordsLinkHeld }
{}

/// A call that works on a bucket or on the queue, but for a hold, has told at index 0 where it ends
/// that the row of its root stands, or that there is none.
pub fn records_find_roots()
    ensures { RecordsFindRoots }
{}

/// Where a seat tells at index 1 that a row stands, the row that the head has stands at its index 0,
/// and where it tells there that there is none, some row does.
pub fn records_follow_head()
    ensures { RecordsFollowHead }
{}

/// What a call tells at an index other than 1, that a row stands or that there is none, its root had
/// at a position of the call: its key's bucket, the tail for an enqueue, the head for a dequeue.
pub fn records_find_sources()
    ensures { RecordsFindSources }
{}

/// A get that tells version 0 of its bucket has found none at its index 0. Where it tells a later
/// version, the row that was linked at the bucket's root for the change of that version stands at the
/// get's index 0.
pub fn records_tell_rows()
    ensures { RecordsTellRows }
{}

/// Where a seat tells at index 1 that a row stands, it is the next row of the row that the head has.
/// Where it tells there that there is none, a row stands at its index 0, and at a position of the
/// call the head had that row and no row was next to it.
pub fn records_follow_nexts()
    ensures { RecordsFollowNexts }
{}

/// A seat tells that a row stands at an index no more only where the row stands there.
pub fn records_clear_rows()
    ensures { RecordsClearRows }
{}

/// A hold protects and clears at index 2; a dequeue protects and clears at indexes 0 and 1, and each
/// other call that protects at index 0. A release clears at index 2, a copy where it copies to, a drop
/// at its index, and a call by which the seat leaves at each index from 2 on.
pub fn records_use_indexes()
    ensures { RecordsUseIndexes }
{}

/// A row that is told to be copied stands at the index that it is copied from. The seat's call is the
/// copy from that index to the other, which goes upwards from an index from 2 on.
pub fn records_copy_rows()
    ensures { RecordsCopyRows }
{}

/// A seat whose call ends leaves nothing published at its helper word and at its indexes 0 and 1. At
/// each index from 2 on it publishes as long as a row stands there, and else nothing; under 2GE its
/// interval word does so as long as a row stands at any of them.
pub fn records_rest_guards()
    ensures { RecordsRestGuards }
{}

/// At each position of the record, also between two entries that one step tells, a row that stands at
/// an index of a seat is taken, and the guard of that index publishes an interval that meets the row's
/// life.
pub fn records_hold_throughout()
    ensures { RecordsHoldThroughout }
{}

/// Where a seat tells at an index that a row stands, or that there is none, or copies one there,
/// nothing stands at that index of the seat.
pub fn records_hold_alone()
    ensures { RecordsHoldAlone }
{}
