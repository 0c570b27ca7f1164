//! Each seat's shape (`Shapes/Seats.antt`); which rows are free, claimed, linked, cut, by whom (`Rows.antt`); when a guard covers a
//! row (`Covering/Covers.antt`); requests, and movers that help (`Covering/Requests/Parts.antt`). These, and eras up to the clock
//! (`Shapes/Eras.antt`), are parts of the invariant. Each function here does nothing, and carries a theorem.
#![tactic(auto)]

mod covers;
mod movers;
mod seats;

ghost use Rattle.inv_rows.specs.Agree.{RowsBegin, RowsKept, RowsStart};
ghost use Rattle.inv_rows.specs.Chain.{QueueBegin, QueueKept, QueueStart};
ghost use Rattle.inv_rows.specs.Facts.{LinedStays, QueueEnds, QueueShows, RowWordsStay, RowsShow};
ghost use Rattle.inv_rows.specs.Tries.{WholeBegin, WholeKept, WholeStart};

pub use covers::{
    covered_rows_stay, covers_stay, followed_rows_stand, guards_are_read, guards_rest, loads_cover,
    rows_are_held, scans_give_back_unmet, standing_rows_stay,
};
pub use movers::{
    copied_words_stay, moves_end_in_time, parents_stand, pending_requests_hold_the_clock,
    protections_end_in_time, published_links_stay, requests_hold, requests_tell,
};
pub use seats::{
    few_go_back, links_stay_within, phases_give, seats_keep_their_shape, steps_are_ready,
    words_decode,
};

/// At the start of a table with a valid setting every row is free but the dummy, which is the
/// queue's head.
pub fn rows_start()
    ensures { RowsStart }
{}

/// The beginning of a call on a seat that is not busy and has not left keeps what is known of the
/// rows.
pub fn rows_begin()
    ensures { RowsBegin }
{}

/// Each step of a seat keeps what is known of the rows: each row is free, or claimed by one seat, or
/// linked by one root, or in the queue, or cut by one seat, or once in one seat's retire list, where
/// the list of a seat that left counts as another's from the step on that takes it over. How a step
/// changes it is a function of the seat's local state and of the word found.
pub fn rows_kept()
    ensures { RowsKept }
{}

/// At the start the queue is the dummy alone.
pub fn queue_start()
    ensures { QueueStart }
{}

/// The beginning of a call keeps what is known of the queue.
pub fn queue_begin()
    ensures { QueueBegin }
{}

/// Each step of a seat keeps the rows and the queue: from the head the next links lead through the
/// rows in the queue, with numbers that rise by one, and the tail is one of them. The head is cut
/// only while it is the head and not the tail, and the row after it is then the head.
pub fn queue_kept()
    ensures { QueueKept }
{}

/// What the rows give the code of a seat's step: no row is twice in its list, nor in that list with
/// one that it takes over, a row that it retires is not on it and its lifetime was stored, and a scan
/// gives back the entry at its place.
pub fn rows_show()
    ensures { RowsShow }
{}

/// What the rows need of the queue follows from it.
pub fn queue_shows()
    ensures { QueueShows }
{}

/// A row that was in the queue since it was claimed last stays so over each step that does not give
/// it back. If it was the head or cut it is so still, and its next link, once not null, stays.
pub fn lined_stays()
    ensures { LinedStays }
{}

/// The head and the tail lead to rows of the queue.
pub fn queue_ends()
    ensures { QueueEnds }
{}

/// The words of a row, but for its next link, are changed by no step but those of the seat that has
/// the row in hand and has not linked it.
pub fn row_words_stay()
    ensures { RowWordsStay }
{}

/// At the start the rows, the queue and the protections of its ends are known.
pub fn whole_start()
    ensures { WholeStart }
{}

/// The beginning of a call on a seat that is not busy and has not left keeps all of it.
pub fn whole_begin()
    ensures { WholeBegin }
{}

/// Each step of a seat keeps all of it: the rows, the queue, and that what a protection of the
/// queue's tail or head has found was in the queue since it was claimed last. Of other parts the
/// step needs eras and walks in range, that no row is given back which a guard covers, and what the
/// answers to requests lead to.
pub fn whole_kept()
    ensures { WholeKept }
{}
