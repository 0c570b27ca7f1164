//! No reuse, rows once, scans, map, queue, answers (`Records.antt`); that the laws follow (`Letter/Letters.antt`). No row is
//! used again while it stands, rows are given and go back once, and scans keep just what they have to; what the record says of
//! the map, the queue and of answers; and that histories are schedules. That the laws follow from what histories keep is shown
//! of records alone. Each function here does nothing, and carries a theorem.
#![tactic(auto)]

mod letters;

ghost use Rattle.law_reuse.specs.Heard.{HistoriesCount};
ghost use Rattle.law_reuse.specs.MapKept.{RecordsKeepMap};
ghost use Rattle.law_reuse.specs.Answers.{RecordBooks, RecordPlaces, RecordsKeepAnswers, RecordsKeepQueue, RecordsKeepSteps, RecordsOpenCalls, TurnsTellOne};
ghost use Rattle.law_reuse.specs.Holds.{AlwaysShown, StandsShown};
ghost use Rattle.law_reuse.specs.Records.{RecordHazards, RecordPublishes, RecordStands, RecordValues, RecordsCountScans, RecordsEndBare, RecordsGoBackOnce, RecordsHold, RecordsKeepBirths, RecordsKeepLists, RecordsKeepOnce, RecordsKeepReuse, RecordsKeepScans, RecordsReadGuards};
ghost use Rattle.law_reuse.specs.Reuse.{NeverReused, NoReuse};
ghost use Rattle.law_reuse.specs.Rows.{RecordShows};

pub use letters::laws_follow;

/// Where a row stands at an index of a seat, no step of any seat gives it, gives it up or gives it
/// back.
pub fn no_reuse()
    ensures { NoReuse }
{}

/// So it is in each World that a history comes to, whatever calls begin and whichever seats make
/// their steps.
pub fn never_reused()
    ensures { NeverReused }
{}

/// A row that stands at an index of a seat is taken, and the guard of that index publishes
/// what keeps the row's life, as the words show them.
pub fn stands_shown()
    ensures { StandsShown }
{}

/// So it is in each World that a history comes to.
pub fn always_shown()
    ensures { AlwaysShown }
{}

/// By the record of each history what stands at an index of a seat is what the seat told to hold
/// or to copy there last and not to clear since.
pub fn record_stands()
    ensures { RecordStands }
{}

/// The record of each history keeps the law on reuse: wherever it is cut before an entry that gives a
/// row, or says that it is free again, that row stands at no index of any seat.
pub fn records_keep_reuse()
    ensures { RecordsKeepReuse }
{}

/// What a record says of rows is so: which of them are taken and which retired, what is in the list
/// that is each seat's own, which seats have left and whose lists are taken over, and which rows a
/// seat has cut and not retired.
pub fn record_shows()
    ensures { RecordShows }
{}

/// A row is given only where it is free, and told unused or back only where it is taken. A seat
/// gives back only rows of its own list, and retires only a row that it has cut and not retired
/// since.
pub fn records_keep_once()
    ensures { RecordsKeepOnce }
{}

/// A row goes back only where it was retired since it went back last: each retired row goes back at
/// most once.
pub fn records_go_back_once()
    ensures { RecordsGoBackOnce }
{}

/// A list is left only by a call with which its seat leaves, and is taken over only by a call for it,
/// once its seat has left it and before any other seat has taken it over. The numbers told are the
/// lengths of the lists, so each list goes over whole and at most once.
pub fn records_keep_lists()
    ensures { RecordsKeepLists }
{}

/// A row is retired with the birth era with which it was given last.
pub fn records_keep_births()
    ensures { RecordsKeepBirths }
{}

/// The guards that a seat reads form blocks, each of all guards in order with nothing between. After
/// a block the rows of the seat's list go back, in its order, whose lives meet nothing that the block
/// read: all of them, and no others.
pub fn records_keep_scans()
    ensures { RecordsKeepScans }
{}

/// A guard that a scan reads shows what the guard publishes: what was told last that it reserves.
pub fn records_read_guards()
    ensures { RecordsReadGuards }
{}

/// A call that only scans reads each guard once, and answers how many lives are left on its seat's
/// list and how many rows went back.
pub fn records_count_scans()
    ensures { RecordsCountScans }
{}

/// What a guard publishes is the interval of its last Reserve by any seat, and nothing before the
/// first.
pub fn record_values()
    ensures { RecordValues }
{}

/// Where rows are published, what a guard publishes is the row of its last Hazard by any seat, and
/// none before the first.
pub fn record_hazards()
    ensures { RecordHazards }
{}

/// Under each scheme what a guard publishes by the record is what its word shows.
pub fn record_publishes()
    ensures { RecordPublishes }
{}

/// A row that stands at an index of a seat is taken, and the guard of that index publishes
/// what keeps the row's life, all as the record says.
pub fn records_hold()
    ensures { RecordsHold }
{}

/// Under Wait-Free Eras each protection tells the row that it holds, or null, within
/// `3 * tries + 12` of its steps, and one that follows the head's next link within three more.
pub fn records_keep_steps()
    ensures { RecordsKeepSteps }
{}

/// Each change of a bucket tells the next version, and lies in its key's bucket. A get tells its key's
/// value at a version that was current at some position of its call, from its beginning on.
pub fn records_keep_map()
    ensures { RecordsKeepMap }
{}

/// The n-th value of the queue is queued under number n, and values are taken by their numbers, each
/// once and after it was queued.
pub fn records_keep_queue()
    ensures { RecordsKeepQueue }
{}

/// Where a call ends, in the record of any history, its answer is one that such a call may have, and
/// since its beginning it has told of the map, of the queue and of copies just the event that the
/// answer says, or nothing where the answer says none.
pub fn records_keep_answers()
    ensures { RecordsKeepAnswers }
{}

/// Each history of the machines is a schedule: a call starts only on a seat that is not busy, only a
/// busy seat takes turns, and an End comes last in its turn and counts the turns of its call. It tells
/// the same record, and the same seats are busy after it. What a call has made and what it has left
/// are fewer than 2 ^ 62 steps together.
pub fn histories_count()
    ensures { HistoriesCount }
{}

/// A turn tells at most one event of those that change or read a word of the table. What it tells is
/// told by its own seat, as the record of a history says.
pub fn turns_tell_one()
    ensures { TurnsTellOne }
{}

/// A seat begins a call only where it is in none and has not left, and tells anything else only while
/// it is in one, which its End closes.
pub fn records_open_calls()
    ensures { RecordsOpenCalls }
{}

/// The changes of each bucket, the values queued and how many of them were taken are in the book what
/// they are by the record.
pub fn record_books()
    ensures { RecordBooks }
{}

/// By the record a seat has left where its place word is not 0, and its list is taken over where that
/// is greater than 1.
pub fn record_places()
    ensures { RecordPlaces }
{}

/// Where a call of a seat ends, nothing stands at any index of the seat but those from 2 on, at which
/// kept rows stay.
pub fn records_end_bare()
    ensures { RecordsEndBare }
{}
