//! Histories (`History.antt`), what their steps may tell, whole runs. They are calls that begin and steps that are made, with
//! the turns and the record that they tell. Each function here does nothing, and carries a theorem.
#![tactic(auto)]

ghost use Rattle.model_history.specs.Falls.{ClockMovesUnderARequest, HeadMoves, HelperIsStopped, IntervalRises, ReaderTriesAgain, TableIsFull};
ghost use Rattle.model_history.specs.Helping.{HelperStopsBeforeHandOver, LateHelperMeetsSecondRequest, MoversAtTheirExchange};
ghost use Rattle.model_history.specs.Queues.{DequeueOfNothing, HeadMovesUnderADequeue};
ghost use Rattle.model_history.specs.Readers.{EndsUnderIntervals, GetUnderIntervals, IntervalIsRaised, PutThenGetUnderHazardEras, ReaderOvertakenTriesAgain};
ghost use Rattle.model_history.specs.Tables.{EndsInAFullTable, FullBucket, FullTableScansAndTriesAgain, LastEra, LastVersion, PutGivesBackInItsOwnScan, Removes, WalksReadWholeClaimWords};

/// Readers under Hazard Eras and 2GE, also one that a move of the clock overtakes.
pub fn runs_of_readers()
    ensures put_then_get_under_hazard_eras { PutThenGetUnderHazardEras }
    ensures get_under_intervals { GetUnderIntervals }
    ensures ends_under_intervals { EndsUnderIntervals }
    ensures reader_overtaken_tries_again { ReaderOvertakenTriesAgain }
    ensures interval_is_raised { IntervalIsRaised }
{}

/// Rows that go back in the scan of the call that retired them, full rows and tables, the last era
/// and the last version.
pub fn runs_of_full_and_worn_tables()
    ensures put_gives_back_in_its_own_scan { PutGivesBackInItsOwnScan }
    ensures full_table_scans_and_tries_again { FullTableScansAndTriesAgain }
    ensures ends_in_a_full_table { EndsInAFullTable }
    ensures full_bucket { FullBucket }
    ensures last_era { LastEra }
    ensures removes { Removes }
    ensures last_version { LastVersion }
    ensures walks_read_whole_claim_words { WalksReadWholeClaimWords }
{}

/// Helpers of Wait-Free Eras that stop between an answer and its hand-over, movers at their exchange,
/// and a late helper.
pub fn runs_of_helpers()
    ensures helper_stops_before_hand_over { HelperStopsBeforeHandOver }
    ensures movers_at_their_exchange { MoversAtTheirExchange }
    ensures late_helper_meets_second_request { LateHelperMeetsSecondRequest }
{}

/// A dequeue of nothing, and one under which the head moves.
pub fn runs_of_the_queue()
    ensures dequeue_of_nothing { DequeueOfNothing }
    ensures head_moves_under_a_dequeue { HeadMovesUnderADequeue }
{}

/// In these runs the number of steps that a seat has left falls at each of its steps, and rises at no
/// step of another seat.
pub fn runs_come_nearer_to_their_end()
    ensures reader_tries_again { ReaderTriesAgain }
    ensures interval_rises { IntervalRises }
    ensures helper_is_stopped { HelperIsStopped }
    ensures clock_moves_under_a_request { ClockMovesUnderARequest }
    ensures table_is_full { TableIsFull }
    ensures head_moves { HeadMoves }
{}
