// How many turns of its seat a protection takes (`Turns/Records.antt`). Each function here does nothing, and carries a theorem.

ghost use Rattle.law_scans.specs.Turns.Records.{HandoversMeet, HazardsCount, LoadsCount, ProtectionsCount, ProtectionsEnd, ProtectionsLast, RecordsWithdrawNext, TriesCount, WithdrawalsFollow, TurnsFindLast};

/// Under Hazard Eras and Wait-Free Eras the number in a Held or Null is that of the seat's turns from
/// the first of the protection to the one that tells it. The first is the turn before the one with
/// which the seat's index word, which published nothing, published an era, and both are turns of the
/// present call.
pub fn protections_count()
    ensures { ProtectionsCount }
{}

/// Under hazard pointers the number in a Held or Null is that of the seat's turns from the first of the
/// protection to the one that tells it. The first is the turn before the one with which the seat's index
/// word, which published nothing, published a row; where a Null is told before that, it is that turn itself.
pub fn loads_count()
    ensures { LoadsCount }
{}

/// Under hazard pointers the number of a protection is one more than twice the number of rows that the seat's
/// index word published since it published nothing; for a row that was followed it is one more still. In a
/// protection each of these rows is another than the one before it.
pub fn hazards_count()
    ensures { HazardsCount }
{}

/// Under Wait-Free Eras a whole protection takes `3 * tries + 12` turns of its seat at most, from its
/// first to the one that tells the row that it holds, or null. One that follows the head's next link
/// takes three more.
pub fn protections_end()
    ensures { ProtectionsEnd }
{}

/// A seat tells of another seat's index word, where it hands an answer over, only while that word
/// publishes. So what a seat has published there by its own word is published.
pub fn handovers_meet()
    ensures { HandoversMeet }
{}

/// Under Hazard Eras the number of a protection is one more than three times the number of eras that the seat's index
/// word published since it published nothing; for a row that was followed it is one more still.
pub fn tries_count()
    ensures { TriesCount }
{}

/// Where a seat tells Held or Null while its helper word publishes, as comes about under Wait-Free Eras, its
/// next turn tells nothing, and the one after tells first that the helper word publishes nothing.
pub fn withdrawals_follow()
    ensures { WithdrawalsFollow }
{}

/// Under Wait-Free Eras a protection is under way for `3 * tries + 14` turns of its seat at most, from its first
/// turn to the one that tells its end, or that withdraws the helper word after that. One that follows the
/// head's next link takes two more at most, also where the head has moved and the index word is withdrawn.
pub fn protections_last()
    ensures { ProtectionsLast }
{}

/// Where a seat tells Held or Null while its helper word publishes, its next entry is that the helper word
/// publishes nothing, whatever other seats tell between.
pub fn records_withdraw_next()
    ensures { RecordsWithdrawNext }
{}

/// A turn that tells a Held or Null while its seat's helper word publishes tells nothing after it: the
/// turn that withdraws the word is the second after.
pub fn turns_find_last()
    ensures { TurnsFindLast }
{}
