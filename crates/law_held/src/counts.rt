// What numbers of steps count (`Steps/Records.antt`), when help is asked for. Each function here does nothing, and carries a
// theorem.

ghost use Rattle.law_held.specs.Steps.Records.{RecordsAskLate, RecordsKeepEnds, RecordsKeepHelpers, RecordsKeepRaises, RecordsShowLate, RecordsTakeLate};

/// Under 2GE the number in a Held or Null is two more than three times the number of times that the seat has
/// raised its interval since its last Begin, Held, Null or Clear, and for a row held at index 1 one more.
pub fn records_keep_raises()
    ensures { RecordsKeepRaises }
{}

/// A release takes one step; a call that only scans takes one for each guard and one for each row that goes
/// back; an advance takes `7 * seats + 3` at most under Wait-Free Eras, and else two, or one where the clock
/// stands at its last era. Under Wait-Free Eras a hold takes `3 * tries + 16` at most, and a
/// get `3 * tries + 18` and one for each pair that a bucket may have.
pub fn records_keep_ends()
    ensures { RecordsKeepEnds }
{}

/// Under Wait-Free Eras a seat shows an era in a helper word only where its call may move the clock, or where
/// it has published more eras in an index word than it has tries, since that published none and since a Held
/// or Null was told there. So no protection asks for help before its tries have failed in a call that may not
/// move the clock.
pub fn records_show_late()
    ensures { RecordsShowLate }
{}

/// Under Wait-Free Eras a seat whose helper word shows an era publishes an index word of its own only where it
/// has published more eras there than it has tries, since that published none and since a Held or Null was told
/// there. So no protection takes an answer before its tries have failed.
pub fn records_take_late()
    ensures { RecordsTakeLate }
{}

/// Under Wait-Free Eras a seat whose protection is under way publishes an era in its helper word only after it
/// has published more eras in the protection's index word than it has tries.
pub fn records_keep_helpers()
    ensures { RecordsKeepHelpers }
{}

/// Under Wait-Free Eras a seat whose protection is under way publishes an era in its helper word only after it has
/// itself published more eras in the protection's index word than it has tries, each later than the one before it
/// that it published there, whatever a mover has handed over between.
pub fn records_ask_late()
    ensures { RecordsAskLate }
{}
