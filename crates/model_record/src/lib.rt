//! Records, positions, tests (`Record.antt`); starts and turns (`Turns.antt`). A record is what seats tell, entry by entry; a
//! law is a test of an entry at its position; a history is here starts of calls and turns of seats. The function here does
//! nothing, and carries a theorem.
#![tactic(auto)]

ghost use Rattle.model_record.specs.Record.{Each, EachEntry, Past, Test};

/// A law by recursion on the record, as proofs use it, says what it says wherever the record is
/// cut, as it is published.
pub fn laws_by_recursion()
    ensures published { (ok : Test) (r : Past) → Each ok r → EachEntry ok r }
    ensures recursive { (ok : Test) (r : Past) → EachEntry ok r → Each ok r }
{}
