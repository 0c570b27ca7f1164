// Each seat's shape (`Shapes/Seats.antt`), and eras up to the clock (`Shapes/Eras.antt`). These are the parts of the invariant that speak of
// each seat alone, of words that decode, and of eras. Each function here does nothing, and carries a theorem.

ghost use Rattle.std.specs.Prelude.{ℕ, ◌≡◌, ◌≤◌, ◌<◌, ◌+◌, length, true};
ghost use Rattle.wfe_core.specs.words.Place.{is_valid};
ghost use Rattle.wfe_core.specs.words.Place.Place.{Clock};
ghost use Rattle.wfe_core.specs.words.declared.layout.Layout.{Layout as Table};
ghost use Rattle.wfe_core.specs.defs.declared.call.Call.{Call};
ghost use Rattle.wfe_core.specs.MayStep.{MayStep};
ghost use Rattle.wfe_core.specs.Locals.{may_begin};
ghost use Rattle.wfe_core.specs.World.{World, start, begin, step};
ghost use Rattle.inv_rows.specs.Shapes.Code.{CodeNeeds};
ghost use Rattle.inv_rows.specs.Shapes.Eras.{Eras, ErasNeeds};
ghost use Rattle.inv_rows.specs.Shapes.Gives.{GivesGuards, GivesClears, GivesWalks, GivesBirths, GivesLinks};
ghost use Rattle.inv_rows.specs.Shapes.Noted.{Noted};
ghost use Rattle.inv_rows.specs.Shapes.Seats.{Seats};
ghost use Rattle.inv_rows.specs.Shapes.Slots.{Slots, SlotsNeeds};

/// Each seat's post and phase have the seat's number, the table's layout and the shape that scheme
/// and call give, from the start on and over every step and every call that begins.
pub fn seats_keep_their_shape()
    ensures start { (layout : Table) → is_valid layout ≡ true → Seats (start layout) }
    ensures begin { (w : World) (i : ℕ) (call : Call) → is_valid w.layout ≡ true → Seats w → Seats (begin w i call) }
    ensures step { (w : World) (i : ℕ) → is_valid w.layout ≡ true → Seats w → Seats (step w i) }
{}

/// Each word decodes, the clock is 1 to the last era and never falls, and no era in a word or a phase
/// is above it, from the start on and over every step and every call that begins.
pub fn words_decode()
    ensures start { (layout : Table) → is_valid layout ≡ true → Eras (start layout) }
    ensures begin { (w : World) (i : ℕ) (call : Call) → is_valid w.layout ≡ true → Eras w → Eras (begin w i call) }
    ensures step { (w : World) (i : ℕ) → is_valid w.layout ≡ true → Seats w → Slots w → Eras w → ErasNeeds w i → Eras (step w i) }
    ensures rises { (w : World) (i : ℕ) → Eras w → w.mem Clock ≤ (step w i).mem Clock }
{}

/// Each link in a word or a phase is null or leads to a row of the table, each slot that a seat knows
/// is such a row, and versions, numbers, pairs and indexes that a call keeps are in range, from the
/// start on and over every step and every call that begins.
pub fn links_stay_within()
    ensures start { (layout : Table) → Slots (start layout) }
    ensures begin { (w : World) (i : ℕ) (call : Call) → is_valid w.layout ≡ true → may_begin w.layout.config call ≡ true → Slots w → Slots (begin w i call) }
    ensures step { (w : World) (i : ℕ) → is_valid w.layout ≡ true → Seats w → Eras w → Slots w → SlotsNeeds w i → Slots (step w i) }
{}

/// The rows that a call has sent back are, with those on the seat's list, no more than the table's
/// rows, and one more once the call has retired one; so they are no more than two scans may send.
pub fn few_go_back()
    ensures start { (layout : Table) → Noted (start layout) }
    ensures begin { (w : World) (i : ℕ) (call : Call) → length (w.seat i).desk.list ≤ w.layout.config.slots + 1 → Noted w → Noted (begin w i call) }
    ensures step { (w : World) (i : ℕ) → SlotsNeeds w i → Noted w → Noted (step w i) }
{}

/// A seat's operation is on a word of the table, its post is valid, and what its call stands on and
/// what its step finds is in range.
pub fn steps_are_ready()
    ensures ready { (w : World) (i : ℕ) → is_valid w.layout ≡ true → i < w.layout.config.seats → Seats w → Eras w → Slots w → Noted w → CodeNeeds w i → MayStep w i }
{}

/// What the shape of seats, the eras and the links give to the parts that speak of rows and of
/// requests.
pub fn phases_give()
    ensures guards { (w : World) → is_valid w.layout ≡ true → Seats w → Slots w → GivesGuards w }
    ensures clears { (w : World) → is_valid w.layout ≡ true → Seats w → Slots w → GivesClears w }
    ensures walks { (w : World) → Seats w → GivesWalks w }
    ensures births { (w : World) → Eras w → GivesBirths w }
    ensures links { (w : World) → Slots w → GivesLinks w }
{}
