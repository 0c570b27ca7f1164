// Requests of Wait-Free Eras, and movers that help (`Covering/Requests/Parts.antt`). It is a part of what holds between any two steps of any
// calls. Each function here does nothing, and carries a theorem.

ghost use Rattle.std.specs.Prelude.{ℕ, ◌≡◌, ◌<◌, true, false};
ghost use Rattle.inv_rows.specs.words.Place.{is_valid};
ghost use Rattle.inv_rows.specs.words.declared.layout.Layout.{Layout as Table};
ghost use Rattle.inv_rows.specs.defs.declared.call.Call.{Call};
ghost use Rattle.inv_rows.specs.model.World.{World, start, begin, step, is_busy};
ghost use Rattle.inv_rows.specs.Shapes.Seats.{Seats};
ghost use Rattle.inv_rows.specs.Shapes.Slots.{Slots};
ghost use Rattle.inv_rows.specs.Covering.Requests.Copying.{Copying};
ghost use Rattle.inv_rows.specs.Covering.Requests.Hazards.{Hazards};
ghost use Rattle.inv_rows.specs.Covering.Requests.Known.{Known};
ghost use Rattle.inv_rows.specs.Covering.Requests.Needs.{Needs};
ghost use Rattle.inv_rows.specs.Covering.Requests.Paces.{Paces, InTime, MovesOn};
ghost use Rattle.inv_rows.specs.Covering.Requests.NextDeals.{next_deals};
ghost use Rattle.inv_rows.specs.Covering.Requests.Parents.{Parents};
ghost use Rattle.inv_rows.specs.Covering.Requests.Pending.{Pending};
ghost use Rattle.inv_rows.specs.Covering.Requests.Standing.{Requests};
ghost use Rattle.inv_rows.specs.Covering.Requests.Turns.{StandsAfter};
ghost use Rattle.inv_rows.specs.Covering.Requests.Views.{View};
ghost use Rattle.inv_rows.specs.Covering.Requests.Views.Deal.{Quiet};

/// A view exists that words and phases stand for, with what holds of requests, helping, hand-over
/// and tags: at the start, after each call that begins, and after each step of a seat of the table.
/// Its deals are those that the step makes of the deals before.
pub fn requests_hold()
    ensures start { (layout : Table) → is_valid layout ≡ true → StandsAfter (start layout) (λ k. Quiet) }
    ensures begin { (w : World) (i : ℕ) (call : Call) (v : View) → is_valid w.layout ≡ true → is_busy w i ≡ false → Seats w
        → Requests w v → StandsAfter (begin w i call) v.deal }
    ensures step { (w : World) (i : ℕ) (v : View) → is_valid w.layout ≡ true → i < w.layout.config.seats → Seats w → Paces w
        → Needs w → Requests w v → StandsAfter (step w i) (next_deals w i v.deal) }
    ensures needs { (w : World) → Slots w → Needs w }
{}

/// What the other parts and the seat's own code take of this one: tags have 32 bits also after they
/// rise, a request that lost its two turns has an answer, and a seat between calls shows no era in
/// its helper word.
pub fn requests_tell()
    ensures { (w : World) (v : View) (k : ℕ) → is_valid w.layout ≡ true → Seats w → Requests w v → Known w v.clock k }
{}

/// Where index words publish rows, the link that a protection loads again is in its index word, and the
/// link of a copy in the word that is copied: from the start on, and over every step and every call
/// that begins.
pub fn published_links_stay()
    ensures start { (layout : Table) → Hazards (start layout) }
    ensures begin { (w : World) (i : ℕ) (call : Call) → is_valid w.layout ≡ true → Seats w → Hazards w → Hazards (begin w i call) }
    ensures step { (w : World) (i : ℕ) → is_valid w.layout ≡ true → Seats w → Hazards w → Hazards (step w i) }
{}

/// Between the two steps of a copy the index word that is copied is still the one that the copy has
/// read: it publishes the era that was found, with the seat's own tag, or the link.
pub fn copied_words_stay()
    ensures { (w : World) (v : View) (k : ℕ) → is_valid w.layout ≡ true → Requests w v → Hazards w → Copying w k }
{}

/// While a request is pending the clock is at most one above the first value that its owner loaded
/// after the publication, and no mover from that value on has passed it.
pub fn pending_requests_hold_the_clock()
    ensures { (w : World) (v : View) (k : ℕ) → is_valid w.layout ≡ true → k < w.layout.config.seats → Seats w → Needs w
        → Requests w v → Pending w k }
{}

/// The steps that a protection of Wait-Free Eras has made and those that it may still make are at
/// most `3 * tries + 14`, with the reload of a followed link one more.
pub fn protections_end_in_time()
    ensures start { (layout : Table) → Paces (start layout) }
    ensures begin { (w : World) (i : ℕ) (call : Call) → is_valid w.layout ≡ true → Seats w → Paces w → Paces (begin w i call) }
    ensures step { (w : World) (i : ℕ) → is_valid w.layout ≡ true → Seats w → Paces w → Paces (step w i) }
    ensures in_time { (w : World) (k : ℕ) → Seats w → Paces w → InTime w k }
{}

/// A move of the clock ends within `7 * seats + 3` steps: so many are left at its first, and fewer
/// after each.
pub fn moves_end_in_time()
    ensures { (w : World) (k : ℕ) → is_valid w.layout ≡ true → Seats w → MovesOn w k }
{}

/// The row whose next link a dequeue follows stands at index 0 of its seat, and what a task has
/// protected stands at its index.
pub fn parents_stand()
    ensures start { (layout : Table) → Parents (start layout) }
    ensures begin { (w : World) (i : ℕ) (call : Call) → Parents w → Parents (begin w i call) }
    ensures step { (w : World) (i : ℕ) → Seats w → Parents w → Parents (step w i) }
{}
