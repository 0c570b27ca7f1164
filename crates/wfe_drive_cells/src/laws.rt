// Words by number and words by place, each law the contract of a function that does nothing.
ghost use Rattle.std.specs.Prelude.{◌≡◌, ◌<◌, false, length, List, ℕ, IsTrue, Option};
ghost use Rattle.wfe_core.specs.words.Place.{is_valid, words};
ghost use Rattle.wfe_core.specs.defs.declared.call.Answer.{Answer};
ghost use Rattle.wfe_core.specs.defs.declared.call.Call.{Call};
ghost use Rattle.wfe_core.specs.defs.declared.event.Event.{Event};
ghost use Rattle.wfe_core.specs.Calls.{CallTurn, Phase};
ghost use Rattle.wfe_core.specs.DeskHeld.{Took};
ghost use Rattle.wfe_core.specs.Locals.{busy_in};
ghost use Rattle.wfe_core.specs.MayStep.{MayStep};
ghost use Rattle.wfe_core.specs.World.{World, begin, is_busy, list_in, start};
ghost use Rattle.wfe_core.specs.declared.desk.Desk.{Desk as HeldDesk};
ghost use Rattle.wfe_core.specs.declared.post.Post.{Post};
ghost use Rattle.wfe_drive_cells.specs.Bridge.{AsksWithin, IsBridge, MakesSteps, StaysNarrow};
ghost use Rattle.wfe_drive_cells.specs.Memory.{HoldsStart, memory};
ghost use Rattle.wfe_drive_cells.specs.Operations.{performed};
ghost use Rattle.wfe_drive_cells.specs.Unit.{IsStep, IsUnit, Leaves, ListsStay, MayUnit, Shows, TableView, after_start, asked, found_by, fresh_seat, may_adopt, seat_at, seat_left, turned, with_seat};

use wfe_core::Layout;

/// A list of a table's words is a memory by place, the start words the first one. An operation on a
/// place's number answers what the move of that place finds, and leaves what the move writes. Words
/// have 64 bits at the start, and after each operation that writes no more.
pub fn words_lie_by_place(layout: &Layout)
    requires { IsTrue (is_valid layout.now) }
    ensures bridge { IsBridge layout.now }
    ensures narrow { StaysNarrow layout.now }
{}

/// Where a list is a World's memory, and the operation that a seat asks for is on a word of the
/// table, performing it makes the memory of the World after the seat's step, and answers what that
/// step finds.
pub fn operations_make_steps()
    ensures { (w : World) (i : ℕ) (list : List ℕ) → w.mem ≡ memory w.layout list → length list ≡ words w.layout
        → AsksWithin w i → MakesSteps w i list }
{}

/// A table shows the first World where its words are a start's and no seat has made a call, and the
/// World in which a call began, where one began of a seat. A unit of a seat is that seat's step in
/// each World that the table shows, with the step's events and answer, and has what it needs where
/// the World gives it.
pub fn units_are_steps()
    ensures start { (table : TableView) → HoldsStart table.layout table.words → ((i : ℕ) → seat_at table i ≡ fresh_seat table.layout i)
        → Shows table (start table.layout) }
    ensures busy { (table : TableView) (w : World) (seat : ℕ) → Shows table w → busy_in (seat_at table seat).phase ≡ is_busy w seat }
    ensures begin { (table : TableView) (w : World) (seat : ℕ) (call : Call) → Shows table w → seat < length table.seats
        → Shows (after_start table seat call) (begin w seat call) }
    ensures unit { (old new : TableView) (w : World) (seat : ℕ) (told : List Event) (answer : Option Answer) → IsUnit old new seat told answer
        → Shows old w → length old.seats ≡ old.layout.config.seats → seat < old.layout.config.seats → AsksWithin w seat → ListsStay w seat → IsStep new w seat told answer }
    ensures ready { (table : TableView) (w : World) (seat : ℕ) → Shows table w
        → (w.seat seat).post.layout ≡ w.layout → list_in w seat ≡ (w.seat seat).desk.list → MayStep w seat → MayUnit table seat }
{}

/// What a call's code says that it took is what the turn leaves of its seat, tells and answers. With
/// the words after the seat's operation that is a unit, where its step may take over no list.
pub fn calls_make_units()
    ensures leaves { (t : CallTurn) (post : Post) (held : HeldDesk) (told : List Event) (answer : Option Answer) (phase : Phase)
        → Took t post held told answer phase → Leaves t post held told answer phase }
    ensures unit { (table : TableView) (seat : ℕ) (post : Post) (held : HeldDesk) (told : List Event) (answer : Option Answer) (phase : Phase)
        → may_adopt (seat_at table seat).phase ≡ false → Leaves (turned (seat_at table seat) (found_by table seat)) post held told answer phase
        → IsUnit table (with_seat table (performed table.words (asked (seat_at table seat))) seat (seat_left answer phase post held)) seat told answer }
{}
