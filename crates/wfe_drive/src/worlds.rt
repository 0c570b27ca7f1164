// Theorems: the rig's table shows a World of the invariant (`Reached.antt`). Its seats stay; units and beginnings keep that.
// Each function here does nothing, and carries a theorem.

ghost use Rattle.std.specs.Prelude.{◌<◌, ◌≡◌, List, Option, false, true, ℕ};
ghost use Rattle.wfe_core.specs.Locals.{busy_in, may_begin, stays};
ghost use Rattle.wfe_core.specs.defs.declared.call.Answer.{Answer};
ghost use Rattle.wfe_core.specs.defs.declared.call.Call.{Call};
ghost use Rattle.wfe_core.specs.defs.declared.event.Event.{Event};
ghost use Rattle.wfe_core.specs.words.Place.{is_valid};
ghost use Rattle.wfe_core.specs.words.declared.layout.Layout.{Layout};
ghost use Rattle.wfe_drive_cells.specs.Memory.{HoldsStart};
ghost use Rattle.wfe_drive_cells.specs.Unit.{IsUnit, TableView, after_start, is_gone, seat_at};
ghost use Rattle.wfe_drive.specs.Bare.{bare};
ghost use Rattle.wfe_drive.specs.Reached.{IsReached, first_table, units_left};

/// Where each place word reads 0 no seat has left, and so at the start.
pub fn none_has_left()
    ensures gone { (table : TableView) (seat : ℕ) → is_gone (bare table) seat ≡ false }
    ensures first { (layout : Layout) → bare (first_table layout) ≡ first_table layout }
{}

/// A table at its start shows a World in which all seats stay; so does one in which a call of a seat that
/// stays began, or a unit was made, which leaves a call fewer units.
pub fn tables_stay()
    ensures start { (layout : Layout) (list : List ℕ) → is_valid layout ≡ true → HoldsStart layout list → IsReached (first_table layout) }
    ensures begin { (table : TableView) (seat : ℕ) (call : Call) → IsReached table → seat < table.layout.config.seats → busy_in (seat_at table seat).phase ≡ false
        → may_begin table.layout.config call ≡ true → stays call ≡ true → IsReached (after_start table seat call) }
    ensures unit { (old new : TableView) (seat : ℕ) (told : List Event) (answer : Option Answer) → IsReached old → IsUnit old new seat told answer
        → seat < old.layout.config.seats → busy_in (seat_at old seat).phase ≡ true → IsReached new }
    ensures falls { (old new : TableView) (seat : ℕ) (told : List Event) (answer : Option Answer) → IsReached old → IsUnit old new seat told answer
        → seat < old.layout.config.seats → busy_in (seat_at old seat).phase ≡ true → units_left new seat < units_left old seat }
{}
