//! Linearizability (`Points.antt`, `Order.antt` over `Object.antt`) of records whose answers have their reasons
//! (`Records.antt`). Each function here does nothing, and carries a theorem.
#![tactic(auto)]

ghost use Rattle.law_linear.specs.Records.{GetThatPutsRefused, PointsOrder, ReasonsLinearize, StaleGetRefused};
ghost use Rattle.law_linear.specs.Search.{OrdersAreFound};

/// A record whose answers have their reasons, and which goes on to one at whose end no seat is in a call, is linearizable: points
/// can be put in, each between its call's Begin and its End, so that the object may give each call its answer at its point.
pub fn reasons_linearize()
    ensures { ReasonsLinearize }
{}

/// The points of a record give one order of its calls, in which the object may give each its answer, and in which a call that had
/// ended before another began comes before it.
pub fn points_order()
    ensures { PointsOrder }
{}

/// A search through all orders of a record's calls, each of which has ended, finds one that serves where there is one.
pub fn orders_are_found()
    ensures { OrdersAreFound }
{}

/// No points can be put in a record in which a get of a bucket that was never changed answers version 1.
pub fn stale_get_refused()
    ensures { StaleGetRefused }
{}

/// A record in which a get tells a put does not tell each change in a call for it.
pub fn get_that_puts_refused()
    ensures { GetThatPutsRefused }
{}
