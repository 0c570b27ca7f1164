// A worker: one seat with its script.
ghost use Rattle.std.specs.Prelude.{◌≡◌, IfOk, OnOk, true};
ghost use Rattle.wfe_core.specs.Locals.{may_begin, stays};
ghost use Rattle.wfe_table.specs.Public.{IsOf};
ghost use Rattle.wfe_server_lines.specs.Fitting.{MayBegin};
ghost use Rattle.wfe_server.specs.Working.{IsCalled, IsWorked};

use crate::Gate;
use std::alloc::Global;
use wfe_core::{Call, Event, NoMemory};
use wfe_server_lines::push_events;
use wfe_table::{Seat, Shared};

/// A seat whose script was made, and the events of its calls.
#[derive(Drop)]
pub(crate) struct Worked {
    pub(crate) seat: Seat,
    pub(crate) events: Vec<Event>,
}

// Makes the seat's call of this number.
fn make_call<G: Gate>(
    shared: &Shared,
    seat: &mut Seat,
    number: u64,
    call: Call,
    gate: &G,
    events: &mut Vec<Event>,
) -> Result<(), NoMemory>
    requires of { IsOf seat.old shared.now }
    requires may { may_begin shared.now.layout.config call ≡ true }
    requires stays { stays call ≡ true }
    ensures of { IsOf seat.new shared.now }
    ensures called { OnOk result (IsCalled shared.now.layout.config.buckets seat.old.track call seat.new.track events.old.items events.new.items) }
{
    gate.enter(seat.number(), number);
    let answer = shared.call(seat, call);
    gate.answered(seat.number(), number);
    let buckets = shared.layout().config().buckets;
    push_events(events, buckets, call, answer, seat.notes())
}

/// Makes the calls of a script, one after the other, and keeps the events of each.
pub(crate) fn work<G: Gate>(
    alloc: Global,
    shared: &Shared,
    mut seat: Seat,
    script: &[Call],
    gate: &G,
) -> Result<Worked, NoMemory>
    requires of { IsOf seat shared.now }
    requires fits { MayBegin shared.now.layout.config script.now }
    ensures of { IfOk result (λ worked. IsOf worked.seat shared.now) }
    ensures worked { IfOk result (λ worked. IsWorked shared.now.layout.config.buckets seat.track script.now worked.seat.track worked.events.items) }
{
    let mut events = Vec::new(alloc);
    for place in 0..script.len() {
        let number = place as u64 + 1;
        make_call(shared, &mut seat, number, script[place], gate, &mut events)?;
    }
    Ok(Worked { seat, events })
}
