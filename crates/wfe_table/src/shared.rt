// The shared table, and how it is made.
ghost use Rattle.std.specs.Prelude.{◌≡◌, ◌≤◌, ◌<◌, ◌+◌, ◌-◌, [], All, IfErr, IfOk, Ok, length, map, true};
ghost use Rattle.std.specs.List.{range_with_len};
ghost use Rattle.wfe_core.specs.Locals.{may_begin, stays};
ghost use Rattle.wfe_core.specs.words.Place.{is_valid, layout_of};
ghost use Rattle.wfe_drive_rule.specs.Handles.{IsSized};
ghost use Rattle.wfe_drive_rule.specs.Views.{bare_view, first_view, fresh_track};
ghost use Rattle.wfe_table.specs.Calls.{IsMade};
ghost use Rattle.wfe_table.specs.Closing.{IsLeft, track_of};
ghost use Rattle.wfe_table.specs.Making.{IsRefused};
ghost use Rattle.wfe_table.specs.Public.{IsOf, new_seat, new_seats, steps_of};
ghost use Rattle.wfe_table.specs.Steps.{FewSteps};

use crate::close::{gathered, read_end};
use crate::seat::Seat;
use std::alloc::Global;
use std::marker::Model;
use wfe_core::{Answer, Call, Config, Layout, NoMemory};
use wfe_drive_rule::{Handle, Ledger, OwnedLedger, open, split, take_slot};
use wfe_table_end::{Closed, ClosedRoom, MakeError};

/// A table of words that threads share. Calls are made on it with its seats. It is seen as which table
/// it is, and its layout.
#[derive(Drop)]
pub struct Shared {
    pub(crate) ledger: OwnedLedger,
    layout: Layout,
}

impl Model for Shared {
    ghost use Rattle.wfe_table.specs.Public.{TableNow};
    ghost use Rattle.wfe_table.specs.Sound.{IsWhole};

    ghost Value = { TableNow };

    ghost view = { λ s. record { table = s.ledger.shared.table_id; layout = s.layout } };

    ghost invariant = { IsWhole };
}

impl Shared {
    /// A table of this setting at its start, and its seats in number order, none of which has made a
    /// call. A number outside its range is refused, the first of them by name; `NoMemory` is answered to a
    /// good setting, where memory ran out. All memory for later calls is taken here.
    pub fn new(alloc: Global, config: Config) -> Result<(Shared, Vec<Seat>), MakeError>
        ensures made { IfOk result (λ r. (layout_of config ≡ Ok r.0.layout) × (r.1.items ≡ new_seats r.0)) }
        ensures of { IfOk result (λ r. All (λ seat. IsOf seat r.0) r.1.items) }
        ensures refused { IfErr result (IsRefused config) }
    {
        let layout = match Layout::new(config) {
            Ok(layout) => layout,
            Err(bad) => return Err(MakeError::BadConfig { field: bad.field }),
        };
        match Shared::of_layout(alloc, layout) {
            Ok(made) => Ok(made),
            Err(_) => Err(MakeError::NoMemory),
        }
    }

    fn of_layout(alloc: Global, layout: Layout) -> Result<(Shared, Vec<Seat>), NoMemory>
        requires valid { is_valid layout ≡ true }
        ensures made { IfOk result (λ r. (r.0.layout ≡ layout) × (r.1.items ≡ new_seats r.0)) }
        ensures of { IfOk result (λ r. All (λ seat. IsOf seat r.0) r.1.items) }
    {
        let (ledger, mut first) = open(alloc, layout)?;
        let mut seats = later_seats(alloc, &ledger.shared, &mut first, layout)?;
        take_slot(&ledger.shared, &mut first, 0);
        let seat = Seat::new(alloc, first, 0, layout)?;
        if seats.insert(0, seat).is_err() {
            return Err(NoMemory);
        }
        Ok((Shared { ledger, layout }, seats))
    }

    /// The words of the table, and what its setting is.
    pub fn layout(&self) -> Layout
        ensures { result ≡ self.now.layout }
    {
        self.layout
    }

    // The table's words, and its layout.
    pub(crate) fn parts(self) -> (OwnedLedger, Layout)
        ensures table { result.0.shared.table_id ≡ self.table }
        ensures layout { result.1 ≡ self.layout }
        ensures key { result.0.shared.key ≡ self.layout }
        ensures sized { IsSized self.table self.layout }
        ensures valid { is_valid self.layout ≡ true }
    {
        let Shared { ledger, layout } = self;
        (ledger, layout)
    }

    // Ends the table with its seats, of which there are enough, and reads its words into the room.
    pub(crate) fn end(self, room: ClosedRoom, seats: Vec<Seat>) -> Closed
        requires of { All (λ seat. IsOf seat self) seats.items }
        requires enough { self.layout.config.seats ≤ length seats.items }
        requires room { room ≡ record { layout = self.layout; list = [] } }
        ensures { IsLeft self.layout (map track_of seats.items) result }
    {
        let Shared { ledger, layout } = self;
        let handle = gathered(&ledger.shared, seats);
        read_end(ledger, handle, layout, room)
    }

    /// Makes a call on a seat of this table, named by a value, and gives its answer. The call must be one
    /// that may begin: the indexes that it names are from 2 on and the table has them, and a copy goes
    /// upwards; and the seat neither leaves by it nor takes over what another has left. Whatever the other
    /// threads do, it takes no more steps than `bound` says of that call.
    #[inline(always)]
    pub fn call(&self, seat: &mut Seat, call: Call) -> Answer
        requires of { IsOf seat.old self.now }
        requires may { may_begin self.now.layout.config call ≡ true }
        requires stays { stays call ≡ true }
        ensures of { IsOf seat.new self.now }
        ensures made { IsMade self.now.layout seat.old seat.new call result }
        ensures bound { FewSteps self.now.layout.config call result (steps_of seat.new) }
    {
        seat.make(&self.ledger.shared, call)
    }
}

// The seats after the first, in number order, each out of the first one's handle, which counts them.
fn later_seats(
    alloc: Global,
    ledger: &Ledger,
    first: &mut Handle,
    layout: Layout,
) -> Result<Vec<Seat>, NoMemory>
    requires ids { first.old.table_id ≡ ledger.now.table_id }
    requires key { ledger.now.key ≡ layout }
    requires sized { IsSized ledger.now.table_id layout }
    requires valid { is_valid layout ≡ true }
    requires first { first.old.me ≡ (first_view layout, []) }
    ensures ids { first.new.table_id ≡ first.old.table_id }
    ensures first { IfOk result (λ _. first.new.me ≡ (bare_view layout.config.seats (fresh_track layout 0), [])) }
    ensures seats { IfOk result (λ seats. seats.items ≡ map (new_seat (record { table = ledger.now.table_id; layout = layout })) (range_with_len 1 (layout.config.seats - 1))) }
{
    let count = layout.config().seats;
    let Ok(mut seats) = Vec::with_capacity(alloc, count as usize) else {
        return Err(NoMemory);
    };
    for number in 1..count {
        let seat = next_seat(alloc, ledger, first, number, layout)?;
        if seats.push(seat).is_err() {
            return Err(NoMemory);
        }
    }
    Ok(seats)
}

// One seat more.
fn next_seat(
    alloc: Global,
    ledger: &Ledger,
    first: &mut Handle,
    number: u32,
    layout: Layout,
) -> Result<Seat, NoMemory>
    requires ids { first.old.table_id ≡ ledger.now.table_id }
    requires key { ledger.now.key ≡ layout }
    requires sized { IsSized ledger.now.table_id layout }
    requires valid { is_valid layout ≡ true }
    requires some { 1 ≤ number }
    requires range { number < layout.config.seats }
    requires counts { first.old.me ≡ (bare_view number (fresh_track layout 0), []) }
    ensures ids { first.new.table_id ≡ first.old.table_id }
    ensures counts { first.new.me ≡ (bare_view (number + 1) (fresh_track layout 0), []) }
    ensures seat { IfOk result (λ seat. seat ≡ new_seat (record { table = ledger.now.table_id; layout = layout }) number) }
{
    let mut handle = split(ledger, first);
    take_slot(ledger, &mut handle, number);
    Seat::new(alloc, handle, number, layout)
}
