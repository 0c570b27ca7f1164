// The last call of each seat: where it began, and at which root it looks.
ghost use Rattle.std.specs.Prelude.{◌≡◌, ◌<◌, ◌==◌, ℕ, IfOk, if◌then◌else◌, length, replicate};
ghost use Rattle.wfe_check_held.specs.Roots.{looks as does_look, looks_at as does_look_at};
ghost use Rattle.wfe_check_held.specs.Steps.{seat_after as after};
ghost use Rattle.wfe_check_held.specs.Times.{first_seat, seat_at};

use std::alloc::Global;
use wfe_defs::{Call, Event, NoMemory, Root};

/// The last call of a seat.
#[derive(Clone, Copy)]
pub(crate) struct Seat {
    /// The position right after its Begin, which is the number of entries up to there; 0 before the
    /// first.
    pub(crate) begun: u64,
    /// The clock there.
    pub(crate) clock: u64,
    pub(crate) call: Option<Call>,
}

/// Whether the call looks at a root.
pub(crate) fn looks(call: Option<Call>) -> bool
    ensures { result ≡ does_look call }
{
    match call {
        Some(
            Call::Get { .. }
            | Call::Put { .. }
            | Call::Remove { .. }
            | Call::PutIf { .. }
            | Call::Hold { .. }
            | Call::Enqueue { .. }
            | Call::Dequeue,
        ) => true,
        _ => false,
    }
}

/// Whether the call looks at this root.
pub(crate) fn looks_at(call: Option<Call>, buckets: u32, root: Root) -> bool
    requires { 0 < buckets }
    ensures { result ≡ does_look_at buckets call root }
{
    match root {
        Root::Bucket(bucket) => looks_in(call, buckets, bucket),
        Root::Head => matches!(call, Some(Call::Dequeue)),
        Root::Tail => matches!(call, Some(Call::Enqueue { .. })),
        Root::Next(_) => false,
    }
}

// Whether the call looks at the root of this bucket.
fn looks_in(call: Option<Call>, buckets: u32, bucket: u32) -> bool
    requires { 0 < buckets }
    ensures { result ≡ does_look_at buckets call (Root.Bucket bucket) }
{
    match call {
        Some(
            Call::Get { key }
            | Call::Put { key, .. }
            | Call::Remove { key }
            | Call::PutIf { key, .. }
            | Call::Hold { key },
        ) => key % u64::from(buckets) == u64::from(bucket),
        _ => false,
    }
}

/// The seats before the first entry.
pub(crate) fn first_seats(alloc: Global, seats: u32) -> Result<Vec<Seat>, NoMemory>
    ensures { IfOk result (λ cells. cells.items ≡ replicate seats first_seat) }
{
    let first = Seat {
        begun: 0,
        clock: 1,
        call: None,
    };
    match vec![in alloc; first; seats as usize] {
        Ok(cells) => Ok(cells),
        Err(_) => Err(NoMemory),
    }
}

/// Tells a seat its event.
#[inline(always)]
pub(crate) fn tell_seats(seats: &mut Vec<Seat>, seat: u32, event: &Event, position: u64, clock: u64)
    requires { seat < length seats.old.items }
    ensures count { length seats.new.items ≡ length seats.old.items }
    ensures each { (i : ℕ) → i < length seats.old.items →
        seat_at seats.new.items i
        ≡ (if i == seat then after event.now position clock (seat_at seats.old.items i)
        else seat_at seats.old.items i) }
{
    // A seat is kept whole by all but one kind of event.
    if let Event::Begin { call } = *event {
        seats[seat as usize] = Seat {
            begun: position,
            clock,
            call: Some(call),
        };
    }
}
