// A new table, as the handles of its seats.
ghost use Rattle.std.specs.Arc.{arc_value};
ghost use Rattle.std.specs.Prelude.{◌≡◌, ◌≢◌, All, IfOk, IfSome, None, length};
ghost use Rattle.wfe_c.specs.Opened.{IsSeated, IsSet, IsWith};
ghost use Rattle.wfe_c.specs.Setting.{config_of, scheme_number, scheme_of};
ghost use Rattle.wfe_table.specs.Public.{IsOf};

use crate::codes::{BAD_COUNT, BAD_SCHEME, IN_USE, NULL, OK};
use crate::common::Common;
use crate::handle::SeatHandle;
use crate::joined::Joined;
use crate::setting::{CSetting, refusal, scheme_of};
use crate::tally::Member;
use std::alloc::{AllocError, Global};
use std::sync::Arc;
use wfe_table::{Config, MakeError, Seat, Shared, usual};

// The table, where each of its seats finds it.
fn shared_by_all(alloc: Global, shared: Shared) -> Result<Arc<Common, Global>, AllocError>
    ensures { IfOk result (λ common. (arc_value common).shared ≡ shared) }
{
    let common = Common::new(alloc, shared)?;
    Ok(Arc::new(alloc, common)?)
}

// The seats, each with the table, and with a part in its tally.
fn joined(
    alloc: Global,
    common: Arc<Common, Global>,
    seats: Vec<Seat>,
) -> Result<Vec<Box<Joined>>, AllocError>
    requires of { All (λ seat. IsOf seat (arc_value common).shared) seats.items }
    ensures { IfOk result (λ made. All (IsWith (arc_value common).shared) made.items) }
{
    let first = Member::new(alloc)?;
    let mut made = Vec::with_capacity(alloc, seats.len())?;
    for seat in seats {
        let own = Arc::try_clone(&common)?;
        let member = first.another()?;
        let joined = Joined::new(own, member, seat);
        let boxed = Box::new(alloc, joined)?;
        made.push(boxed)?;
    }
    Ok(made)
}

// The seats of a new table of this setting.
fn opened(alloc: Global, config: Config) -> Result<Vec<Box<Joined>>, MakeError>
    ensures { IfOk result (λ made. All (IsSet config) made.items) }
{
    let (shared, seats) = match Shared::new(alloc, config) {
        Ok(made) => made,
        Err(error) => return Err(error),
    };
    let Ok(common) = shared_by_all(alloc, shared) else {
        return Err(MakeError::NoMemory);
    };
    match joined(alloc, common, seats) {
        Ok(made) => Ok(made),
        Err(_) => Err(MakeError::NoMemory),
    }
}

// Whether one of the handles has a seat, or what a closed table held.
fn in_use(seats: &[SeatHandle]) -> bool {
    for seat in seats {
        if seat.has_seat() || seat.is_closed() {
            return true;
        }
    }
    false
}

// Puts the seats at the handles, from the last one on.
fn seat_all(seats: &mut [SeatHandle], mut made: Vec<Box<Joined>>, _config: Config)
    requires count { length made.items ≡ length seats.old }
    requires set { All (IsSet _config) made.items }
    ensures { All (IsSeated _config) seats.new }
{
    while let Some(boxed) = made.pop() {
        seats[made.len()] = SeatHandle::of(boxed);
    }
}

/// Makes a table of this setting, and puts its seats at C's pointer, in number order: as many handles as the setting has seats, none of
/// which has one, or what a closed table held.
#[unsafe(no_mangle)]
pub extern "C" fn wfe_c_open(alloc: Global, setting: CSetting, seats: &mut [SeatHandle]) -> u32
    ensures seated { result ≡ 0 → IfSome (scheme_of setting.scheme) (λ scheme. All (IsSeated (config_of setting scheme)) seats.new) }
    ensures scheme { result ≡ 0 → scheme_of setting.scheme ≢ None }
    ensures same { result ≢ 0 → seats.new ≡ seats.old }
{
    let Some(scheme) = scheme_of(setting.scheme) else {
        return BAD_SCHEME;
    };
    if seats.is_empty() {
        return NULL;
    }
    if seats.len() != setting.seats as usize {
        return BAD_COUNT;
    }
    if in_use(seats) {
        return IN_USE;
    }
    let config = setting.config(scheme);
    match opened(alloc, config) {
        Ok(made) => {
            if made.len() != seats.len() {
                return BAD_COUNT;
            }
            seat_all(seats, made, config);
            OK
        }
        Err(error) => refusal(error),
    }
}

/// A setting for so many threads, each with one seat, and for so many keys, by this scheme. No table is made of an unknown one.
#[unsafe(no_mangle)]
pub extern "C" fn wfe_c_usual(scheme: u32, threads: u32, keys: u32) -> CSetting
    ensures { IfSome (scheme_of scheme) (λ known. result.scheme ≡ scheme_number known) }
{
    match scheme_of(scheme) {
        Some(scheme) => CSetting::of(usual(scheme, threads, keys)),
        None => CSetting {
            scheme,
            ..CSetting::zeros()
        },
    }
}
