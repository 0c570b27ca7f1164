// What one thread has put another gets, or a later value, once it was told of the put. Between calls of two threads of which neither
// was told of the other's no order is known.
ghost use Rattle.std.specs.Prelude.{◌≡◌, IfSome};
ghost use Rattle.wfe_core.specs.defs.declared.call.Answer.TheVariants as answers;
ghost use Rattle.wfe_core.specs.defs.declared.call.Call.TheVariants as calls;
ghost use Rattle.wfe_table.specs.Calls.{IsMade};
ghost use Rattle.wfe_table.specs.Public.{IsOf};
ghost use Rattle.wfe_uses.specs.Handing.{IsNoOlder, IsTold};

use crate::pair::pair_of;
use std::alloc::Global;
use std::thread;
use std::thread::Threads;
use wfe_table::{Got, News, SchemeKind, Seat, Shared, usual};

/// Values that the first thread puts while the other gets.
const MORE: u64 = 100;

/// A put that is done: its value, the version that it made, and how far its seat knew the table's history then.
#[derive(Drop)]
pub(crate) struct Told {
    pub(crate) value: u64,
    pub(crate) version: u64,
    pub(crate) news: News,
}

// Puts a value, and says how far the seat knows the table's history then.
fn put_and_tell(shared: &Shared, seat: &mut Seat, key: u64, value: u64) -> Option<Told>
    requires of { IsOf seat.old shared.now }
    ensures of { IsOf seat.new shared.now }
    ensures value { IfSome result (λ told. told.value ≡ value) }
    ensures made { IfSome result (λ told. (clock : _) × IsMade shared.now.layout seat.old seat.new (calls.Put key value) (answers.Done told.version clock)) }
    ensures told { IfSome result (IsTold shared.now key) }
{
    match shared.put(seat, key, value) {
        Ok(done) => Some(Told {
            value,
            version: done.version,
            news: shared.news(seat),
        }),
        Err(_) => None,
    }
}

// Gets the key, once the seat has heard of the put.
fn hear_and_get(shared: &Shared, seat: &mut Seat, told: Told, key: u64) -> Got
    requires of { IsOf seat.old shared.now }
    requires told { IsTold shared.now key told }
    ensures of { IsOf seat.new shared.now }
    ensures no_older { IsNoOlder told.value told.version result }
{
    shared.hear(seat, told.news);
    shared.get(seat, key)
}

// Puts further values.
fn put_more(shared: &Shared, mut seat: Seat, key: u64)
    requires of { IsOf seat shared.now }
{
    for value in 0..MORE {
        let _ = shared.put(&mut seat, key, value);
    }
}

// The reader is told of the put on a thread of its own, and gets the key, while the writer goes on putting on this one.
fn get_beside<R: Threads + Sync>(
    rt: &R,
    shared: &Shared,
    reader: Seat,
    told: Told,
    writer: Seat,
    key: u64,
) -> Got
    requires reader { IsOf reader shared.now }
    requires told { IsTold shared.now key told }
    requires writer { IsOf writer shared.now }
    ensures no_older { IsNoOlder told.value told.version result }
{
    let (got, _) = thread::join(
        rt,
        move || -> Got
            requires { IsOf reader shared.now × IsTold shared.now key told }
            ensures { IsNoOlder told.value told.version result }
        {
            let mut seat = reader;
            hear_and_get(shared, &mut seat, told, key)
        },
        move || -> bool
            requires { IsOf writer shared.now }
        {
            put_more(shared, writer, key);
            true
        },
    );
    got
}

/// Puts a value on one thread, which hands the news of that to another: the version that the put made, and what the other then got. That
/// is the value, or a later one.
pub(crate) fn hand_over<R: Threads + Sync>(
    rt: &R,
    alloc: Global,
    scheme: SchemeKind,
    key: u64,
    value: u64,
) -> Option<(u64, Got)>
    ensures no_older { IfSome result (λ r. IsNoOlder value r.0 r.1) }
{
    let Ok((shared, seats)) = Shared::new(alloc, usual(scheme, 2, 1)) else {
        return None;
    };
    let (reader, mut writer) = pair_of(&shared, seats)?;
    let told = put_and_tell(&shared, &mut writer, key, value)?;
    let version = told.version;
    let got = get_beside(rt, &shared, reader, told, writer, key);
    Some((version, got))
}
