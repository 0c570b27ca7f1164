// Two versions of a bucket in a reader's hands while it moves on: the first one reads the same as before.
ghost use Rattle.std.specs.Prelude.{◌≡◌, ◌<◌, [], IfSome};
ghost use Rattle.wfe_table.specs.Public.{IsOf, new_seats};
ghost use Rattle.wfe_table.specs.rule.Views.{seat_of};
ghost use Rattle.wfe_uses.specs.Keeping.{Keeps, KeepsRow, ReadsTheSame};

use crate::pair::pair_of;
use std::alloc::Global;
use wfe_table::{Config, Looked, SchemeKind, Seat, Shared, usual};

/// What a reader saw of a row that it kept, of the one that came after it, and of the first one again.
#[derive(Clone, Copy)]
pub(crate) struct Views {
    pub(crate) first: Looked,
    pub(crate) moved: Looked,
    pub(crate) again: Looked,
}

// Holds the row of the key's bucket, keeps it at index 3, and looks at it there.
fn keep_row(shared: &Shared, reader: &mut Seat, key: u64) -> Option<Looked>
    requires of { IsOf reader.old shared.now }
    requires fresh { reader.old.track.local.log ≡ [] }
    requires range { 3 < shared.now.layout.config.indexes }
    ensures of { IsOf reader.new shared.now }
    ensures kept { IfSome result (KeepsRow key reader.new.track.local.log) }
{
    let Some(_held) = shared.hold(reader, key) else {
        return None;
    };
    let Some(_copied) = shared.copy(reader, 2, 3) else {
        return None;
    };
    let Some(first) = shared.look(reader, 3, key) else {
        return None;
    };
    Some(first)
}

// Holds the row that the bucket has now, looks at it, and at the kept one again.
fn look_again(shared: &Shared, reader: &mut Seat, key: u64, first: Looked) -> Option<Views>
    requires of { IsOf reader.old shared.now }
    requires kept { KeepsRow key reader.old.track.local.log first }
    requires range { 3 < shared.now.layout.config.indexes }
    ensures of { IsOf reader.new shared.now }
    ensures kept { IfSome result (Keeps key reader.new.track.local.log) }
    ensures number { IfSome result (λ _. seat_of reader.new.track < shared.now.layout.config.seats) }
{
    let Some(_next) = shared.hold(reader, key) else {
        return None;
    };
    let Some(moved) = shared.look(reader, 2, key) else {
        return None;
    };
    let Some(again) = shared.look(reader, 3, key) else {
        return None;
    };
    Some(Views {
        first,
        moved,
        again,
    })
}

// The reader keeps a row, which the writer then replaces; and looks at it before and after that.
fn look_twice(shared: &Shared, reader: &mut Seat, writer: &mut Seat, key: u64) -> Option<Views>
    requires reader { IsOf reader.old shared.now }
    requires writer { IsOf writer.old shared.now }
    requires fresh { reader.old.track.local.log ≡ [] }
    requires range { 3 < shared.now.layout.config.indexes }
    ensures reader { IsOf reader.new shared.now }
    ensures writer { IsOf writer.new shared.now }
    ensures kept { IfSome result (Keeps key reader.new.track.local.log) }
    ensures number { IfSome result (λ _. seat_of reader.new.track < shared.now.layout.config.seats) }
{
    let _ = shared.put(writer, key, 1);
    let first = keep_row(shared, reader, key)?;
    let _ = shared.put(writer, key, 2);
    look_again(shared, reader, key, first)
}

// A new table with an index at which a row is kept, and its seats.
fn open(alloc: Global, scheme: SchemeKind) -> Option<(Shared, Vec<Seat>)>
    ensures new { IfSome result (λ r. r.1.items ≡ new_seats r.0) }
    ensures range { IfSome result (λ r. 3 < r.0.layout.config.indexes) }
{
    let config = Config {
        indexes: 4,
        ..usual(scheme, 2, 1)
    };
    let Ok((shared, seats)) = Shared::new(alloc, config) else {
        return None;
    };
    if shared.layout().config().indexes < 4 {
        return None;
    }
    Some((shared, seats))
}

// Closes the table with both seats: what the reader has seen, which reads the same at both looks.
fn close(
    alloc: Global,
    shared: Shared,
    writer: Seat,
    reader: Seat,
    _key: u64,
    views: Views,
) -> Option<Views>
    requires writer { IsOf writer shared }
    requires reader { IsOf reader shared }
    requires kept { Keeps _key reader.track.local.log views }
    requires number { seat_of reader.track < shared.layout.config.seats }
    ensures { IfSome result ReadsTheSame }
{
    let mut seats = Vec::new(alloc);
    if seats.push(writer).is_err() || seats.push(reader).is_err() {
        return None;
    }
    match shared.close(alloc, seats) {
        Ok(_) => Some(views),
        Err(_) => None,
    }
}

/// Keeps two versions of a bucket, and closes the table: the first one has read the same at both looks.
pub(crate) fn snapshot(alloc: Global, scheme: SchemeKind, key: u64) -> Option<Views>
    ensures { IfSome result ReadsTheSame }
{
    let (shared, seats) = open(alloc, scheme)?;
    let (mut reader, mut writer) = pair_of(&shared, seats)?;
    let views = look_twice(&shared, &mut reader, &mut writer, key)?;
    close(alloc, shared, writer, reader, key, views)
}
