// Records in cells, which threads read by reference while others replace them.
ghost use Rattle.std.specs.Prelude.{◌≡◌, ◌<◌, All};
ghost use Rattle.wfe_shared_cells.specs.cells.table.Public.{IsOf};

use std::alloc::Global;
use std::sync::Arc;
use std::thread;
use std::thread::Threads;
use wfe_shared_cells::{Anything, Objects, SchemeKind, SharedCells, SharedUser, usual};

const CELLS: u32 = 2;

const TURNS: u64 = 2_000;

/// Two numbers that are the same, and an owner more of what counts the records that are there.
#[derive(Drop)]
pub(crate) struct Record {
    pub(crate) first: u64,
    pub(crate) second: u64,
    alive: Arc<()>,
}

/// A record of a number.
pub(crate) fn make_record(alloc: Global, number: u64, alive: &Arc<()>) -> Option<Arc<Record>> {
    let Ok(alive) = Arc::try_clone(alive) else {
        return None;
    };
    let made = Record {
        first: number,
        second: number,
        alive,
    };
    match Arc::new(alloc, made) {
        Ok(record) => Some(record),
        Err(_) => None,
    }
}

/// How many objects the cells have left, each of which is dropped.
pub(crate) fn count_left(mut objects: Objects<Record, Anything>) -> u64 {
    let mut count = 0u64;
    while let Some((_number, _record)) = objects.next() {
        count = count.saturating_add(1);
    }
    count
}

/// What was found: loads that showed half a record, or none where there was one; by how many the records that came back at the end were
/// more or less than those that were there; and how many records are left.
#[derive(Clone, Copy)]
pub(crate) struct Found {
    pub(crate) torn: u64,
    pub(crate) missed: u64,
    pub(crate) off: u64,
    pub(crate) left: u64,
}

// Reads a cell.
fn look(cells: &SharedCells<Record>, user: &mut SharedUser, cell: u64, found: &mut Found)
    requires of { IsOf user.old.part.user.seat cells.now }
    requires cell { cell < cells.now.layout.config.buckets }
    ensures of { IsOf user.new.part.user.seat cells.now }
{
    let (seen, shown) = cells.load(&mut user.part, &mut user.reading, cell);
    match shown {
        Some(shown) => {
            if shown.first != shown.second {
                found.torn = found.torn.saturating_add(1);
            }
        }
        None => {
            if seen.number().is_some() {
                found.missed = found.missed.saturating_add(1);
            }
        }
    }
}

// A thread's work.
fn work(alloc: Global, cells: &SharedCells<Record>, mut user: SharedUser, alive: &Arc<()>) -> Found
    requires { IsOf user.part.user.seat cells.now }
{
    let mut found = Found {
        torn: 0,
        missed: 0,
        off: 0,
        left: 0,
    };
    let count = cells.count();
    for number in 0..TURNS {
        if count > 0 {
            if let Some(record) = make_record(alloc, number, alive) {
                let cell = number % count;
                look(cells, &mut user, cell, &mut found);
                let _ = cells.swap(&mut user.part, &mut user.reading, cell, record);
            }
        }
    }
    if count > 0 {
        let _ = cells.take(&mut user.part, &mut user.reading, 0);
    }
    found
}

// Each user's work, by a thread of its own.
fn work_all<R: Threads + Sync>(
    rt: &R,
    alloc: Global,
    cells: &SharedCells<Record>,
    users: Vec<SharedUser>,
    alive: &Arc<()>,
) -> Option<Vec<Found>>
    requires { All (λ user. IsOf user.part.user.seat cells.now) users.items }
{
    let done = thread::map_vec(
        rt,
        users,
        &|user: SharedUser| -> Found
            requires { IsOf user.part.user.seat cells.now }
        { work(alloc, cells, user, alive) },
    );
    match done {
        Ok(done) => Some(done),
        Err(_) => None,
    }
}

// How many records are there.
fn count_there(alive: &Arc<()>) -> u64 {
    (Arc::strong_count(alive) as u64).saturating_sub(1)
}

// All that threads have found on cells that are gone at the end, and by how many the records that came back were off.
fn found_by<R: Threads + Sync>(
    rt: &R,
    alloc: Global,
    threads: u32,
    alive: &Arc<()>,
) -> Option<(Vec<Found>, u64)> {
    let Ok((cells, users)) = SharedCells::<Record>::new(
        alloc,
        usual(SchemeKind::Wfe, threads, CELLS),
    ) else {
        return None;
    };
    let found = work_all(rt, alloc, &cells, users, alive)?;
    let there = count_there(alive);
    Some((found, count_left(cells.into_objects()).abs_diff(there)))
}

/// Has so many threads read records and replace them, and counts what was found, and how many records are left once the cells are gone.
pub(crate) fn read_and_replace<R: Threads + Sync>(
    rt: &R,
    alloc: Global,
    threads: u32,
) -> Option<Found> {
    let Ok(alive) = Arc::new(alloc, ()) else {
        return None;
    };
    let mut all = Found {
        torn: 0,
        missed: 0,
        off: 0,
        left: 0,
    };
    let (each, off) = found_by(rt, alloc, threads, &alive)?;
    for found in &each {
        all.torn = all.torn.saturating_add(found.torn);
        all.missed = all.missed.saturating_add(found.missed);
    }
    all.off = off;
    all.left = count_there(&alive);
    Some(all)
}
