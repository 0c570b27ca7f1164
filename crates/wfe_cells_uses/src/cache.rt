// A cache of buffers: threads fill buffers of their own and put them into cells, in which all read them. A buffer that was replaced comes
// back to the thread that replaced it, once no thread reads it any more, and is filled anew.
ghost use Rattle.std.specs.Prelude.{◌≡◌, ◌<◌, All, IfSome};
ghost use Rattle.wfe_table.specs.Public.{IsOf};

use std::alloc::Global;
use std::sync::atomic::AtomicU64;
use std::sync::atomic::Ordering::SeqCst;
use std::thread;
use std::thread::Threads;
use wfe_cells::{Cells, SchemeKind, User};
use wfe_table::{Closed, Seat, usual};

const CELLS: u32 = 4;

const WORDS: usize = 8;

const OWN: u64 = 64;

const TURNS: u64 = 2_000;

/// Buffers of some words each, which all threads may read and write.
#[derive(Drop)]
pub(crate) struct Buffers {
    words: Vec<AtomicU64>,
}

impl Buffers {
    fn new(alloc: Global, count: u64) -> Option<Buffers> {
        let mut words = Vec::new(alloc);
        for _word in 0..(count as usize).saturating_mul(WORDS) {
            if words.push(AtomicU64::new(0)).is_err() {
                return None;
            }
        }
        Some(Buffers { words })
    }

    // Writes numbers in a row.
    fn fill(&self, buffer: u64, first: u64) {
        let start = (buffer as usize).saturating_mul(WORDS);
        for place in 0..WORDS {
            if let Some(word) = self.words.get(start.saturating_add(place)) {
                word.store(first.wrapping_add(place as u64), SeqCst);
            }
        }
    }

    // Whether these are numbers in a row.
    fn is_whole(&self, buffer: u64) -> bool {
        let start = (buffer as usize).saturating_mul(WORDS);
        let mut last: Option<u64> = None;
        for place in 0..WORDS {
            let Some(word) = self.words.get(start.saturating_add(place)) else {
                return false;
            };
            let now = word.load(SeqCst);
            if last.is_some_and(|before| now != before.wrapping_add(1)) {
                return false;
            }
            last = Some(now);
        }
        true
    }
}

/// A thread's part, and what it has found.
#[derive(Drop)]
pub(crate) struct Reader {
    user: User,
    /// Its buffers that are in no cell.
    own: Vec<u64>,
    loads: u64,
    torn: u64,
}

impl Reader {
    // The buffers that came back are its own again.
    fn gather(&mut self)
        ensures { self.new.user.seat ≡ self.old.user.seat }
    {
        for _buffer in 0..OWN {
            let Some(buffer) = self.user.next_free() else {
                break;
            };
            if self.own.push(buffer).is_err() {
                break;
            }
        }
    }

    // Reads a cell, and gives it a buffer that is filled anew, where it has one.
    fn turn(&mut self, cells: &Cells, buffers: &Buffers, cell: u64, first: u64)
        requires of { IsOf self.old.user.seat cells.now }
        requires cell { cell < cells.now.layout.config.buckets }
        ensures of { IsOf self.new.user.seat cells.now }
    {
        let seen = cells.load(&mut self.user, cell);
        if let Some(buffer) = seen.object {
            self.loads = self.loads.saturating_add(1);
            if !buffers.is_whole(buffer) {
                self.torn = self.torn.saturating_add(1);
            }
        }
        self.gather();
        if let Some(buffer) = self.own.pop() {
            buffers.fill(buffer, first);
            let refused = buffer == u64::MAX
                || cells
                    .compare_swap(&mut self.user, cell, seen, Some(buffer))
                    .is_err();
            if refused {
                let _ = self.own.push(buffer);
            }
        }
        cells.release(&mut self.user);
    }
}

fn work(cells: &Cells, buffers: &Buffers, mut reader: Reader) -> Reader
    requires of { IsOf reader.user.seat cells.now }
    ensures of { IsOf result.user.seat cells.now }
{
    let count = cells.count();
    if count == 0 {
        return reader;
    }
    for turn in 0..TURNS {
        reader.turn(cells, buffers, turn % count, turn);
    }
    reader
}

// Each reader's work, by a thread of its own.
fn work_all<R: Threads + Sync>(
    rt: &R,
    cells: &Cells,
    buffers: &Buffers,
    readers: Vec<Reader>,
) -> Option<Vec<Reader>>
    requires of { All (λ reader. IsOf reader.user.seat cells.now) readers.items }
    ensures of { IfSome result (λ readers. All (λ reader. IsOf reader.user.seat cells.now) readers.items) }
{
    let done = thread::map_vec(
        rt,
        readers,
        &|reader: Reader| -> Reader
            requires { IsOf reader.user.seat cells.now }
            ensures { IsOf result.user.seat cells.entry.now }
        { work(cells, buffers, reader) },
    );
    match done {
        Ok(readers) => Some(readers),
        Err(_) => None,
    }
}

// The numbers of a reader's own buffers, from a first one on.
fn numbers(alloc: Global, first: u64) -> Option<Vec<u64>> {
    let mut own = Vec::new(alloc);
    for number in 0..OWN {
        if own.push(first.saturating_add(number)).is_err() {
            return None;
        }
    }
    Some(own)
}

// The reader of a user, with buffers of its own from this one on.
fn reader_of(alloc: Global, user: User, first: u64) -> Option<Reader>
    ensures { IfSome result (λ reader. reader.user ≡ user) }
{
    let own = numbers(alloc, first)?;
    Some(Reader {
        user,
        own,
        loads: 0,
        torn: 0,
    })
}

// A reader for each user, with buffers of its own.
fn readers(alloc: Global, _cells: &Cells, mut users: Vec<User>) -> Option<Vec<Reader>>
    requires of { All (λ user. IsOf user.seat _cells.now) users.items }
    ensures of { IfSome result (λ readers. All (λ reader. IsOf reader.user.seat _cells.now) readers.items) }
{
    let mut readers = Vec::new(alloc);
    let mut first = 0u64;
    while let Some(user) = users.pop() {
        let reader = reader_of(alloc, user, first)?;
        first = first.saturating_add(OWN);
        if readers.push(reader).is_err() {
            return None;
        }
    }
    Some(readers)
}

/// What was found: how many loads were torn, and how many buffers are there at the end.
#[derive(Clone, Copy)]
pub(crate) struct Found {
    pub(crate) torn: u64,
    pub(crate) buffers: u64,
}

// How many objects are there.
fn count_some(kept: &[Option<u64>]) -> usize {
    let mut count = 0usize;
    for object in kept {
        if object.is_some() {
            count = count.saturating_add(1);
        }
    }
    count
}

// The seats of the readers, and what they have found and still have.
fn apart(alloc: Global, _cells: &Cells, mut readers: Vec<Reader>) -> Option<(Vec<Seat>, Found)>
    requires of { All (λ reader. IsOf reader.user.seat _cells.now) readers.items }
    ensures of { IfSome result (λ r. All (λ seat. IsOf seat _cells.now) r.0.items) }
{
    let mut seats = Vec::new(alloc);
    let mut torn = 0u64;
    let mut buffers = 0usize;
    while let Some(reader) = readers.pop() {
        let Reader {
            user,
            own,
            loads: _,
            torn: more,
        } = reader;
        let (seat, kept, free) = user.parts();
        torn = torn.saturating_add(more);
        buffers = buffers
            .saturating_add(own.len())
            .saturating_add(free.len())
            .saturating_add(count_some(&kept));
        if seats.push(seat).is_err() {
            return None;
        }
    }
    let found = Found {
        torn,
        buffers: buffers as u64,
    };
    Some((seats, found))
}

// Has a thread for each user read the cells and put buffers into them: their seats, and what was found.
fn fill_all<R: Threads + Sync>(
    rt: &R,
    alloc: Global,
    cells: &Cells,
    users: Vec<User>,
) -> Option<(Vec<Seat>, Found)>
    requires of { All (λ user. IsOf user.seat cells.now) users.items }
    ensures of { IfSome result (λ r. All (λ seat. IsOf seat cells.now) r.0.items) }
{
    let buffers = Buffers::new(alloc, OWN.saturating_mul(users.len() as u64))?;
    let all = readers(alloc, cells, users)?;
    let all = work_all(rt, cells, &buffers, all)?;
    apart(alloc, cells, all)
}

// How many buffers the cells of a closed table name.
fn named_in(closed: &Closed) -> u64 {
    let mut count = 0u64;
    for bucket in &closed.buckets {
        for pair in &bucket.pairs {
            if pair.1 > 0 {
                count = count.saturating_add(1);
            }
        }
    }
    count
}

// Closes the cells' table: how many buffers they name.
fn close(alloc: Global, cells: Cells, seats: Vec<Seat>) -> Option<u64>
    requires of { All (λ seat. IsOf seat cells) seats.items }
{
    match cells.into_shared().close(alloc, seats) {
        Ok(closed) => Some(named_in(&closed)),
        Err(_) => None,
    }
}

/// Makes a cache, has so many threads read it and put buffers into it, and counts what is there at the end.
pub(crate) fn cache<R: Threads + Sync>(rt: &R, alloc: Global, threads: u32) -> Option<Found> {
    let Ok((cells, users)) = Cells::new(alloc, usual(SchemeKind::Wfe, threads, CELLS)) else {
        return None;
    };
    let (seats, found) = fill_all(rt, alloc, &cells, users)?;
    let named = close(alloc, cells, seats)?;
    Some(Found {
        torn: found.torn,
        buffers: found.buffers.saturating_add(named),
    })
}
