// Cells that threads share, and the calls on them.
ghost use Rattle.std.specs.Prelude.{◌≡◌, ◌<◌, ◌+◌, ◌-◌, ◌^◌, All, Err, IfErr, IfOk, IfSome, IsSomeAnd, None, Ok, length};
ghost use Rattle.std.specs.Arc.{arc_value};
ghost use Rattle.wfe_cells.specs.Calls.{IsFresh, IsLoaded};
ghost use Rattle.wfe_core.specs.words.Place.{layout_of};
ghost use Rattle.wfe_cells.specs.table.Making.{IsRefused as IsNotMade};
ghost use Rattle.wfe_cells.specs.table.Public.{IsOf};
ghost use Rattle.wfe_shared_cells.specs.Calls.{IsChanged, IsCollected, IsGiven, IsNewPart, IsNotSwappedIn, IsOffered, IsRefusedFor, IsReleased, IsSwappedIn, next_number, number_in, number_named, places_of, version_of, word_of};

use crate::Keeps;
use crate::left::Objects;
use crate::object::Object;
use crate::shelves::{PLACES, Shelves};
use crate::user::{Part, Reading, SharedUser};
use std::alloc::Global;
use std::marker::Model;
use std::sync::Arc;
use thiserror::Error;
use wfe_cells::{Cells, Config, Loaded, MakeError, PutIfRefusal, Swapped, User};

/// How many objects one thread may offer.
const MOST: u64 = 2_199_023_255_552;

/// What a cell was when it was read: its version, and which object it had, or none. It is of the cells that were read, and good for no
/// others.
#[derive(Clone, Copy, Debug, PartialEq, Eq)]
pub struct Seen {
    pub(crate) cell: u64,
    // The object is its number times 65,536, and its place.
    pub(crate) loaded: Loaded,
}

impl Seen {
    /// The cell's number.
    pub fn cell(&self) -> u64
        ensures { result ≡ self.now.cell }
    {
        self.cell
    }

    /// The version that the cell had.
    pub fn version(&self) -> u64
        ensures { result ≡ self.now.loaded.version }
    {
        self.loaded.version
    }

    /// The number of the object that it had, or none.
    pub fn number(&self) -> Option<u64>
        ensures { result ≡ number_named self.now.loaded.object }
    {
        match self.loaded.object {
            None => None,
            Some(word) => Some(word / PLACES),
        }
    }
}

/// Why a cell was not given an object.
#[derive(Clone, Copy, Debug, PartialEq, Eq, Error)]
pub enum SwapRefusal {
    /// No place was found free for the object: too many that were replaced wait for a scan, or for readers that stand still. No clause
    /// says so, since none says what the word of a share holds.
    #[error("no place was free for the object")]
    NoPlace,
    /// The thread has offered 2^41 objects.
    #[error("the thread has no number left for an object")]
    NoNumber,
    /// The put was refused: the cell had another version since, or there was no row.
    #[error("{refusal}")]
    NotPut { refusal: PutIfRefusal },
}

/// An object that no cell was given, and why.
#[derive(Drop)]
pub struct Refused<T> {
    pub why: SwapRefusal,
    pub object: Arc<T>,
}

/// Cells by numbers from 0, each with an object or none, which all threads read by reference. It is seen as the table in which each cell is
/// a bucket with one key, which names the cell's object.
#[derive(Drop)]
pub struct RuledCells<T, K: Keeps<T>> {
    cells: Cells,
    shelves: Shelves<T, K>,
}

impl<T, K: Keeps<T>> Model for RuledCells<T, K> {
    ghost use Rattle.std.specs.Prelude.{◌≡◌};
    ghost use Rattle.wfe_cells.specs.table.Public.{TableNow};
    ghost use Rattle.wfe_shared_cells.specs.Calls.{places_of};

    ghost Value = { TableNow };

    ghost view = { λ c. c.cells };

    ghost invariant = { λ c. c.shelves ≡ places_of c.cells.layout.config };
}

// How many places there are.
fn places_for(config: Config) -> usize
    ensures { result ≡ places_of config }
{
    let each = u64::from(config.every) + u64::from(config.indexes) + 1;
    let waiting = each.saturating_mul(u64::from(config.seats));
    let all = waiting.saturating_add(u64::from(config.buckets));
    all.min(PLACES) as usize
}

// The threads' parts.
fn shared_users(alloc: Global, _cells: &Cells, mut users: Vec<User>) -> Option<Vec<SharedUser>>
    requires { All (IsFresh _cells.now) users.items }
    ensures fresh { IfSome result (λ all. All (λ user. IsNewPart _cells.now user.part) all.items) }
    ensures long { IfSome result (λ all. length all.items ≡ length users.items) }
{
    let mut all = Vec::new(alloc);
    while let Some(user) = users.pop() {
        let made = SharedUser {
            part: Part { user, count: 0 },
            reading: Reading { one: () },
        };
        if all.push(made).is_err() {
            return None;
        }
    }
    Some(all)
}

// The version that a swap has made, or why it made none.
fn version(swapped: Result<Swapped, PutIfRefusal>) -> Result<u64, PutIfRefusal>
    ensures { result ≡ version_of swapped }
{
    match swapped {
        Ok(swapped) => Ok(swapped.version),
        Err(refusal) => Err(refusal),
    }
}

// An object that lies at a place, under its number.
#[derive(Clone, Copy)]
struct Laid {
    number: u64,
    place: u64,
}

impl Laid {
    // The word by which a cell names it.
    fn word(self) -> u64
        requires place { self.place < 65536 }
        requires number { self.number < 2 ^ 48 - 1 }
        ensures value { result ≡ word_of self.number self.place }
        ensures most { result + 1 < 2 ^ 64 }
    {
        self.number * PLACES + self.place
    }
}

impl<T: Drop, K: Keeps<T>> RuledCells<T, K> {
    /// As many cells as the setting has buckets, all without an object, and a new part for each thread. A number outside its range is
    /// refused, as by `Shared::new`; `NoMemory` is answered to a good setting. A place for an object takes some 32 bytes for each
    /// thread; there is one for each cell, and for each thread as many as `every` and `indexes`, and one more, up to 65,536 in all.
    pub fn new(
        alloc: Global,
        config: Config,
    ) -> Result<(RuledCells<T, K>, Vec<SharedUser>), MakeError>
        ensures fresh { IfOk result (λ r. All (λ user. IsNewPart r.0 user.part) r.1.items) }
        ensures of { IfOk result (λ r. All (λ user. IsOf user.part.user.seat r.0) r.1.items) }
        ensures users { IfOk result (λ r. length r.1.items ≡ config.seats) }
        ensures made { IfOk result (λ r. layout_of config ≡ Ok r.0.layout) }
        ensures refused { IfErr result (IsNotMade config) }
    {
        let (cells, users) = match Cells::new(alloc, config) {
            Ok(made) => made,
            Err(error) => return Err(error),
        };
        let Ok(shelves) = Shelves::new(alloc, config.seats as usize, places_for(config)) else {
            return Err(MakeError::NoMemory);
        };
        match shared_users(alloc, &cells, users) {
            Some(users) => Ok((RuledCells { cells, shelves }, users)),
            None => Err(MakeError::NoMemory),
        }
    }

    /// How many cells there are.
    pub fn count(&self) -> u64
        ensures { result ≡ self.now.layout.config.buckets }
    {
        self.cells.count()
    }

    /// Reads a cell: a version that it had since the call began, and the object that it had then, which is not dropped while the guard
    /// is there. The row that names it is held until this thread's next load or release; the guard borrows `reading`, so that it is gone by
    /// then. Where the cell had an object and none is shown, this thread has forgotten a guard of that object; no clause says so, since none
    /// says what the word of a share holds.
    pub fn load<'a>(
        &'a self,
        part: &mut Part,
        _reading: &'a mut Reading,
        cell: u64,
    ) -> (Seen, Option<Object<'a, T, K>>)
        requires of { IsOf part.old.user.seat self.now }
        requires cell { cell < self.now.layout.config.buckets }
        ensures of { IsOf part.new.user.seat self.now }
        ensures count { part.new.count ≡ part.old.count }
        ensures cell { result.0.cell ≡ cell }
        ensures loaded { IsLoaded self.now.layout cell part.old.user part.new.user result.0.loaded }
        ensures shown { IfSome result.1 (λ object. IsSomeAnd result.0.loaded.object (λ word. object.number ≡ number_in word)) }
    {
        let loaded = self.cells.load(&mut part.user, cell);
        let object = match loaded.object {
            None => None,
            Some(word) => self.shelves.show(part.user.number() as usize, word),
        };
        (Seen { cell, loaded }, object)
    }

    /// Ends the cells: the objects that are left, for the caller to take one after another, from as many places as there are. All other
    /// threads' shares of them are dropped before. An object of which a guard was forgotten was never dropped, so it comes too.
    pub fn into_objects(self) -> Objects<T, K>
        ensures { result ≡ places_of self.layout.config }
    {
        let RuledCells { cells: _, shelves } = self;
        Objects {
            places: shelves.into_first(),
        }
    }

    /// Lets go of what was read, and drops what this thread has replaced and may be dropped.
    pub fn release(&self, part: &mut Part, _reading: &mut Reading)
        requires of { IsOf part.old.user.seat self.now }
        ensures of { IsOf part.new.user.seat self.now }
        ensures count { part.new.count ≡ part.old.count }
        ensures released { IsReleased self.now.layout part.old.user part.new.user }
    {
        self.cells.release(&mut part.user);
        self.collect(&mut part.user);
    }

    // Drops what this thread has replaced and may be dropped: all threads' shares of it.
    fn collect(&self, user: &mut User)
        ensures { IsCollected user.old user.new }
    {
        while let Some(word) = user.next_free() {
            self.shelves.clear(word % PLACES);
        }
    }

    // Gives the cell what this word names, or none, where it is at the version that was seen.
    fn give(&self, part: &mut Part, seen: Seen, word: Option<u64>) -> Result<u64, PutIfRefusal>
        requires of { IsOf part.old.user.seat self.now }
        requires cell { seen.cell < self.now.layout.config.buckets }
        requires word { IfSome word (λ number. number + 1 < 2 ^ 64) }
        ensures of { IsOf part.new.user.seat self.now }
        ensures count { part.new.count ≡ part.old.count }
        ensures given { IsGiven self.now.layout part.old.user part.new.user seen word result }
    {
        let swapped = self
            .cells
            .compare_swap(&mut part.user, seen.cell, seen.loaded, word);
        self.collect(&mut part.user);
        version(swapped)
    }

    // The same whatever the cell has.
    fn change(
        &self,
        part: &mut Part,
        cell: u64,
        word: Option<u64>,
    ) -> (Seen, Result<u64, PutIfRefusal>)
        requires of { IsOf part.old.user.seat self.now }
        requires cell { cell < self.now.layout.config.buckets }
        requires word { IfSome word (λ number. number + 1 < 2 ^ 64) }
        ensures of { IsOf part.new.user.seat self.now }
        ensures count { part.new.count ≡ part.old.count }
        ensures changed { IsChanged self.now.layout cell part.old.user part.new.user word result.0 result.1 }
    {
        let (loaded, swapped) = self.cells.swap(&mut part.user, cell, word);
        self.collect(&mut part.user);
        (Seen { cell, loaded }, version(swapped))
    }

    // Lays an object at a place, under the part's next number.
    fn lay(&self, part: &mut Part, object: &Arc<T>) -> Result<Laid, SwapRefusal>
        requires kept { K.holds (next_number part.old) (arc_value object.now) }
        ensures seat { part.new.user ≡ part.old.user }
        ensures count { IfOk result (λ _. part.new.count ≡ part.old.count + 1) }
        ensures number { IfOk result (λ laid. laid.number ≡ next_number part.old) }
        ensures most { IfOk result (λ laid. laid.number < 2 ^ 48 - 1) }
        ensures place { IfOk result (λ laid. laid.place < 65536) }
        ensures refused { IfErr result (IsRefusedFor part.old part.new (λ _. ⊥)) }
    {
        if part.count >= MOST {
            return Err(SwapRefusal::NoNumber);
        }
        let number = part.next_number();
        part.count += 1;
        match self.shelves.put(number, number, object) {
            Some(place) => Ok(Laid { number, place }),
            None => Err(SwapRefusal::NoPlace),
        }
    }

    // Gives the cell the object that was laid, or takes it away from its place.
    fn offer(&self, part: &mut Part, seen: Seen, laid: Laid) -> Result<u64, PutIfRefusal>
        requires of { IsOf part.old.user.seat self.now }
        requires cell { seen.cell < self.now.layout.config.buckets }
        requires place { laid.place < 65536 }
        requires number { laid.number < 2 ^ 48 - 1 }
        ensures of { IsOf part.new.user.seat self.now }
        ensures count { part.new.count ≡ part.old.count }
        ensures offered { IsOffered self.now.layout part.old.user part.new.user seen laid.number result }
    {
        let tried = self.give(part, seen, Some(laid.word()));
        if tried.is_err() {
            self.shelves.clear(laid.place);
        }
        tried
    }

    // The same whatever the cell has.
    fn put_in(&self, part: &mut Part, cell: u64, laid: Laid) -> (Seen, Result<u64, PutIfRefusal>)
        requires of { IsOf part.old.user.seat self.now }
        requires cell { cell < self.now.layout.config.buckets }
        requires place { laid.place < 65536 }
        requires number { laid.number < 2 ^ 48 - 1 }
        ensures of { IsOf part.new.user.seat self.now }
        ensures count { part.new.count ≡ part.old.count }
        ensures swapped { IsSwappedIn self.now.layout cell part.old.user part.new.user laid.number result.0 result.1 }
    {
        let (seen, tried) = self.change(part, cell, Some(laid.word()));
        if tried.is_err() {
            self.shelves.clear(laid.place);
        }
        (seen, tried)
    }

    /// Gives the cell that was seen this object, where it is at the version that was seen: the version that this makes. The object that it
    /// had is dropped by the call of this thread in whose scan the row that named it goes back, when no thread reads it. Refused, the
    /// object comes back.
    pub fn compare_swap(
        &self,
        part: &mut Part,
        seen: Seen,
        object: Arc<T>,
    ) -> Result<u64, Refused<T>>
        requires of { IsOf part.old.user.seat self.now }
        requires cell { seen.cell < self.now.layout.config.buckets }
        requires kept { K.holds (next_number part.old) (arc_value object) }
        ensures of { IsOf part.new.user.seat self.now }
        ensures offered { IfOk result (λ version. IsOffered self.now.layout part.old.user part.new.user seen (next_number part.old) (Ok version)) }
        ensures count { IfOk result (λ version. part.new.count ≡ part.old.count + 1) }
        ensures refused { IfErr result (λ refused. IsRefusedFor part.old part.new (λ refusal. IsOffered self.now.layout part.old.user part.new.user seen (next_number part.old) (Err refusal)) refused.why) }
        ensures object { IfErr result (λ refused. refused.object ≡ object) }
    {
        let laid = match self.lay(part, &object) {
            Ok(laid) => laid,
            Err(why) => return Err(Refused { why, object }),
        };
        match self.offer(part, seen, laid) {
            Ok(version) => Ok(version),
            Err(refusal) => Err(Refused {
                why: SwapRefusal::NotPut { refusal },
                object,
            }),
        }
    }

    /// Takes the object of the cell that was seen out, where it is at the version that was seen: the version that this makes. It is
    /// dropped as by a swap.
    pub fn compare_take(&self, part: &mut Part, seen: Seen) -> Result<u64, PutIfRefusal>
        requires of { IsOf part.old.user.seat self.now }
        requires cell { seen.cell < self.now.layout.config.buckets }
        ensures of { IsOf part.new.user.seat self.now }
        ensures count { part.new.count ≡ part.old.count }
        ensures taken { IsGiven self.now.layout part.old.user part.new.user seen None result }
    {
        self.give(part, seen, None)
    }

    /// Gives the cell this object, whatever it has: by a load and a put, and again where another thread came between, up to 2^64 times. It
    /// answers what the last load has read, and the version that the put made. All attempts take one number of the part and one place, where
    /// shares are laid once. The row that was read last is held until this thread's next load or release, so that what was replaced is
    /// dropped after that. Refused, the object comes back.
    pub fn swap(
        &self,
        part: &mut Part,
        _reading: &mut Reading,
        cell: u64,
        object: Arc<T>,
    ) -> Result<(Seen, u64), Refused<T>>
        requires of { IsOf part.old.user.seat self.now }
        requires cell { cell < self.now.layout.config.buckets }
        requires kept { K.holds (next_number part.old) (arc_value object) }
        ensures of { IsOf part.new.user.seat self.now }
        ensures swapped { IfOk result (λ r. IsSwappedIn self.now.layout cell part.old.user part.new.user (next_number part.old) r.0 (Ok r.1)) }
        ensures count { IfOk result (λ _. part.new.count ≡ part.old.count + 1) }
        ensures refused { IfErr result (λ refused. IsRefusedFor part.old part.new (IsNotSwappedIn self.now.layout cell part.old.user part.new.user (next_number part.old)) refused.why) }
        ensures object { IfErr result (λ refused. refused.object ≡ object) }
    {
        let laid = match self.lay(part, &object) {
            Ok(laid) => laid,
            Err(why) => return Err(Refused { why, object }),
        };
        match self.put_in(part, cell, laid) {
            (seen, Ok(version)) => Ok((seen, version)),
            (_seen, Err(refusal)) => Err(Refused {
                why: SwapRefusal::NotPut { refusal },
                object,
            }),
        }
    }

    /// Takes the cell's object out, by attempts as a swap: what the last load has read, and the version that the put made, or why there is
    /// none. The object is dropped as by a swap.
    pub fn take(
        &self,
        part: &mut Part,
        _reading: &mut Reading,
        cell: u64,
    ) -> (Seen, Result<u64, PutIfRefusal>)
        requires of { IsOf part.old.user.seat self.now }
        requires cell { cell < self.now.layout.config.buckets }
        ensures of { IsOf part.new.user.seat self.now }
        ensures count { part.new.count ≡ part.old.count }
        ensures taken { IsChanged self.now.layout cell part.old.user part.new.user None result.0 result.1 }
    {
        self.change(part, cell, None)
    }
}
