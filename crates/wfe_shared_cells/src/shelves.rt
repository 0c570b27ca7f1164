// Places for objects, each with a share for every thread. A share has a word that says whether it is there, and whether its thread reads it:
// no other thread reads that share, so readers write no word that others read.
ghost use Rattle.std.specs.Prelude.{◌≡◌, ◌<◌, ◌≤◌, IfOk, IfSome};
ghost use Rattle.std.specs.Arc.{arc_value};
ghost use Rattle.std.specs.Vec.{vec_len};
ghost use Rattle.wfe_shared_cells.specs.Calls.{number_in};

use crate::Keeps;
use crate::object::{Object, Share};
use counted_slot::{Counted, FREE, ONE_READER, PRESENT, TAKEN};
use std::alloc::{AllocError, Global};
use std::marker::{Model, PhantomData};
use std::sync::Arc;

/// How many places there are at most.
pub(crate) const PLACES: u64 = 65_536;

/// Places, each with a share for every thread. They are seen as how many there are.
#[derive(Drop)]
pub(crate) struct Shelves<T, K: Keeps<T>> {
    // The first thread's: a place is free where it has no share.
    first: Vec<Counted<Option<Share<T, K>>>>,
    // The other threads', by thread and then by place.
    others: Vec<Vec<Counted<Option<Share<T, K>>>>>,
}

impl<T, K: Keeps<T>> Model for Shelves<T, K> {
    ghost use Rattle.std.specs.Prelude.{ℕ};
    ghost use Rattle.std.specs.Vec.{vec_len};

    ghost Value = { ℕ };

    ghost view = { λ s. vec_len s.first };
}

// A thread's places, all without a share.
fn row<T: Drop, K: Keeps<T>>(
    alloc: Global,
    places: usize,
) -> Result<Vec<Counted<Option<Share<T, K>>>>, AllocError>
    ensures { IfOk result (λ row. vec_len row ≡ places) }
{
    let mut row = Vec::with_capacity(alloc, places)?;
    for _place in 0..places {
        row.push(Counted::new(None, &()))?;
    }
    Ok(row)
}

// One more share of an object.
fn share_of<T, K: Keeps<T>>(number: u64, object: &Arc<T>) -> Option<Share<T, K>>
    requires { K.holds number (arc_value object.now) }
    ensures { IfSome result (λ share. share.number ≡ number) }
{
    match Arc::try_clone(object) {
        Ok(object) => Some(Share {
            number,
            object,
            rule: PhantomData,
        }),
        Err(_) => None,
    }
}

// Lays a share where none is: whether it did.
fn lay<T: Drop, K: Keeps<T>>(place: &Counted<Option<Share<T, K>>>, share: Share<T, K>) -> bool {
    let (found, claim) = place.turn(FREE, TAKEN);
    if found != FREE {
        claim.done();
        return false;
    }
    drop(claim.put(Some(share), PRESENT));
    true
}

// Takes the share away, if its thread does not read it: whether none is there.
fn lift<T: Drop, K: Keeps<T>>(place: &Counted<Option<Share<T, K>>>) -> bool {
    let (found, claim) = place.turn(PRESENT, TAKEN);
    if found != PRESENT {
        claim.done();
        return found == FREE;
    }
    drop(claim.put(None, FREE));
    true
}

impl<T: Drop, K: Keeps<T>> Shelves<T, K> {
    // So many places for so many threads, all free.
    pub(crate) fn new(
        alloc: Global,
        threads: usize,
        places: usize,
    ) -> Result<Shelves<T, K>, AllocError>
        ensures { IfOk result (λ shelves. shelves ≡ places) }
    {
        let mut others = Vec::with_capacity(alloc, threads)?;
        for _thread in 1..threads {
            others.push(row(alloc, places)?)?;
        }
        let first = row(alloc, places)?;
        Ok(Shelves { first, others })
    }

    // How many places may be used.
    fn count(&self) -> u64
        ensures { result ≤ 65536 }
    {
        (self.first.len() as u64).min(PLACES)
    }

    fn place(&self, thread: usize, place: usize) -> Option<&Counted<Option<Share<T, K>>>> {
        if thread == 0 {
            return self.first.get(place);
        }
        let row: &Vec<Counted<Option<Share<T, K>>>> = self.others.get(thread - 1)?;
        row.get(place)
    }

    // Lays the first thread's share at a free place, from a first one on.
    fn begin(&self, first: u64, number: u64, object: &Arc<T>) -> Option<u64>
        requires { K.holds number (arc_value object.now) }
        ensures { IfSome result (λ place. place < 65536) }
    {
        let count = self.count();
        for step in 0..count {
            let place = first.wrapping_add(step) % count;
            if let Some(spot) = self.first.get(place as usize) {
                if spot.load() == FREE {
                    let share = share_of(number, object)?;
                    if lay(spot, share) {
                        return Some(place);
                    }
                }
            }
        }
        None
    }

    // Lays a share for each thread at a free place, from a first one on: that place.
    pub(crate) fn put(&self, first: u64, number: u64, object: &Arc<T>) -> Option<u64>
        requires { K.holds number (arc_value object.now) }
        ensures { IfSome result (λ place. place < 65536) }
    {
        let place = self.begin(first, number, object)?;
        for row in &self.others {
            if let Some(spot) = row.get(place as usize) {
                if let Some(share) = share_of(number, object) {
                    let _ = lay(spot, share);
                }
            }
        }
        Some(place)
    }

    // Takes all shares of a place away: the last one drops the object, and the place is free. Where a thread reads its share (its guard
    // was forgotten) the place stays as it is.
    pub(crate) fn clear(&self, place: u64) {
        let mut all = true;
        for row in &self.others {
            if let Some(spot) = row.get(place as usize) {
                all = lift(spot) && all;
            }
        }
        if all {
            if let Some(spot) = self.first.get(place as usize) {
                let _ = lift(spot);
            }
        }
    }

    // The first thread's places, once all other shares are dropped.
    pub(crate) fn into_first(self) -> Vec<Counted<Option<Share<T, K>>>>
        ensures { vec_len result ≡ self }
    {
        let Shelves { first, others: _ } = self;
        first
    }

    // The thread's share of the object that a cell of numbers names.
    pub(crate) fn show(&self, thread: usize, word: u64) -> Option<Object<'_, T, K>>
        ensures { IfSome result (λ object. object.number ≡ number_in word) }
    {
        let spot = self.place(thread, (word % PLACES) as usize)?;
        let (found, claim) = spot.turn(PRESENT, PRESENT + ONE_READER);
        if found != PRESENT {
            claim.done();
            return None;
        }
        Object::new(claim, word / PLACES)
    }
}
