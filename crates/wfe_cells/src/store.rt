// The objects that one thread has replaced, until they may be dropped.
ghost use Rattle.std.specs.Prelude.{◌≡◌, ◌≤◌, ◌<◌, [], All, IfOk, IfSome, None, length, replicate};
ghost use Rattle.wfe_core.specs.Held.{notes_of};
ghost use Rattle.wfe_cells.specs.Stores.{NoneLost, StoreNow, left_by, settled, unkept, with_back, with_backs, with_kept};

use std::alloc::Global;
use std::marker::Model;
use wfe_table::{NoMemory, Notes};

/// For each slot the object that its row named, and those that may be dropped. All its memory is taken when it is made.
#[derive(Drop)]
pub(crate) struct Store {
    pub(crate) kept: Vec<Option<u64>>,
    pub(crate) free: Vec<u64>,
}

impl Model for Store {
    ghost use Rattle.std.specs.Prelude.{◌-◌};
    ghost use Rattle.std.specs.Vec.{vec_capacity, vec_len};
    ghost use Rattle.wfe_cells.specs.Stores.{StoreNow};

    ghost Value = { StoreNow };

    ghost view = { λ s. record { kept = s.kept.items; free = s.free.items; spare = vec_capacity s.free - vec_len s.free } };
}

impl Store {
    // None, with a place for each of so many slots.
    pub(crate) fn new(alloc: Global, places: usize) -> Result<Store, NoMemory>
        ensures kept { IfOk result (λ store. store.kept ≡ replicate places None) }
        ensures free { IfOk result (λ store. store.free ≡ []) }
        ensures room { IfOk result (λ store. places ≤ store.spare) }
    {
        let Ok(kept) = vec![in alloc; None; places] else {
            return Err(NoMemory);
        };
        let Ok(free) = Vec::with_capacity(alloc, places) else {
            return Err(NoMemory);
        };
        Ok(Store { kept, free })
    }

    // The slot went back: its object may be dropped.
    fn back_one(&mut self, slot: u32)
        requires { slot < length self.old.kept }
        ensures { self.new ≡ with_back slot self.old }
    {
        if self.free.len() >= self.free.capacity() {
            return;
        }
        if let Some(object) = self.kept[slot as usize].take() {
            self.free.push_reserved(object);
        }
    }

    // So did each of these.
    fn take_back(&mut self, backs: &[u32])
        requires { All (λ slot. slot < length self.old.kept) backs.now }
        ensures back { self.new ≡ with_backs backs.now self.old }
        ensures places { length self.new.kept ≡ length self.old.kept }
    {
        for slot in backs {
            self.back_one(*slot);
        }
    }

    // Keeps an object until the slot is back, and gives it back where the slot has one.
    fn keep(&mut self, slot: u32, object: u64) -> Option<u64>
        requires { slot < length self.old.kept }
        ensures kept { self.new ≡ with_kept slot object self.old }
        ensures left { result ≡ unkept slot object self.old }
        ensures places { length self.new.kept ≡ length self.old.kept }
    {
        if self.kept[slot as usize].is_some() {
            return Some(object);
        }
        self.kept[slot as usize] = Some(object);
        None
    }

    // After a call with these notes, which replaced the object: what is left of it.
    pub(crate) fn settle(&mut self, notes: &Notes, replaced: Option<u64>) -> Option<u64>
        requires backs { All (λ slot. slot < length self.old.kept) notes.now.back }
        requires retired { IfSome notes.now.retired (λ life. life.slot < length self.old.kept) }
        ensures settled { self.new ≡ settled (notes_of notes.now) replaced self.old }
        ensures left { result ≡ left_by (notes_of notes.now) replaced self.old }
        ensures places { length self.new.kept ≡ length self.old.kept }
    {
        let early = (notes.early as usize).min(notes.back.len());
        let (before, after) = notes.back.split_at(early);
        self.take_back(before);
        let left = match notes.retired {
            None => replaced,
            Some(life) => match replaced {
                None => None,
                Some(object) => self.keep(life.slot, object),
            },
        };
        self.take_back(after);
        left
    }
}

/// What a store has after a call is what it had, and what the call replaced, but for what is left over.
pub fn none_is_lost()
    ensures { NoneLost }
{}
