// A thread's part in cells: its seat, and what it has replaced.
ghost use Rattle.std.specs.Prelude.{◌≡◌, ◌≤◌, ◌<◌, ◌+◌, ◌++◌, ◌^◌, [], IfNone, IfOk, IfSome, None, length, replicate};
ghost use Rattle.std.specs.Option.{option_to_list};
ghost use Rattle.wfe_core.specs.defs.declared.call.Answer.TheVariants as answers;
ghost use Rattle.wfe_core.specs.defs.declared.call.Call.TheVariants as calls;
ghost use Rattle.wfe_table.specs.Calls.{IsMade};
ghost use Rattle.wfe_table.specs.Public.{IsOf};
ghost use Rattle.wfe_table.specs.rule.Views.{seat_of};
ghost use Rattle.wfe_cells.specs.Calls.{IsLoaded, IsTried, UserNow, loaded_of, store_by};

use crate::store::Store;
use std::alloc::Global;
use std::marker::Model;
use wfe_table::{Looked, NoMemory, PutIfRefusal, Seat, Shared};

/// What a cell was when it was read: its version, and its object. A cell that was never changed has version 0.
#[derive(Clone, Copy, Debug, PartialEq, Eq)]
pub struct Loaded {
    pub version: u64,
    pub object: Option<u64>,
}

/// A cell was changed, and has this version. The object that it had is kept until it may be dropped; `left` is that object where the row
/// that named it was retired before and is not back, which no history has.
#[derive(Clone, Copy, Debug, PartialEq, Eq)]
pub struct Swapped {
    pub version: u64,
    pub left: Option<u64>,
}

// What a look shows of a cell; nothing stands there where the cell was never changed.
fn loaded_of(looked: Option<Looked>) -> Loaded
    ensures { result ≡ loaded_of looked }
{
    match looked {
        None => Loaded {
            version: 0,
            object: None,
        },
        Some(looked) => Loaded {
            version: looked.version,
            object: match looked.value {
                None | Some(0) => None,
                Some(value) => Some(value - 1),
            },
        },
    }
}

/// A thread's part, with which it makes calls on cells. It may move to another thread.
#[derive(Drop)]
pub struct User {
    pub(crate) seat: Seat,
    pub(crate) store: Store,
}

impl Model for User {
    ghost use Rattle.std.specs.Prelude.{◌≡◌, ◌+◌, length};
    ghost use Rattle.wfe_cells.specs.Calls.{UserNow};

    ghost Value = { UserNow };

    ghost view = { λ u. record { seat = u.seat; store = u.store } };

    ghost invariant = { λ u. length u.store.kept ≡ u.seat.track.local.post.layout.config.slots + 1 };
}

impl User {
    // A seat with nothing replaced.
    pub(crate) fn new(alloc: Global, shared: &Shared, seat: Seat) -> Result<User, NoMemory>
        requires { IsOf seat shared.now }
        ensures seat { IfOk result (λ user. user.seat ≡ seat) }
        ensures kept { IfOk result (λ user. user.store.kept ≡ replicate (shared.now.layout.config.slots + 1) None) }
        ensures free { IfOk result (λ user. user.store.free ≡ []) }
        ensures room { IfOk result (λ user. shared.now.layout.config.slots + 1 ≤ user.store.spare) }
    {
        let places = shared.layout().config().slots as usize + 1;
        let store = Store::new(alloc, places)?;
        Ok(User { seat, store })
    }

    /// The number of its seat, from 0.
    pub fn number(&self) -> u32
        ensures { result ≡ seat_of self.now.seat.track }
    {
        self.seat.number()
    }

    // What went back in the last call may be dropped; nothing was replaced.
    fn gather(&mut self)
        ensures seat { self.new.seat ≡ self.old.seat }
        ensures store { self.new.store ≡ store_by self.old.seat None self.old.store }
    {
        let notes = self.seat.notes();
        self.store.settle(notes, None);
    }

    pub(crate) fn load(&mut self, shared: &Shared, cell: u64) -> Loaded
        requires of { IsOf self.old.seat shared.now }
        ensures of { IsOf self.new.seat shared.now }
        ensures loaded { IsLoaded shared.now.layout cell self.old self.new result }
    {
        shared.hold(&mut self.seat, cell);
        self.gather();
        let looked = shared.look(&mut self.seat, 2, cell);
        self.gather();
        loaded_of(looked)
    }

    pub(crate) fn compare_swap(
        &mut self,
        shared: &Shared,
        cell: u64,
        seen: Loaded,
        object: Option<u64>,
    ) -> Result<Swapped, PutIfRefusal>
        requires of { IsOf self.old.seat shared.now }
        requires object { IfSome object (λ number. number + 1 < 2 ^ 64) }
        ensures of { IsOf self.new.seat shared.now }
        ensures tried { IsTried shared.now.layout cell self.old self.new seen object result }
    {
        let value = match object {
            None => 0,
            Some(number) => number + 1,
        };
        match shared.put_if(&mut self.seat, cell, value, seen.version) {
            Ok(done) => {
                let notes = self.seat.notes();
                let left = self.store.settle(notes, seen.object);
                Ok(Swapped {
                    version: done.version,
                    left,
                })
            }
            Err(refusal) => {
                self.gather();
                Err(refusal)
            }
        }
    }

    pub(crate) fn release(&mut self, shared: &Shared)
        requires of { IsOf self.old.seat shared.now }
        ensures of { IsOf self.new.seat shared.now }
        ensures made { IsMade shared.now.layout self.old.seat self.new.seat calls.Release answers.Released }
        ensures store { self.new.store ≡ store_by self.new.seat None self.old.store }
    {
        shared.release(&mut self.seat);
        self.gather();
    }

    /// An object that this user has replaced and that may be dropped: the row that named it is back, and no user holds it. It is given
    /// back once.
    pub fn next_free(&mut self) -> Option<u64>
        ensures seat { self.new.seat ≡ self.old.seat }
        ensures kept { self.new.store.kept ≡ self.old.store.kept }
        ensures free { self.old.store.free ≡ self.new.store.free ++ option_to_list result }
        ensures none { IfNone result (self.old.store.free ≡ []) }
        ensures room { self.old.store.spare ≤ self.new.store.spare }
    {
        self.store.free.pop()
    }

    /// The seat, with which the table is closed, and the objects that this user has replaced and not had back, all of which may be dropped
    /// once it is: those that wait for a row, by its slot, and the others.
    pub fn parts(self) -> (Seat, Vec<Option<u64>>, Vec<u64>)
        ensures seat { result.0 ≡ self.seat }
        ensures kept { result.1.items ≡ self.store.kept }
        ensures free { result.2.items ≡ self.store.free }
    {
        let User { seat, store } = self;
        let Store { kept, free } = store;
        (seat, kept, free)
    }
}
