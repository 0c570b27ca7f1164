// Cells that threads share, and the calls on them.
ghost use Rattle.std.specs.Prelude.{◌≡◌, ◌<◌, ◌+◌, ◌^◌, All, IfErr, IfOk, IfSome, None, Ok, length};
ghost use Rattle.wfe_core.specs.defs.declared.call.Answer.TheVariants as answers;
ghost use Rattle.wfe_core.specs.defs.declared.call.Call.TheVariants as calls;
ghost use Rattle.wfe_core.specs.words.Place.{layout_of};
ghost use Rattle.wfe_table.specs.Calls.{IsMade};
ghost use Rattle.wfe_table.specs.Making.{IsRefused as IsNotMade};
ghost use Rattle.wfe_table.specs.Public.{IsOf, TableNow};
ghost use Rattle.wfe_cells.specs.Calls.{IsFresh, IsLoaded, IsReplaced, IsTried, is_stale, store_by};
ghost use Rattle.wfe_cells.specs.Reasons.{IsNew};

use crate::user::{Loaded, Swapped, User};
use std::alloc::Global;
use std::marker::Model;
use wfe_table::{Config, MakeError, PutIfRefusal, Seat, Shared};

/// Cells, by numbers from 0, each with an object or none. An object is a number, less than the greatest, of what lies in memory of your
/// own. It is seen as the table in which each cell is a bucket with one key.
#[derive(Drop)]
pub struct Cells {
    shared: Shared,
}

impl Model for Cells {
    ghost use Rattle.wfe_table.specs.Public.{TableNow};

    ghost Value = { TableNow };

    ghost view = { λ c. c.shared };
}

// The table, and its seats.
fn table(alloc: Global, config: Config) -> Result<(Shared, Vec<Seat>), MakeError>
    ensures fresh { IfOk result (λ r. All (IsNew r.0) r.1.items) }
    ensures long { IfOk result (λ r. length r.1.items ≡ r.0.layout.config.seats) }
    ensures seats { IfOk result (λ r. r.0.layout.config.seats ≡ config.seats) }
    ensures made { IfOk result (λ r. layout_of config ≡ Ok r.0.layout) }
    ensures refused { IfErr result (IsNotMade config) }
{
    match Shared::new(alloc, config) {
        Ok(made) => Ok(made),
        Err(error) => Err(error),
    }
}

// The threads' parts, with these seats.
fn users(alloc: Global, shared: &Shared, mut seats: Vec<Seat>) -> Option<Vec<User>>
    requires { All (IsNew shared.now) seats.items }
    ensures fresh { IfSome result (λ users. All (IsFresh shared.now) users.items) }
    ensures long { IfSome result (λ users. length users.items ≡ length seats.items) }
{
    let mut users = Vec::new(alloc);
    while let Some(seat) = seats.pop() {
        let Ok(user) = User::new(alloc, shared, seat) else {
            return None;
        };
        if users.push(user).is_err() {
            return None;
        }
    }
    Some(users)
}

// Whether another thread came between.
fn came_between(tried: Result<Swapped, PutIfRefusal>) -> bool
    ensures { result ≡ is_stale tried }
{
    match tried {
        Ok(_) => false,
        Err(PutIfRefusal::Stale { .. }) => true,
        Err(PutIfRefusal::Spent { .. }) => false,
        Err(PutIfRefusal::BucketFull { .. }) => false,
        Err(PutIfRefusal::Full) => false,
    }
}

impl Cells {
    /// As many cells as the setting has buckets, all without an object, and a part for each thread. A number outside its range is
    /// refused, as by `Shared::new`; `NoMemory` is answered to a good setting.
    pub fn new(alloc: Global, config: Config) -> Result<(Cells, Vec<User>), MakeError>
        ensures fresh { IfOk result (λ r. All (IsFresh r.0) r.1.items) }
        ensures of { IfOk result (λ r. All (λ user. IsOf user.seat r.0) r.1.items) }
        ensures users { IfOk result (λ r. length r.1.items ≡ config.seats) }
        ensures made { IfOk result (λ r. layout_of config ≡ Ok r.0.layout) }
        ensures refused { IfErr result (IsNotMade config) }
    {
        let (shared, seats) = table(alloc, config)?;
        match users(alloc, &shared, seats) {
            Some(users) => Ok((Cells { shared }, users)),
            None => Err(MakeError::NoMemory),
        }
    }

    /// How many cells there are.
    pub fn count(&self) -> u64
        ensures { result ≡ self.now.layout.config.buckets }
    {
        self.shared.layout().config().buckets as u64
    }

    /// Reads a cell. Its object may not be dropped until this user's next load or release: the row that names it is held.
    pub fn load(&self, user: &mut User, cell: u64) -> Loaded
        requires of { IsOf user.old.seat self.now }
        requires cell { cell < self.now.layout.config.buckets }
        ensures of { IsOf user.new.seat self.now }
        ensures loaded { IsLoaded self.now.layout cell user.old user.new result }
    {
        user.load(&self.shared, cell)
    }

    /// Lets go of what was read.
    pub fn release(&self, user: &mut User)
        requires of { IsOf user.old.seat self.now }
        ensures of { IsOf user.new.seat self.now }
        ensures made { IsMade self.now.layout user.old.seat user.new.seat calls.Release answers.Released }
        ensures store { user.new.store ≡ store_by user.new.seat None user.old.store }
    {
        user.release(&self.shared)
    }

    /// Gives the cell this object, or none, where it is at the version that was read. The object that it had is this user's to drop,
    /// once `next_free` gives it back.
    pub fn compare_swap(
        &self,
        user: &mut User,
        cell: u64,
        seen: Loaded,
        object: Option<u64>,
    ) -> Result<Swapped, PutIfRefusal>
        requires of { IsOf user.old.seat self.now }
        requires cell { cell < self.now.layout.config.buckets }
        requires object { IfSome object (λ number. number + 1 < 2 ^ 64) }
        ensures of { IsOf user.new.seat self.now }
        ensures tried { IsTried self.now.layout cell user.old user.new seen object result }
    {
        user.compare_swap(&self.shared, cell, seen, object)
    }

    /// Gives the cell this object, or none, whatever it has: by a load and a compare_swap, and again where another thread came between,
    /// up to 2^64 times. Beside what came of the last one stands what that load has read.
    pub fn swap(
        &self,
        user: &mut User,
        cell: u64,
        object: Option<u64>,
    ) -> (Loaded, Result<Swapped, PutIfRefusal>)
        requires of { IsOf user.old.seat self.now }
        requires cell { cell < self.now.layout.config.buckets }
        requires object { IfSome object (λ number. number + 1 < 2 ^ 64) }
        ensures of { IsOf user.new.seat self.now }
        ensures replaced { IsReplaced self.now.layout cell user.old user.new object result.0 result.1 }
    {
        for _attempt in 0..u64::MAX {
            let seen = self.load(user, cell);
            let tried = self.compare_swap(user, cell, seen, object);
            if !came_between(tried) {
                return (seen, tried);
            }
        }
        let seen = self.load(user, cell);
        let tried = self.compare_swap(user, cell, seen, object);
        (seen, tried)
    }

    /// Takes the cell's object out, as `swap` gives it one.
    pub fn take(&self, user: &mut User, cell: u64) -> (Loaded, Result<Swapped, PutIfRefusal>)
        requires of { IsOf user.old.seat self.now }
        requires cell { cell < self.now.layout.config.buckets }
        ensures of { IsOf user.new.seat self.now }
        ensures replaced { IsReplaced self.now.layout cell user.old user.new None result.0 result.1 }
    {
        self.swap(user, cell, None)
    }

    /// The table, to be closed with the seats of all users (`User::parts`): its buckets name what is in the cells.
    pub fn into_shared(self) -> Shared
        ensures { result ≡ self }
    {
        self.shared
    }
}
