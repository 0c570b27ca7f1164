// A thread's part in cells of objects.
ghost use Rattle.std.specs.Prelude.{◌≡◌};
ghost use Rattle.wfe_shared_cells.specs.Calls.{NumbersTell, next_number};

use std::marker::Model;
use wfe_cells::User;

/// A thread's part in the calls on cells of objects.
#[derive(Drop)]
pub struct Part {
    pub(crate) user: User,
    // How many objects it has offered.
    pub(crate) count: u64,
}

impl Model for Part {
    ghost use Rattle.std.specs.Prelude.{◌≤◌, ◌^◌};
    ghost use Rattle.wfe_shared_cells.specs.Calls.{PartNow};

    ghost Value = { PartNow };

    ghost view = { λ p. record { user = p.user; count = p.count } };

    ghost invariant = { λ p. p.count ≤ 2 ^ 41 };
}

impl Part {
    /// The number of the object that it offers next, whether that is refused or not.
    pub fn next_number(&self) -> u64
        ensures { result ≡ next_number self.now }
    {
        self.count * 64 + u64::from(self.user.number() % 64)
    }
}

/// A thread's right to read one object at a time: a guard borrows it, and so does each call that lets go of what was read before.
#[derive(Drop)]
pub struct Reading {
    pub(crate) one: (),
}

/// What a thread reads and changes cells with. It may move to another thread.
#[derive(Drop)]
pub struct SharedUser {
    pub part: Part,
    pub reading: Reading,
}

/// No two objects have one number, and what a cell was given tells the object's number.
pub fn numbers_tell()
    ensures { NumbersTell }
{}
