// A value that no `&` reaches, so that a `&` to what holds it may go to another thread.
ghost use Rattle.std.specs.Prelude.{◌≡◌};
ghost use base.Fml.{ftrue};

use std::marker::{Move, Owns};

pub(crate) struct Apart<T> {
    value: T,
}

impl<T> Owns for Apart<T> {
    ghost Value = { T };

    ghost coded = { T.code };

    ghost shr_at = { λ _ _ _. ftrue };
}

impl<T> Move for Apart<T> {
    ghost own_val = { λ x vs. Fields.own_val (record { value = x }) vs };
}

impl<T> Apart<T> {
    pub(crate) fn new(value: T) -> Apart<T>
        ensures { result ≡ value }
    {
        Apart { value }
    }

    pub(crate) fn into_inner(self) -> T
        ensures { result ≡ self }
    {
        let Apart { value } = self;
        value
    }
}

impl<T: Drop> Drop for Apart<T> {
    fn drop(self) {
        drop(self.into_inner());
    }
}

unsafe impl<T: Send> Send for Apart<T> {}

// A `&` to it shows nothing.
unsafe impl<T: Send> Sync for Apart<T> {}
