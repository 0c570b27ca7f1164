// A thread's share of an object, and the guard by which it reads that.
ghost use Rattle.std.specs.Prelude.{◌≡◌, IfSome, IsSomeAnd};
ghost use Rattle.std.specs.Arc.{arc_value};

use crate::{Anything, Keeps};
use counted_slot::{Claim, Fits};
use std::marker::PhantomData;
use std::ops::Deref;
use std::sync::Arc;

// An object under its number.
#[derive(Drop)]
pub(crate) struct Share<T, K: Keeps<T>> {
    pub(crate) number: u64,
    pub(crate) object: Arc<T>,
    pub(crate) rule: PhantomData<K>,
    pub(crate) ghost kept: { ∥ K.holds number (arc_value object) ∥₁ },
}

impl<T, K: Keeps<T>> Fits for Share<T, K> {
    type Tag = ();

    ghost fits = { λ _ _. Unit {0} };
}

/// An object that a cell had when it was read. It is not dropped while this is there.
pub struct Object<'a, T: Drop, K: Keeps<T> = Anything> {
    claim: Claim<'a, Option<Share<T, K>>>,
    number: u64,
    ghost reads: { claim.right ≡ 1 },
    ghost filled: { ∥ IsSomeAnd claim.value (λ place. IsSomeAnd place (λ share. share.number ≡ number)) ∥₁ },
}

impl<'a, T: Drop, K: Keeps<T>> Drop for Object<'a, T, K> {
    fn drop(self) {
        let Self { claim, number: _ } = self;
        claim.leave();
    }
}

impl<'a, T: Drop, K: Keeps<T>> Object<'a, T, K> {
    // What the claim reads, if it is the object of this number.
    pub(crate) fn new(
        claim: Claim<'a, Option<Share<T, K>>>,
        number: u64,
    ) -> Option<Object<'a, T, K>>
        requires { claim.right ≡ 1 }
        ensures { IfSome result (λ object. object.number ≡ number) }
    {
        let is_it = match claim.get() {
            Some(share) => share.number == number,
            None => false,
        };
        if is_it {
            Some(Object { claim, number })
        } else {
            claim.leave();
            None
        }
    }

    /// The number under which it was offered: no other object has it.
    pub fn number(&self) -> u64
        ensures { result ≡ self.now.number }
    {
        self.number
    }

    /// The object, of which the rule's fact holds. It is the same for as long as this is there.
    pub fn value(&self) -> &T
        ensures kept { ∥ K.holds self.now.number result.now ∥₁ }
        ensures same { IfSome self.now.claim.value (λ place. IfSome place (λ share. result.now ≡ arc_value share.object)) }
    {
        match self.claim.get() {
            Some(share) => &*share.object,
            None => unreachable!(),
        }
    }
}

impl<T: Drop, K: Keeps<T>> Deref for Object<'_, T, K> {
    type Target = T;

    ghost deref_gives = { λ o x. ∥ K.holds o.number x ∥₁ × IfSome o.claim.value (λ place. IfSome place (λ share. x ≡ arc_value share.object)) };

    fn deref(&self) -> &T {
        self.value()
    }
}
