// The objects that are left when cells end.
ghost use Rattle.std.specs.Prelude.{◌≡◌, ◌<◌, IfNone, IfSome};
ghost use Rattle.std.specs.Arc.{arc_value};

use crate::Keeps;
use crate::object::Share;
use counted_slot::Counted;
use std::marker::Model;
use std::sync::Arc;

/// The objects that cells have left, each once: those that the cells had, and those that were replaced and waited for a scan. No thread
/// has a share of them any more. They are seen as how many places are still to be looked at, each once. That no place is passed over that
/// has an object no clause says, since none says which places have one.
#[derive(Drop)]
pub struct Objects<T, K: Keeps<T>> {
    // The first thread's places.
    pub(crate) places: Vec<Counted<Option<Share<T, K>>>>,
}

impl<T, K: Keeps<T>> Model for Objects<T, K> {
    ghost use Rattle.std.specs.Prelude.{ℕ};
    ghost use Rattle.std.specs.Vec.{vec_len};

    ghost Value = { ℕ };

    ghost view = { λ o. vec_len o.places };
}

impl<T: Drop, K: Keeps<T>> Objects<T, K> {
    /// Another object, under the number under which it was offered, or none when all places were looked at. They come in no order that
    /// means anything, and no memory is taken for them.
    pub fn next(&mut self) -> Option<(u64, Arc<T>)>
        ensures fewer { IfSome result (λ _. self.new < self.old) }
        ensures all { IfNone result (self.new ≡ 0) }
        ensures kept { IfSome result (λ left. ∥ K.holds left.0 (arc_value left.1) ∥₁) }
    {
        while let Some(place) = self.places.pop() {
            if let Some(share) = place.into_inner() {
                let Share {
                    number,
                    object,
                    rule: _,
                } = share;
                return Some((number, object));
            }
        }
        None
    }
}
