// The words of a table in the hands of one seat, so that one loop makes calls on all kinds of them.
ghost use Rattle.std.specs.Prelude.{◌≡◌, ◌<◌, ◌++◌, ◌∷◌, [], ℕ, List, true, false};
ghost use Rattle.wfe_core.specs.Locals.{Local, after, asks, begun, busy_in, may_begin, stays};
ghost use Rattle.wfe_core.specs.declared.op.Op.{Op as Operation};
ghost use Rattle.wfe_drive_cells.specs.Spots.{located};
ghost use Rattle.wfe_drive_words.specs.Comes.{Comes, Given, departs, lent};

use wfe_core::Call;
use wfe_drive_cells::Located;

/// The words of a table on which one seat makes its steps, and between them other seats theirs.
pub trait Words: Drop {
    /// The local states of the model at which the seat may be.
    ghost at: { Self → Local → Type 0 };

    /// The lists of operations, each with what it found, that it stands for.
    ghost stands: { Self → List (Operation × ℕ) → Type 0 };

    /// What each step lowers, so that calls end.
    ghost rest: { Self → ℕ };

    /// What holds between calls of the methods.
    ghost valid: { Self → Type 0 };

    /// What holds once the call under way has made a step.
    ghost later: { Self → Type 0 };

    /// The second is the first, some steps later.
    ghost same: { Self → Self → Type 0 };

    /// So it is after no steps.
    ghost same_self: { (w : Self) → same w w };

    /// And where more steps follow.
    ghost same_on: { (u v w : Self) → same u v → same v w → same u w };

    /// A history comes to each state at which the seat may be.
    ghost comes: { (w : Self) (l : Local) → valid w → at w l → Comes l };

    /// A call of the seat, which has not left, begins, one that may begin in the table's setting. No
    /// word changes.
    fn start(&mut self, call: Call)
        requires valid { valid self.old }
        requires idle { (l : Local) × at self.old l × (busy_in l.phase ≡ false) × (departs l.call ≡ false)
            × (may_begin l.post.layout.config call ≡ true) }
        ensures valid { valid self.new }
        ensures same { same self.old self.new }
        ensures at { (l : Local) → at self.old l → busy_in l.phase ≡ false
            → may_begin l.post.layout.config call ≡ true → at self.new (begun l call) }
        ensures stands { (xs : List (Operation × ℕ)) → stands self.old xs → stands self.new xs };

    /// Performs the operation that the seat's call asks for, with the spot of its word, in one atomic step. It answers the
    /// word before, and 0 for a store. The seat neither leaves by the call nor takes over what another
    /// has left: the steps of such calls on place words move a list too, and are the table's own.
    fn perform(&mut self, op: Located) -> u64
        requires valid { valid self.old }
        requires asks { (l : Local) × at self.old l × (busy_in l.phase ≡ true) × (op ≡ located l.post.layout (asks l))
            × (stays l.call ≡ true) }
        ensures valid { valid self.new }
        ensures later { later self.new }
        ensures same { same self.old self.new }
        ensures at { (l : Local) → at self.old l → busy_in l.phase ≡ true → op ≡ located l.post.layout (asks l)
            → (g : Given l result) × at self.new (after (lent g) result) }
        ensures rest { rest self.new < rest self.old }
        ensures stands { (xs : List (Operation × ℕ)) → stands self.old xs
            → stands self.new (xs ++ (op.op, result) ∷ []) };

    /// The same, where the call has made a step before.
    fn perform_on(&mut self, op: Located) -> u64
        requires valid { valid self.old }
        requires later { later self.old }
        requires asks { (l : Local) × at self.old l × (busy_in l.phase ≡ true) × (op ≡ located l.post.layout (asks l))
            × (stays l.call ≡ true) }
        ensures valid { valid self.new }
        ensures later { later self.new }
        ensures same { same self.old self.new }
        ensures at { (l : Local) → at self.old l → busy_in l.phase ≡ true → op ≡ located l.post.layout (asks l)
            → (g : Given l result) × at self.new (after (lent g) result) }
        ensures rest { rest self.new < rest self.old }
        ensures stands { (xs : List (Operation × ℕ)) → stands self.old xs
            → stands self.new (xs ++ (op.op, result) ∷ []) };
}
