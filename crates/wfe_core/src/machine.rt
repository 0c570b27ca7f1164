// Machines that calls are made of.
ghost use Rattle.std.specs.Prelude.{◌≡◌, ◌≤◌, [], length, IfSome, MatchOption};
ghost use Rattle.wfe_core.specs.Machine.{op_of, after};
ghost use Rattle.wfe_core.specs.Phases.{Base, Ending, Goes, Ends};
ghost use Rattle.wfe_core.specs.Ready.{IsReady, Plausible, Within};
ghost use Rattle.wfe_core.specs.Valid.{IsValid};

use crate::{Op, Post, Told};

/// A machine that makes one operation after another on the words of a table, until it ends. It takes
/// at least one step.
pub trait Machine: Drop {
    type End: Drop;

    /// Where it stands.
    ghost phase: { Self → Base };

    /// What its end means.
    ghost ending: { Self.End → Ending };

    /// The operation that the machine asks for.
    fn next_op(&self, post: &Post) -> Op
        requires valid { IsValid post.now }
        requires ready { IsReady (phase self.now) post.now }
        ensures { result ≡ op_of (phase self.now) post.now };

    /// Takes what that operation found, and tells its events. It answers at the machine's last step.
    fn take(&mut self, post: &mut Post, found: u64, told: &mut Told) -> Option<Self::End>
        requires valid { IsValid post.old }
        requires ready { IsReady (phase self.old) post.old }
        requires plausible { Plausible (phase self.old) post.old found }
        requires empty { told.old ≡ [] }
        ensures valid { IsValid post.new }
        ensures layout { post.new.layout ≡ post.old.layout }
        ensures seat { post.new.seat ≡ post.old.seat }
        ensures steps { post.new.steps ≡ post.old.steps }
        ensures post { post.new ≡ (after (phase self.old) post.old found).post }
        ensures told { told.new ≡ (after (phase self.old) post.old found).told }
        ensures few { length told.new ≤ 2 }
        ensures outcome { MatchOption result ((after (phase self.old) post.old found).outcome ≡ Goes (phase self.new))
            (λ e. (after (phase self.old) post.old found).outcome ≡ Ends (ending e)) }
        ensures within { IfSome result (λ e. Within (ending e) post.new) };
}
