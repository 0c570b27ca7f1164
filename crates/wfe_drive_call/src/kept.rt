// What a change keeps from round to round, and what it decides once the bucket's row is read.
ghost use Rattle.std.specs.Prelude.{◌≡◌, ◌<◌, ◌≤◌, length};
ghost use Rattle.wfe_core.specs.defs.Pairs.{changed};
ghost use Rattle.wfe_core.specs.Calls.{Changes};
ghost use Rattle.wfe_core.specs.Change.{at_link, changed_bucket as model_bucket, refused as model_refused, with_change};
ghost use Rattle.wfe_core.specs.Ready.{RootFits};
ghost use Rattle.wfe_core.specs.Rounds.{root_of};
ghost use Rattle.wfe_core.specs.Valid.{IsValid};
ghost use Rattle.wfe_drive_call.specs.Changing.{first_kept, kept_of};

use wfe_core::{Answer, Change, Post, Root};
use wfe_slots::{Pairs, changed_bucket, make_change, refused};

// The version at which alone it is to be made, if it names one; the row that it has taken and not
// linked, whether a walk for one has failed, and, from the root loaded last, the link, the version and
// the pairs: those of the new row once it is decided.
#[derive(Drop)]
pub struct Kept {
    pub change: Change,
    pub wanted: Option<u64>,
    pub taken: Option<u32>,
    pub walked: bool,
    pub link: u32,
    pub version: u64,
    pub pairs: Pairs,
}

impl Kept {
    // What a change keeps before its first round.
    #[inline(always)]
    pub fn new(change: Change, wanted: Option<u64>) -> Kept
        ensures { kept_of result ≡ first_kept change wanted }
    {
        Kept {
            change,
            wanted,
            taken: None,
            walked: false,
            link: 0,
            version: 0,
            pairs: Pairs::new(),
        }
    }

    // The bucket that is changed.
    #[inline(always)]
    pub fn bucket(&self, post: &Post) -> u32
        requires { IsValid post.now }
        ensures bucket { result ≡ model_bucket (kept_of self.now) post.now }
        ensures there { result < post.now.layout.config.buckets }
    {
        changed_bucket(self.change, post)
    }

    // The root of the bucket.
    #[inline(always)]
    pub fn root(&self, post: &Post) -> Root
        requires { IsValid post.now }
        ensures root { result ≡ root_of (Changes (kept_of self.now)) post.now }
        ensures there { RootFits post.now.layout result }
    {
        Root::Bucket(self.bucket(post))
    }

    // The root was protected with this link: what was read of another row is forgotten.
    #[inline(always)]
    pub fn protected(&mut self, link: u32)
        ensures { kept_of self.new ≡ at_link (kept_of self.old) link }
    {
        self.link = link;
        self.version = 0;
        self.pairs.clear();
    }

    // Why the change is refused, if it is.
    #[inline(always)]
    pub fn refused(&self, post: &Post) -> Option<Answer>
        ensures { result ≡ model_refused post.now.layout.config (kept_of self.now) }
    {
        refused(self.change, self.wanted, self.version, &self.pairs, post)
    }

    // The change is made in the pairs.
    #[inline(always)]
    pub fn change(&mut self)
        requires { length (changed (kept_of self.old).pairs (kept_of self.old).change) ≤ 14 }
        ensures { kept_of self.new ≡ with_change (kept_of self.old) }
    {
        make_change(self.change, &mut self.pairs);
    }
}
