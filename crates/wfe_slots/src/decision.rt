// What a put or a remove decides once the bucket's row is read, and the change that it makes in the pairs.
ghost use Rattle.std.specs.Prelude.{◌≡◌, ◌<◌, ◌≤◌, length};
ghost use Rattle.wfe_core.specs.defs.Pairs.{changed};
ghost use Rattle.wfe_core.specs.Change.{refusal as model_refusal, stale_or};
ghost use Rattle.wfe_core.specs.Rounds.{bucket_of, key_of};
ghost use Rattle.wfe_core.specs.Valid.{IsValid};

use crate::pairs::Pairs;
use wfe_core::{Answer, Change, Post};

// The key of a change.
#[inline(always)]
fn key_in(change: Change) -> u64
    ensures { result ≡ key_of change }
{
    match change {
        Change::Put { key, .. } => key,
        Change::Removed { key } => key,
    }
}

/// The bucket that is changed.
#[inline(always)]
pub fn changed_bucket(change: Change, post: &Post) -> u32
    requires { IsValid post.now }
    ensures bucket { result ≡ bucket_of post.now (key_of change) }
    ensures there { result < post.now.layout.config.buckets }
{
    let key = key_in(change);
    (key % post.layout.config().buckets as u64) as u32
}

/// Why a change of these pairs, which the bucket has at this version, is refused, if it is. A version other
/// than the one that it names, if it names one, comes first.
#[inline(always)]
pub fn refused(
    change: Change,
    wanted: Option<u64>,
    version: u64,
    pairs: &Pairs,
    post: &Post,
) -> Option<Answer>
    ensures { result ≡ stale_or wanted version (model_refusal post.now.layout.config version pairs.now change) }
{
    match wanted {
        Some(wanted) if version != wanted => Some(Answer::Stale { version }),
        _ => refusal(change, version, pairs, post),
    }
}

// Why it is refused at any version that it names, if it is.
#[inline(always)]
fn refusal(change: Change, version: u64, pairs: &Pairs, post: &Post) -> Option<Answer>
    ensures { result ≡ model_refusal post.now.layout.config version pairs.now change }
{
    let config = post.layout.config();
    match change {
        Change::Put { key, .. } => {
            if version == config.last_version {
                return Some(Answer::Spent { number: version });
            }
            if !pairs.has(key) && pairs.len() as u32 == config.pairs {
                return Some(Answer::BucketFull { version });
            }
            None
        }
        Change::Removed { key } => {
            if !pairs.has(key) {
                return Some(Answer::Absent { version });
            }
            if version == config.last_version {
                return Some(Answer::Spent { number: version });
            }
            None
        }
    }
}

/// Makes the change in the pairs.
#[inline(always)]
pub fn make_change(change: Change, pairs: &mut Pairs)
    requires { length (changed pairs.old change) ≤ 14 }
    ensures { pairs.new ≡ changed pairs.old change }
{
    match change {
        Change::Put { key, value } => pairs.put(key, value),
        Change::Removed { key } => pairs.remove(key),
    }
}
