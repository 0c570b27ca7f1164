// The changes of a bucket, and the value that they leave a key.
ghost use Rattle.std.specs.Prelude.{◌≡◌, ◌≤◌, length, take};
ghost use Rattle.wfe_defs.specs.Pairs.{pairs_after, value_in, value_after};

/// A change of a bucket.
#[derive(Clone, Copy, Debug, PartialEq, Eq)]
pub enum Change {
    Put { key: u64, value: u64 },
    Removed { key: u64 },
}

/// The key's value after the first `count` changes.
#[tactic(auto, using(crate::proofs::Values::value_steps))]
pub fn fold_bucket(changes: &[Change], count: usize, key: u64) -> Option<u64>
    requires { count ≤ length changes.now }
    ensures { result ≡ value_in (pairs_after (take count changes.now)) key }
{
    let first = &changes[..count];
    let mut found = None;
    for change in first {
        found = changed_value(found, change, key);
    }
    found
}

// The key's value after one more change.
fn changed_value(before: Option<u64>, change: &Change, key: u64) -> Option<u64>
    ensures { result ≡ value_after before change.now key }
{
    match *change {
        Change::Put { key: put, value } if put == key => Some(value),
        Change::Removed { key: removed } if removed == key => None,
        _ => before,
    }
}
