// The changes of one bucket in order, with a way from each to the earlier ones of its key. A change leads
// to the one of its key just before it, and to one further back, such that the number of steps to any
// earlier one is logarithmic (the skips of Myers' lists).
ghost use Rattle.std.specs.Prelude.{◌≡◌, ◌<◌, ◌≤◌, [], ◌∷◌, ◌++◌, length, take, map, slice_get, OnOk};
ghost use Rattle.wfe_defs.specs.Pairs.{pairs_after, value_in};
ghost use Rattle.wfe_check_map.specs.Marks.{changes_in};
ghost use Rattle.laws.specs.StructuresAt.{same_value as is_same};
ghost use Rattle.wfe_check_map.specs.Told.{current_by, numbered_in, row_in, shows_in};
ghost use Rattle.wfe_check_map.specs.Steps.{IsLast, AreLinked, EndsAt, SkipsTo, last_of, numbered};

use indexmap::IndexMap;
use std::alloc::Global;
use std::marker::Model;
use wfe_defs::NoMemory;

/// A change: of which key, the value that it has from then on, if any, the row that the bucket's root had,
/// and the number of entries before it.
#[derive(Clone, Copy)]
pub struct Mark {
    pub key: u64,
    pub value: Option<u64>,
    pub row: Option<u32>,
    pub stamp: u64,
}

/// A change with the numbers of two earlier ones of its key: the last, and one that is as far back as keeps
/// the way to any of them short. Numbers count from 1, and 0 is none. `depth` is how many there are up to it.
#[derive(Clone, Copy)]
struct Step {
    mark: Mark,
    before: usize,
    skip: usize,
    depth: u64,
}

/// The changes of a bucket, seen as the list of them.
#[derive(Drop)]
pub struct Bucket {
    steps: Vec<Step>,
    // The number of each key's last change.
    lasts: IndexMap<u64, usize>,
}

impl Model for Bucket {
    ghost use Rattle.std.specs.Prelude.{List};
    ghost use Rattle.wfe_check_map.specs.declared.bucket.Mark.{Mark};

    ghost Value = { List Mark };

    ghost use Rattle.std.specs.Prelude.{map};
    ghost use Rattle.wfe_check_map.specs.Steps.{mark_in};
    ghost use Rattle.wfe_check_map.specs.Linked.{IsLinked};

    ghost view = { λ b. map mark_in b.steps.items };

    ghost invariant = { IsLinked };
}

impl Bucket {
    /// A bucket that was never changed. It takes no memory.
    pub fn new(alloc: Global) -> Bucket
        ensures { result ≡ [] }
    {
        Bucket {
            steps: Vec::new(alloc),
            lasts: IndexMap::new(alloc),
        }
    }

    /// How often it was changed: its version.
    pub fn version(&self) -> usize
        ensures { result ≡ length self.now }
    {
        self.steps.len()
    }

    /// The change that made the version after this one, if there was one.
    pub fn after(&self, version: usize) -> Option<Mark>
        ensures { result ≡ slice_get self.now version }
    {
        match self.steps.get(version) {
            Some(step) => Some(step.mark),
            None => None,
        }
    }

    /// The key's value at a version that there was.
    pub fn value(&self, version: usize, key: u64) -> Option<u64>
        ensures { version ≤ length self.now → result ≡ value_in (pairs_after (take version (changes_in self.now))) key }
    {
        let mut number = last_number(&self.lasts, key);
        while number > version {
            let step = step_at(&self.steps, number);
            number = if step.skip > version {
                step.skip
            } else {
                step.before
            };
        }
        step_at(&self.steps, number).mark.value
    }

    /// Whether the key had this value at a version that was current since a stamp.
    pub fn shows(&self, version: u64, key: u64, value: Option<u64>, since: u64) -> bool
        ensures { result ≡ shows_in self.now version key value since }
    {
        let version = version as usize;
        is_current(self.after(version), version == self.version(), since)
            && same_value(value, self.value(version, key))
    }

    /// The row that the bucket's root had at the change of this number, if there was such a change.
    pub fn row(&self, number: u64) -> Option<u32>
        ensures { result ≡ row_in (numbered_in self.now number) }
    {
        if number == 0 {
            return None;
        }
        match self.after((number - 1) as usize) {
            Some(mark) => mark.row,
            None => None,
        }
    }

    /// Adds a change.
    pub fn push(&mut self, mark: Mark) -> Result<(), NoMemory>
        ensures { OnOk result (self.new ≡ self.old ++ mark ∷ []) }
    {
        let before = last_number(&self.lasts, mark.key);
        let step = linked(&self.steps, mark, before);
        if self.steps.push(step).is_err() {
            return Err(NoMemory);
        }
        match self.lasts.insert(mark.key, self.steps.len()) {
            Ok(_) => Ok(()),
            Err(_) => {
                self.steps.pop();
                Err(NoMemory)
            }
        }
    }
}

// Whether a version was current since a stamp, by the change that came after it; without one, whether it
// is the last.
fn is_current(after: Option<Mark>, is_last: bool, since: u64) -> bool
    ensures { result ≡ current_by after is_last since }
{
    match after {
        Some(mark) => since <= mark.stamp,
        None => is_last,
    }
}

fn same_value(told: Option<u64>, value: Option<u64>) -> bool
    ensures { result ≡ is_same told value }
{
    match (told, value) {
        (None, None) => true,
        (Some(x), Some(y)) => x == y,
        _ => false,
    }
}

// The number of the key's last change, or 0.
fn last_number(lasts: &IndexMap<u64, usize>, key: u64) -> usize
    ensures { result ≡ last_of lasts.now key }
{
    lasts.get(&key).copied().unwrap_or(0)
}

// The change of a number, and for 0 one that leads nowhere.
fn step_at(steps: &[Step], number: usize) -> Step
    ensures { result ≡ numbered steps.now number }
{
    let none = Step {
        mark: Mark {
            key: 0,
            value: None,
            row: None,
            stamp: 0,
        },
        before: 0,
        skip: 0,
        depth: 0,
    };
    if number == 0 {
        return none;
    }
    match steps.get(number - 1) {
        Some(step) => *step,
        None => none,
    }
}

// The change with its ways back, where the last change of its key has this number. Where the skip of that
// one is as long as the skip that follows it, both are taken at once.
fn linked(steps: &[Step], mark: Mark, before: usize) -> Step
    requires links { AreLinked steps.now }
    requires last { EndsAt mark.key before steps.now }
    ensures mark { result.mark ≡ mark }
    ensures before { result.before ≡ before }
    ensures skip { SkipsTo mark.key result.skip before steps.now }
{
    let last = step_at(steps, before);
    let next = step_at(steps, last.skip);
    let end = step_at(steps, next.skip);
    let is_even = last.depth.saturating_sub(next.depth) == next.depth.saturating_sub(end.depth);
    Step {
        mark,
        before,
        skip: if is_even { next.skip } else { before },
        depth: last.depth.saturating_add(1),
    }
}
