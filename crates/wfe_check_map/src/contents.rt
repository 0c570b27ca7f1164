// The state of the map and of the queue, what entries their laws allow in it, and what an entry makes of it.
ghost use Rattle.std.specs.Prelude.{◌≡◌, ◌<◌, ◌==◌, ◌&&◌, ◌+◌, ℕ, true, length, slice_index, [], replicate, IfOk, OnOk};
ghost use Rattle.std.specs.Prelude.{is_none};
ghost use Rattle.laws.specs.MapLaw.{map_ok};
ghost use Rattle.laws.specs.QueueLaw.{queue_ok, empty_ok};
ghost use Rattle.laws.specs.StateAt.{began_of};
ghost use Rattle.laws.specs.StructuresAt.{bucket_of, count_of, row_at, same_value as is_same, value_at, was_current, was_empty as is_empty_since};
ghost use Rattle.laws.specs.records.Record.{Past};
ghost use Rattle.laws.specs.records.Record.Past.{Start, Then};
ghost use Rattle.laws.specs.Ranges.{EntryIn};
ghost use Rattle.wfe_words.specs.Config.{bad_field};
ghost use Rattle.wfe_check_map.specs.Standing.{IsContents};
ghost use Rattle.wfe_check_map.specs.Told.{RootIs, begun_after, buckets_after, changed_at};

use crate::bucket::{Bucket, Mark};
use crate::queue::Queue;
use std::alloc::Global;
use wfe_check_rows::raised;
use wfe_defs::{Answer, Call, Event, NoMemory};
use wfe_words::Config;

/// What the entries so far say of the map and of the queue: of each bucket its changes, each with the row
/// that its root had and the number of entries before it; the values queued and not taken, how many were
/// queued and taken, and where it ceased last that all were taken; and where each seat's last call began.
/// It takes about 64 bytes a change, and 16 to 32 for each key.
#[derive(Drop)]
pub struct Contents {
    config: Config,
    // How many there were.
    entries: u64,
    // How many there were when the seat's last call began, with its Begin; 0 before its first.
    begun: Vec<u64>,
    buckets: Vec<Bucket>,
    queue: Queue,
}

impl Contents {
    /// The state before the first entry of a record with this setting.
    pub fn new(alloc: Global, config: Config) -> Result<Contents, NoMemory>
        requires valid { is_none (bad_field config) ≡ true }
        ensures { IfOk result (λ made. IsContents config made Start) }
    {
        let begun = no_calls(alloc, config.seats)?;
        let buckets = no_changes(alloc, config.buckets)?;
        Ok(Contents {
            config,
            entries: 0,
            begun,
            buckets,
            queue: Queue::new(alloc),
        })
    }

    /// Whether the entry keeps the law of the map: a change has its bucket's next version, a get tells its
    /// key's value at a version that was current in the call, and keys lie in their buckets.
    #[inline(always)]
    pub fn fits_map(&self, seat: u32, event: &Event) -> bool
        requires range { EntryIn self.now.config seat event.now }
        ensures { (config : Config) (p : Past) → IsContents config self.now p → result ≡ map_ok config.buckets p seat event.now }
    {
        match *event {
            Event::Put {
                bucket,
                version,
                key,
                ..
            }
            | Event::Removed {
                bucket,
                version,
                key,
            } => self.is_next(bucket, version) && self.has_key(bucket, key),
            Event::Got {
                bucket,
                version,
                key,
                value,
            } => self.has_key(bucket, key) && self.shows(seat, bucket, version, key, value),
            _ => true,
        }
    }

    /// Whether the entry keeps the law of the queue: values are queued under the next number and taken in
    /// that order, and a dequeue finds the queue empty only where it was so in the call. `began` is the call
    /// that the seat began last.
    #[inline(always)]
    pub fn fits_queue(&self, seat: u32, event: &Event, began: Option<Call>) -> bool
        requires range { EntryIn self.now.config seat event.now }
        ensures { (config : Config) (p : Past) → IsContents config self.now p → began ≡ began_of seat p
            → result ≡ (queue_ok p seat event.now && empty_ok p seat event.now) }
    {
        match *event {
            Event::End {
                answer: Answer::Empty,
                ..
            } => !matches!(began, Some(Call::Dequeue)) || self.was_empty(seat),
            _ => self.queue.fits(event),
        }
    }

    /// Notes an entry that keeps the law of the queue. `root` is the row of the root of the bucket that it
    /// changes, if it changes one.
    ///
    /// # Errors
    ///
    /// Where there is no memory, or no number for one more entry; the state is of no record then.
    #[inline(always)]
    pub fn note(&mut self, seat: u32, event: &Event, root: Option<u32>) -> Result<(), NoMemory>
        requires range { EntryIn self.old.config seat event.now }
        ensures setting { self.new.config ≡ self.old.config }
        ensures noted { OnOk result ((config : Config) (p : Past) → IsContents config self.old p → RootIs root event.now p
            → queue_ok p seat event.now ≡ true → IsContents config self.new (Then p seat event.now)) }
    {
        let entries = raised(self.entries)?;
        note_change(&mut self.buckets, event, root, self.entries)?;
        self.queue.note(event, entries)?;
        note_begin(&mut self.begun, seat, event, entries);
        self.entries = entries;
        Ok(())
    }

    /// The row of a version of a bucket: the one that its root had when it was changed to it, if it was.
    pub fn row(&self, bucket: u32, version: u64) -> Option<u32>
        requires range { bucket < self.now.config.buckets }
        ensures { (config : Config) (p : Past) → IsContents config self.now p → result ≡ row_at bucket version p }
    {
        match self.buckets.get(bucket as usize) {
            Some(bucket) => bucket.row(version),
            None => None,
        }
    }

    // Whether it is the bucket's next version.
    fn is_next(&self, bucket: u32, version: u64) -> bool
        requires range { bucket < self.now.config.buckets }
        ensures { (config : Config) (p : Past) → IsContents config self.now p → result ≡ (version == count_of bucket p + 1) }
    {
        match self.buckets.get(bucket as usize) {
            Some(bucket) => version > 0 && version - 1 == bucket.version() as u64,
            None => false,
        }
    }

    // Whether the key lies in the bucket.
    fn has_key(&self, bucket: u32, key: u64) -> bool
        requires range { bucket < self.now.config.buckets }
        ensures { result ≡ (bucket == bucket_of self.now.config.buckets key) }
    {
        bucket as u64 == key % self.config.buckets as u64
    }

    // Whether the key has the value at a version that was current in the seat's call.
    fn shows(&self, seat: u32, bucket: u32, version: u64, key: u64, value: Option<u64>) -> bool
        requires seated { seat < self.now.config.seats }
        requires range { bucket < self.now.config.buckets }
        ensures { (config : Config) (p : Past) → IsContents config self.now p
            → result ≡ (is_same value (value_at bucket version key p) && was_current seat bucket version p) }
    {
        match self.buckets.get(bucket as usize) {
            Some(bucket) => bucket.shows(version, key, value, self.began(seat)),
            None => false,
        }
    }

    // Whether all was taken at a position of the seat's call.
    fn was_empty(&self, seat: u32) -> bool
        requires seated { seat < self.now.config.seats }
        ensures { (config : Config) (p : Past) → IsContents config self.now p → result ≡ is_empty_since seat p }
    {
        self.queue.was_empty(self.began(seat))
    }

    // Where the seat's last call began.
    fn began(&self, seat: u32) -> u64
        ensures { result ≡ slice_index self.now.begun.items seat }
    {
        match self.begun.get(seat as usize) {
            Some(stamp) => *stamp,
            None => 0,
        }
    }
}

// No call has begun.
fn no_calls(alloc: Global, seats: u32) -> Result<Vec<u64>, NoMemory>
    ensures { IfOk result (λ begun. begun.items ≡ replicate seats 0) }
{
    match vec![in alloc; 0u64; seats as usize] {
        Ok(begun) => Ok(begun),
        Err(_) => Err(NoMemory),
    }
}

// No bucket was changed.
fn no_changes(alloc: Global, buckets: u32) -> Result<Vec<Bucket>, NoMemory>
    ensures { IfOk result (λ made. made.items ≡ replicate buckets []) }
{
    let mut made = Vec::new(alloc);
    for _ in 0..buckets {
        if made.push(Bucket::new(alloc)).is_err() {
            return Err(NoMemory);
        }
    }
    Ok(made)
}

// Notes the change that an event tells, if any.
#[inline(always)]
fn note_change(
    buckets: &mut Vec<Bucket>,
    event: &Event,
    row: Option<u32>,
    stamp: u64,
) -> Result<(), NoMemory>
    ensures { OnOk result (buckets.new.items ≡ buckets_after event.now row stamp buckets.old.items) }
{
    match *event {
        Event::Put {
            bucket,
            key,
            value,
            ..
        } => {
            let mark = Mark {
                key,
                value: Some(value),
                row,
                stamp,
            };
            change(buckets, bucket, mark)
        }
        Event::Removed { bucket, key, .. } => {
            let mark = Mark {
                key,
                value: None,
                row,
                stamp,
            };
            change(buckets, bucket, mark)
        }
        _ => Ok(()),
    }
}

fn change(buckets: &mut Vec<Bucket>, bucket: u32, mark: Mark) -> Result<(), NoMemory>
    ensures { OnOk result (buckets.new.items ≡ changed_at bucket mark buckets.old.items) }
{
    match buckets.get_mut(bucket as usize) {
        Some(bucket) => bucket.push(mark),
        None => Ok(()),
    }
}

// Notes where the seat's call begins, if the event says so.
#[inline(always)]
fn note_begin(begun: &mut Vec<u64>, seat: u32, event: &Event, stamp: u64)
    ensures { begun.new.items ≡ begun_after event.now seat stamp begun.old.items }
{
    if let Event::Begin { .. } = event {
        if let Some(last) = begun.get_mut(seat as usize) {
            *last = stamp;
        }
    }
}
