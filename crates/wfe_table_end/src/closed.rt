// What a closed table holds, as its readers see it.

/// A bucket of a table that is closed.
#[derive(Drop)]
pub struct BucketRow {
    /// How often the bucket was changed, from 0 to the setting's `last_version`.
    pub version: u64,
    /// Its keys with their values, in the order of its row, at most the setting's `pairs`.
    pub pairs: Vec<(u64, u64)>,
}

/// What a table that is closed holds.
#[derive(Drop)]
pub struct Closed {
    /// The era clock, from 1 to the setting's `last_era`.
    pub clock: u32,
    /// Each bucket, in order. One that was never changed has version 0 and no pairs.
    pub buckets: Vec<BucketRow>,
    /// The values left in the queue, each with its number before it, in the order of the queue. Numbers
    /// count from 1.
    pub queue: Vec<(u64, u64)>,
    /// The slots of the rows that are taken, rising: those of the buckets, those of the queue with its
    /// dummy, and those that were retired and are not back. A slot is at most the setting's `slots`,
    /// which is that of the first dummy.
    pub used: Vec<u32>,
}
