// Why a call on a seat changed nothing, and why no table was made: errors, which `?` passes on.
use thiserror::Error;
use wfe_words::Field;

/// Why a shared table was not made.
#[derive(Clone, Copy, Debug, PartialEq, Eq, Error)]
pub enum MakeError {
    /// A number of the setting is outside its range: the first such.
    #[error("the setting's {}", range_of(.field))]
    BadConfig { field: Field },
    /// The setting is good, and memory ran out.
    #[error("memory ran out")]
    NoMemory,
}

// A number of the setting, and its range.
fn range_of(field: &Field) -> &'static str {
    match field {
        Field::Seats => "seats must be 1 to 64",
        Field::Indexes => "indexes must be 3 to 8",
        Field::Slots => "slots must be 2 to 65,536",
        Field::Buckets => "buckets must be 1 to 1,024",
        Field::Tries => "tries must be 1 to 64",
        Field::Every => "every must be 1 to 65,536",
        Field::LastEra => "last_era must be 1 to 4,294,967,295",
        Field::LastVersion => "last_version must be 1 to 281,474,976,710,656",
        Field::Pairs => "pairs must be 6 or 14",
    }
}

/// Why a put changed nothing.
#[derive(Clone, Copy, Debug, PartialEq, Eq, Error)]
pub enum PutRefusal {
    /// No row was free, though the call has scanned.
    #[error("no row was free")]
    Full,
    /// The row at this version had no room for another key: it had the setting's `pairs`.
    #[error("the bucket had no room for another key, at version {version}")]
    BucketFull { version: u64 },
    /// The bucket's version is the setting's `last_version`.
    #[error("the bucket is at its last version, {number}")]
    Spent { number: u64 },
}

/// Why a put that names a version changed nothing.
#[derive(Clone, Copy, Debug, PartialEq, Eq, Error)]
pub enum PutIfRefusal {
    /// The bucket had this version, and another one was named.
    #[error("another version was named than the bucket's, {version}")]
    Stale { version: u64 },
    /// The bucket's version, which was named, is the setting's `last_version`.
    #[error("the bucket is at its last version, {number}")]
    Spent { number: u64 },
    /// The row at this version, which was named, had no room for another key: it had the setting's `pairs`.
    #[error("the bucket had no room for another key, at version {version}")]
    BucketFull { version: u64 },
    /// No row was free, though the call has scanned.
    #[error("no row was free")]
    Full,
}

/// Why a remove changed nothing.
#[derive(Clone, Copy, Debug, PartialEq, Eq, Error)]
pub enum RemoveRefusal {
    /// The key had no value at this version.
    #[error("the key had no value, at version {version}")]
    Absent { version: u64 },
    /// The bucket's version is the setting's `last_version`, and the key has a value.
    #[error("the bucket is at its last version, {number}")]
    Spent { number: u64 },
    /// No row was free, though the call has scanned. (A remove links a new row without the key.)
    #[error("no row was free")]
    Full,
}

/// Why nothing was queued.
#[derive(Clone, Copy, Debug, PartialEq, Eq, Error)]
pub enum EnqueueRefusal {
    /// The queue's number is the setting's `last_version`.
    #[error("the queue is at its last number, {number}")]
    Spent { number: u64 },
    /// No row was free, though the call has scanned.
    #[error("no row was free")]
    Full,
}

/// At some time of the call the queue was empty.
#[derive(Clone, Copy, Debug, PartialEq, Eq, Error)]
#[error("the queue was empty")]
pub struct Empty;
