// What codes mean; `bindings/c/wfe.h` has them all.

pub(crate) const OK: u32 = 0;
// The handle is all zeros; the seat of the handle has left; there is no handle.
pub(crate) const NO_SEAT: u32 = 1;

pub(crate) const HAS_LEFT: u32 = 2;

pub(crate) const NULL: u32 = 3;
// An index, or a number of a seat or of a bucket, that the table lacks, or a copy that does not go upwards.
pub(crate) const BAD_INDEX: u32 = 4;

pub(crate) const FULL: u32 = 5;

pub(crate) const BUCKET_FULL: u32 = 6;

pub(crate) const SPENT: u32 = 7;

pub(crate) const STALE: u32 = 8;

pub(crate) const ABSENT: u32 = 9;

pub(crate) const EMPTY: u32 = 10;

pub(crate) const NOTHING: u32 = 11;

pub(crate) const NOT_LEFT: u32 = 12;

pub(crate) const ADOPTED_BEFORE: u32 = 13;
// More slots went back than there was room for.
pub(crate) const SHORT: u32 = 14;
// A handle has a seat already; there are more or fewer handles than the setting has seats.
pub(crate) const IN_USE: u32 = 15;

pub(crate) const BAD_COUNT: u32 = 16;

pub(crate) const NO_MEMORY: u32 = 17;

pub(crate) const BAD_SCHEME: u32 = 18;
// The setting's numbers, in the order in which they are judged.
pub(crate) const BAD_SEATS: u32 = 19;

pub(crate) const BAD_INDEXES: u32 = 20;

pub(crate) const BAD_SLOTS: u32 = 21;

pub(crate) const BAD_BUCKETS: u32 = 22;

pub(crate) const BAD_TRIES: u32 = 23;

pub(crate) const BAD_EVERY: u32 = 24;

pub(crate) const BAD_LAST_ERA: u32 = 25;

pub(crate) const BAD_LAST_VERSION: u32 = 26;

pub(crate) const BAD_PAIRS: u32 = 27;
// Another seat is with the table, which was to be closed; the table of the handle is closed; it is not.
pub(crate) const NOT_LAST: u32 = 28;

pub(crate) const CLOSED: u32 = 29;

pub(crate) const NOT_CLOSED: u32 = 30;
