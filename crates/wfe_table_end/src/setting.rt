// The usual setting of a table.
ghost use Rattle.std.specs.Prelude.{◌≡◌, ◌≤◌, ◌<◌, ◌*◌, Err, Ok, max};
ghost use Rattle.wfe_words.specs.Place.{layout_of};
ghost use Rattle.wfe_words.specs.declared.config.Field.TheVariants as fields;

use wfe_words::{Config, SchemeKind};

/// A setting for so many threads, each with one seat, and for so many keys, if these lie evenly in the buckets, as
/// numbers in a row do. The table is made of it for 1 to 64 threads and at most 14,336 keys, if memory suffices. Each
/// of its numbers is a field, which the caller may set anew.
pub fn usual(scheme: SchemeKind, threads: u32, keys: u32) -> Config
    // a seat for each thread
    ensures scheme { result.scheme ≡ scheme }
    ensures seats { result.seats ≡ threads }
    // a bucket for each key, as far as there may be so many; where there are more keys rows have room for more of them
    ensures few { keys ≤ 1024 → (result.buckets ≡ max 1 keys) × (result.pairs ≡ 6) }
    ensures many { 1024 < keys → keys ≤ 14336 → (result.buckets ≡ 1024) × (result.pairs ≡ 14) }
    ensures room { keys ≤ 14336 → keys ≤ result.buckets * result.pairs }
    // what a call needs, and a hold
    ensures indexes { result.indexes ≡ 3 }
    // rows for each bucket, for what waits on the seats' lists, and for the queue
    ensures slots { result.slots ≡ 16384 }
    // a scan reads four words a seat at most, so eight a retirement under the most seats
    ensures every { result.every ≡ 32 }
    ensures tries { result.tries ≡ 16 }
    // the greatest
    ensures last_era { result.last_era ≡ 4294967295 }
    ensures last_version { result.last_version ≡ 281474976710656 }
    // the setting is taken
    ensures good { 1 ≤ threads → threads ≤ 64 → keys ≤ 14336 → layout_of result ≡ Ok (record { config = result }) }
    // more keys than any table has room for are refused
    ensures refused { 1 ≤ threads → threads ≤ 64 → 14336 < keys → layout_of result ≡ Err (record { field = fields.Buckets }) }
{
    let (buckets, pairs) = if keys <= 1_024 {
        (keys.max(1), 6)
    } else if keys <= 14_336 {
        (1_024, 14)
    } else {
        (keys, 14)
    };
    Config {
        scheme,
        seats: threads,
        indexes: 3,
        slots: 16_384,
        buckets,
        tries: 16,
        every: 32,
        last_era: 4_294_967_295,
        last_version: 281_474_976_710_656,
        pairs,
    }
}
