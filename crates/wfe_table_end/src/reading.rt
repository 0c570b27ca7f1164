// What the words of a table show, read into memory that is there.
ghost use Rattle.std.specs.Prelude.{◌≡◌, ◌<◌, ◌≤◌, ◌+◌, ◌-◌, ◌*◌, [], All, IsTrue, length, map};
ghost use Rattle.std.specs.List.{range_with_len};
ghost use Rattle.std.specs.Vec.{vec_capacity};
ghost use Rattle.wfe_core.specs.words.Place.Place.{Bucket, Head, Row};
ghost use Rattle.wfe_core.specs.words.Place.{is_valid, row_count};
ghost use Rattle.wfe_drive_cells.specs.Memory.{memory};
ghost use Rattle.wfe_table_end.specs.Contents.{IsRead, IsReadable, IsWhole, filling_in, filling_of, is_used, items_after, numbers_where, pair_in};
ghost use Rattle.wfe_table_end.specs.Room.{IsSpare};

use crate::{BucketRow, Closed};
use wfe_core::Layout;

// How many rows the table has.
fn rows(layout: Layout) -> u32
    requires { IsTrue (is_valid layout) }
    ensures { result ≡ row_count layout }
{
    layout.config().slots + 1
}

// A word of a row that the table has.
fn row_word(layout: Layout, words: &[u64], slot: u32, place: u32) -> u64
    requires whole { IsWhole layout words.now }
    requires slot { slot < row_count layout }
    requires place { place < 3 + 2 * layout.config.pairs }
    ensures { result ≡ memory layout words.now (Row slot place) }
{
    words[layout.row(slot, place) as usize]
}

// So many pairs of a row, in order.
fn read_pairs(
    layout: Layout,
    words: &[u64],
    slot: u32,
    count: u32,
    mut pairs: Vec<(u64, u64)>,
) -> Vec<(u64, u64)>
    requires whole { IsWhole layout words.now }
    requires slot { slot < row_count layout }
    requires count { count ≤ layout.config.pairs }
    requires empty { pairs.items ≡ [] }
    requires room { layout.config.pairs ≤ vec_capacity pairs }
    ensures { result.items ≡ map (pair_in (memory layout words.now) slot) (range_with_len 0 count) }
{
    for pair in 0..count {
        let key = row_word(layout, words, slot, 3 + 2 * pair);
        let value = row_word(layout, words, slot, 4 + 2 * pair);
        let pushed = pairs.push((key, value)).is_ok();
        prove!(pushed);
    }
    pairs
}

// A bucket, into an empty one.
fn read_bucket(layout: Layout, words: &[u64], bucket: u32, spare: BucketRow) -> BucketRow
    requires whole { IsWhole layout words.now }
    requires readable { IsReadable layout (memory layout words.now) }
    requires bucket { bucket < layout.config.buckets }
    requires spare { IsSpare layout spare }
    ensures { filling_of result ≡ filling_in (memory layout words.now) bucket }
{
    let root = words[layout.bucket(bucket) as usize];
    if root == 0 {
        return BucketRow {
            version: 0,
            pairs: spare.pairs,
        };
    }
    let slot = (root - 1) as u32;
    let count = row_word(layout, words, slot, 2) as u32;
    BucketRow {
        version: row_word(layout, words, slot, 1),
        pairs: read_pairs(layout, words, slot, count, spare.pairs),
    }
}

// All buckets, in order, into as many empty ones.
fn read_buckets(
    layout: Layout,
    words: &[u64],
    mut spare: Vec<BucketRow>,
    mut buckets: Vec<BucketRow>,
) -> Vec<BucketRow>
    requires whole { IsWhole layout words.now }
    requires readable { IsReadable layout (memory layout words.now) }
    requires spare { All (IsSpare layout) spare.items }
    requires spares { length spare.items ≡ layout.config.buckets }
    requires empty { buckets.items ≡ [] }
    requires room { layout.config.buckets ≤ vec_capacity buckets }
    ensures { map filling_of result.items ≡ map (filling_in (memory layout words.now)) (range_with_len 0 layout.config.buckets) }
{
    for bucket in 0..layout.config().buckets {
        let Some(empty) = spare.pop() else {
            unreachable!()
        };
        let pushed = buckets
            .push(read_bucket(layout, words, bucket, empty))
            .is_ok();
        prove!(pushed);
    }
    buckets
}

// The rows after the queue's head, by its next links.
fn read_queue(layout: Layout, words: &[u64], mut queue: Vec<(u64, u64)>) -> Vec<(u64, u64)>
    requires whole { IsWhole layout words.now }
    requires readable { IsReadable layout (memory layout words.now) }
    requires empty { queue.items ≡ [] }
    requires room { row_count layout ≤ vec_capacity queue }
    ensures { result.items ≡ items_after (memory layout words.now) (row_count layout) (memory layout words.now Head - 1) }
{
    let mut slot = (words[layout.head() as usize] - 1) as u32;
    for _turn in 0..rows(layout) {
        let next = row_word(layout, words, slot, 0);
        if next == 0 {
            return queue;
        }
        slot = (next - 1) as u32;
        let number = row_word(layout, words, slot, 1);
        let value = row_word(layout, words, slot, 2);
        let pushed = queue.push((number, value)).is_ok();
        prove!(pushed);
    }
    queue
}

// The claim words show the row taken.
#[tactic(auto, using(std::proofs::lemmas::Nat::Bits::shr_and_one, crate::proofs::WordPlaces::place_read, crate::proofs::WordPlaces::claim_there))]
fn is_taken(layout: Layout, words: &[u64], slot: u32) -> bool
    requires whole { IsWhole layout words.now }
    requires slot { slot < row_count layout }
    ensures { result ≡ is_used (memory layout words.now) slot }
{
    (words[layout.claim(slot) as usize] >> (slot % 64)) & 1 == 1
}

// The rows that are taken, rising.
fn read_used(layout: Layout, words: &[u64], mut used: Vec<u32>) -> Vec<u32>
    requires whole { IsWhole layout words.now }
    requires empty { used.items ≡ [] }
    requires room { row_count layout ≤ vec_capacity used }
    ensures { result.items ≡ numbers_where (is_used (memory layout words.now)) (row_count layout) }
{
    for slot in 0..rows(layout) {
        if is_taken(layout, words, slot) {
            let pushed = used.push(slot).is_ok();
            prove!(pushed);
        }
    }
    used
}

// All that a closed table holds, into memory that has room for it.
pub fn read_words(
    layout: Layout,
    words: &[u64],
    spare: Vec<BucketRow>,
    buckets: Vec<BucketRow>,
    queue: Vec<(u64, u64)>,
    used: Vec<u32>,
) -> Closed
    requires whole { IsWhole layout words.now }
    requires readable { IsReadable layout (memory layout words.now) }
    requires spare { All (IsSpare layout) spare.items }
    requires spares { length spare.items ≡ layout.config.buckets }
    requires bucketless { buckets.items ≡ [] }
    requires buckets_fit { layout.config.buckets ≤ vec_capacity buckets }
    requires queueless { queue.items ≡ [] }
    requires queue_fits { row_count layout ≤ vec_capacity queue }
    requires unused { used.items ≡ [] }
    requires used_fit { row_count layout ≤ vec_capacity used }
    ensures { IsRead layout words.now result }
{
    Closed {
        clock: words[layout.clock() as usize] as u32,
        buckets: read_buckets(layout, words, spare, buckets),
        queue: read_queue(layout, words, queue),
        used: read_used(layout, words, used),
    }
}
