// Objects of several words, in the buckets of a table. An object's words are the values of one bucket at one of its versions, and a cell's
// value names bucket and version; so who finds the bucket at another version knows that the object was replaced meanwhile, and reads the
// cell anew. Buckets that no cell names wait in the queue, or with a thread (`swaps.rt`).
ghost use Rattle.std.specs.Prelude.{◌≡◌, ◌≤◌, ◌<◌, ◌+◌, IfErr, IfNone, IfOk, IfSome, Some, false, length, true, ℕ};
ghost use Rattle.wfe_table.specs.all.Logs.Answered.{IsMet};
ghost use Rattle.wfe_table.specs.all.Logs.Versions.{counts_of};
ghost use Rattle.wfe_core.specs.words.Place.{is_valid};
ghost use Rattle.wfe_table.specs.Public.{IsOf};
ghost use Rattle.wfe_table.specs.history.History.{record_of};
ghost use Rattle.wfe_cells.specs.Only.{IsGet, IsOfWords, IsOnly};
ghost use Rattle.wfe_cells.specs.Reasons.{AllDisturbed, IsDisturbed, IsLost, IsQuiet, IsWordRefused, queues, takes};
ghost use Rattle.wfe_cells.specs.Wide.{HasWords, IsName, IsShown, IsWritten, block_of, key_of, made_at};

use crate::wide::Seen;
use wfe_table::{PutIfRefusal, Seat, Shared};

/// Buckets of a table, at most; an object's number counts them out.
pub(crate) const BUCKETS: u64 = 1_024;

// The numbers of these buckets wait in the queue.
pub(crate) fn offer(shared: &Shared, seat: &mut Seat, first: u64, end: u64) -> bool
    requires of { IsOf seat.old shared.now }
    requires range { first ≤ end }
    ensures of { IsOf seat.new shared.now }
    ensures queued { result ≡ true → (block : ℕ) → first ≤ block → block < end → queues block seat.new ≡ queues block seat.old + 1 }
    ensures before { result ≡ true → (block : ℕ) → block < first → queues block seat.new ≡ queues block seat.old }
    ensures after { result ≡ true → (block : ℕ) → end ≤ block → queues block seat.new ≡ queues block seat.old }
    ensures takes { result ≡ true → (block : ℕ) → takes block seat.new ≡ takes block seat.old }
{
    for block in first..end {
        match shared.enqueue(seat, block) {
            Ok(_queued) => {}
            Err(_) => return false,
        }
    }
    true
}

pub(crate) fn buckets(shared: &Shared) -> u64
    ensures { result ≡ shared.now.layout.config.buckets }
{
    shared.layout().config().buckets as u64
}

// The key of a word of this bucket.
fn word_key(shared: &Shared, block: u64, word: u64) -> u64
    requires valid { is_valid shared.now.layout ≡ true }
    requires block { block < shared.now.layout.config.buckets }
    requires word { word < 14 }
    ensures { result ≡ key_of shared.now.layout.config.buckets block word }
{
    let step = buckets(shared) * word;
    block + step
}

// Reads an object's words, if its bucket is at its version still.
fn read(shared: &Shared, seat: &mut Seat, object: u64, words: &mut [u64]) -> bool
    requires of { IsOf seat.old shared.now }
    requires valid { is_valid shared.now.layout ≡ true }
    requires few { length words.old ≤ 14 }
    ensures of { IsOf seat.new shared.now }
    ensures quiet { IsQuiet seat.old seat.new }
    ensures only { IsOnly IsGet seat.old seat.new }
    ensures length { length words.new ≡ length words.old }
    ensures words { result ≡ true → HasWords shared.now.layout.config.buckets (block_of object) (made_at object) words.new (length words.new) (record_of shared.now.layout seat.new.track.past) }
    ensures lost { result ≡ false → IsLost shared.now.layout seat.old seat.new object (length words.old) }
{
    let block = object % BUCKETS;
    let version = object / BUCKETS;
    if block >= buckets(shared) {
        return false;
    }
    for word in 0..words.len() {
        let key = word_key(shared, block, word as u64);
        let got = shared.get(seat, key);
        let Some(value) = got.value else {
            return false;
        };
        if got.version != version {
            return false;
        }
        words[word] = value;
    }
    true
}

// One attempt of a load.
fn try_load(shared: &Shared, seat: &mut Seat, cell: u64, words: &mut [u64]) -> Option<Seen>
    requires of { IsOf seat.old shared.now }
    requires cell { cell < shared.now.layout.config.buckets }
    requires few { length words.old ≤ 14 }
    ensures of { IsOf seat.new shared.now }
    ensures quiet { IsQuiet seat.old seat.new }
    ensures only { IsOnly IsGet seat.old seat.new }
    ensures length { length words.new ≡ length words.old }
    ensures shown { IfSome result (λ seen. IsShown shared.now.layout seat.new.track.past cell seen words.new) }
    ensures current { IfSome result (λ seen. IsMet (counts_of (record_of shared.now.layout seat.old.track.past)) (record_of shared.now.layout seat.new.track.past) cell seen.version) }
    ensures disturbed { IfNone result (IsDisturbed shared.now.layout cell (length words.old) seat.old seat.new) }
{
    let got = shared.get(seat, cell);
    let object = got.value.unwrap_or(0);
    let seen = Seen {
        cell,
        version: got.version,
        object,
    };
    if object == 0 {
        return Some(seen);
    }
    if read(shared, seat, object, words) {
        Some(seen)
    } else {
        None
    }
}

// The first of so many attempts that is not disturbed.
pub(crate) fn load_within(
    shared: &Shared,
    seat: &mut Seat,
    cell: u64,
    words: &mut [u64],
    attempts: u64,
) -> Option<Seen>
    requires of { IsOf seat.old shared.now }
    requires cell { cell < shared.now.layout.config.buckets }
    requires few { length words.old ≤ 14 }
    ensures of { IsOf seat.new shared.now }
    ensures quiet { IsQuiet seat.old seat.new }
    ensures only { IsOnly IsGet seat.old seat.new }
    ensures length { length words.new ≡ length words.old }
    ensures shown { IfSome result (λ seen. IsShown shared.now.layout seat.new.track.past cell seen words.new) }
    ensures current { IfSome result (λ seen. IsMet (counts_of (record_of shared.now.layout seat.old.track.past)) (record_of shared.now.layout seat.new.track.past) cell seen.version) }
    ensures disturbed { IfNone result (AllDisturbed shared.now.layout cell (length words.old) seat.old attempts seat.new) }
{
    for _attempt in 0..attempts {
        if let Some(seen) = try_load(shared, seat, cell, words) {
            return Some(seen);
        }
    }
    None
}

// The number of a version of this bucket.
fn name(block: u64, version: u64) -> u64
    requires block { block < 1024 }
    requires some { 1 ≤ version }
    requires most { version ≤ 281474976710656 }
    ensures { IsName block version result }
{
    version * BUCKETS + block
}

// Gives the keys of this bucket these values, one after another: the number of the version at which it has them all.
pub(crate) fn write(
    shared: &Shared,
    seat: &mut Seat,
    block: u64,
    words: &[u64],
) -> Result<u64, PutIfRefusal>
    requires of { IsOf seat.old shared.now }
    requires block { block < shared.now.layout.config.buckets }
    requires some { 1 ≤ length words.now }
    requires few { length words.now ≤ 14 }
    ensures of { IsOf seat.new shared.now }
    ensures quiet { IsQuiet seat.old seat.new }
    ensures only { IsOnly (IsOfWords shared.now.layout.config.buckets block) seat.old seat.new }
    ensures written { IfOk result (IsWritten shared.now.layout seat.new.track.past block words.now) }
    ensures refused { IfErr result (IsWordRefused shared.now.layout seat.old seat.new (Some block) words.now) }
{
    let mut version = shared.get(seat, block).version;
    for word in 0..words.len() {
        let key = word_key(shared, block, word as u64);
        match shared.put_if(seat, key, words[word], version) {
            Ok(done) => version = done.version,
            Err(refusal) => return Err(refusal),
        }
    }
    Ok(name(block, version))
}
