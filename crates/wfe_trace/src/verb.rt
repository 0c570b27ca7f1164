// The verbs of body lines, by the version of the trace.
ghost use Rattle.std.specs.Prelude.{◌≡◌};
ghost use Rattle.wfe_trace.specs.Body.{later_call_in, call_verb_in, first_version as version_of, known_in as known, verb_in, call_count as count_of_call, count_of as count, is_for as fits, is_placed as placed_in, names_seat as has_seat};

use crate::Mode;
use wfe_text::is;

/// A call that a line begins.
#[derive(Clone, Copy)]
pub enum CallVerb {
    Get,
    Put,
    Remove,
    Enqueue,
    Dequeue,
    Hold,
    Release,
    Advance,
    Scan,
    Copy,
    DropIndex,
    Look,
    PutIf,
    Leave,
    Adopt,
}

/// The word that names what a line asks for.
#[derive(Clone, Copy)]
pub enum Verb {
    Call(CallVerb),
    Step,
    Run,
    Table,
    End,
}

// A call that traces of the first version do not have.
fn later_call_of(word: &[u8]) -> Option<CallVerb>
    ensures { result ≡ later_call_in word.now }
{
    if is(word, b"copy") {
        Some(CallVerb::Copy)
    } else if is(word, b"drop") {
        Some(CallVerb::DropIndex)
    } else if is(word, b"look") {
        Some(CallVerb::Look)
    } else if is(word, b"put_if") {
        Some(CallVerb::PutIf)
    } else if is(word, b"leave") {
        Some(CallVerb::Leave)
    } else if is(word, b"adopt") {
        Some(CallVerb::Adopt)
    } else {
        None
    }
}

fn call_verb_of(word: &[u8]) -> Option<CallVerb>
    ensures { result ≡ call_verb_in word.now }
{
    if is(word, b"get") {
        Some(CallVerb::Get)
    } else if is(word, b"put") {
        Some(CallVerb::Put)
    } else if is(word, b"remove") {
        Some(CallVerb::Remove)
    } else if is(word, b"enq") {
        Some(CallVerb::Enqueue)
    } else if is(word, b"deq") {
        Some(CallVerb::Dequeue)
    } else if is(word, b"hold") {
        Some(CallVerb::Hold)
    } else if is(word, b"release") {
        Some(CallVerb::Release)
    } else if is(word, b"advance") {
        Some(CallVerb::Advance)
    } else if is(word, b"scan") {
        Some(CallVerb::Scan)
    } else {
        later_call_of(word)
    }
}

fn first_version(call: CallVerb) -> u32
    ensures { result ≡ version_of call }
{
    match call {
        CallVerb::Copy | CallVerb::DropIndex | CallVerb::Look => 2,
        CallVerb::PutIf => 3,
        CallVerb::Leave | CallVerb::Adopt => 4,
        _ => 1,
    }
}

// The call, where traces of the version have it.
fn known_in(version: u32, call: Option<CallVerb>) -> Option<Verb>
    ensures { result ≡ known version call }
{
    match call {
        Some(call) if first_version(call) <= version => Some(Verb::Call(call)),
        _ => None,
    }
}

/// The verb that a word names in a trace of the version.
pub fn verb_of(version: u32, word: &[u8]) -> Option<Verb>
    ensures { result ≡ verb_in version word.now }
{
    if is(word, b"step") {
        Some(Verb::Step)
    } else if is(word, b"run") {
        Some(Verb::Run)
    } else if is(word, b"table") {
        Some(Verb::Table)
    } else if is(word, b"end") {
        Some(Verb::End)
    } else {
        known_in(version, call_verb_of(word))
    }
}

fn call_count(call: CallVerb) -> usize
    ensures { result ≡ count_of_call call }
{
    match call {
        CallVerb::Dequeue | CallVerb::Release | CallVerb::Advance | CallVerb::Scan => 1,
        CallVerb::Leave => 1,
        CallVerb::Get | CallVerb::Remove | CallVerb::Enqueue | CallVerb::Hold => 2,
        CallVerb::DropIndex | CallVerb::Adopt => 2,
        CallVerb::Put | CallVerb::Copy | CallVerb::Look => 3,
        CallVerb::PutIf => 4,
    }
}

/// How many numbers a line with the verb has, the seat's among them.
pub fn count_of(verb: Verb) -> usize
    ensures { result ≡ count verb }
{
    match verb {
        Verb::Call(call) => call_count(call),
        Verb::Step => 2,
        Verb::Run => 1,
        Verb::Table | Verb::End => 0,
    }
}

/// Whether a line with the verb has a meaning in the mode.
pub fn is_for(mode: Mode, verb: Verb) -> bool
    ensures { result ≡ fits mode verb }
{
    let alone = matches!(
        verb,
        Verb::Step | Verb::Table | Verb::Call(CallVerb::Leave | CallVerb::Adopt)
    );
    !(matches!(mode, Mode::Run) && alone)
}

/// Whether the first number of a line with the verb, where it names a place, is one of so many
/// seats.
pub fn is_placed(seats: u32, verb: Verb, first: u64) -> bool
    ensures { result ≡ placed_in seats verb first }
{
    match verb {
        Verb::Call(CallVerb::Adopt) => first < seats as u64,
        _ => true,
    }
}

/// Whether a line with the verb names a seat.
pub fn names_seat(verb: Verb) -> bool
    ensures { result ≡ has_seat verb }
{
    !matches!(verb, Verb::Table | Verb::End)
}
