// The phrases that the words of calls, answers and events begin with.
ghost use Rattle.std.specs.Prelude.{◌≡◌, ◌++◌, IsTrue};
ghost use Rattle.wfe_text.specs.Record.{clock_words, call_words, answer_words, event_words, tells_contents};
ghost use Rattle.wfe_text.specs.Phrase.{phrase_words, answer_tail, event_tail};

use wfe_defs::{Answer, Call, ClockMove, Event};

/// A word and the numbers after it.
#[derive(Clone, Copy)]
pub enum Phrase {
    Word(&'static [u8]),
    One(&'static [u8], u64),
    Two(&'static [u8], u64, u64),
    Three(&'static [u8], u64, u64, u64),
    Four(&'static [u8], u64, u64, u64, u64),
}

pub fn clock_phrase(clock: ClockMove) -> Phrase
    ensures { clock_words clock ≡ phrase_words result }
{
    match clock {
        ClockMove::Still => Phrase::Word(b"still"),
        ClockMove::Moved { era } => Phrase::One(b"moved", era as u64),
        ClockMove::Other { seen } => Phrase::One(b"other", seen as u64),
        ClockMove::EraSpent { era } => Phrase::One(b"era-spent", era as u64),
    }
}

pub fn call_phrase(call: Call) -> Phrase
    ensures { call_words call ≡ phrase_words result }
{
    match call {
        Call::Get { key } => Phrase::One(b"get", key),
        Call::Put { key, value } => Phrase::Two(b"put", key, value),
        Call::Remove { key } => Phrase::One(b"remove", key),
        Call::Enqueue { value } => Phrase::One(b"enq", value),
        Call::Dequeue => Phrase::Word(b"deq"),
        Call::Hold { key } => Phrase::One(b"hold", key),
        Call::Release => Phrase::Word(b"release"),
        Call::Advance => Phrase::Word(b"advance"),
        Call::Scan => Phrase::Word(b"scan"),
        Call::Copy { from, index } => Phrase::Two(b"copy", from as u64, index as u64),
        Call::DropIndex { index } => Phrase::One(b"drop", index as u64),
        Call::Look { index, key } => Phrase::Two(b"look", index as u64, key),
        Call::PutIf {
            key,
            value,
            version,
        } => Phrase::Three(b"put_if", key, value, version),
        Call::Leave => Phrase::Word(b"leave"),
        Call::Adopt { place } => Phrase::One(b"adopt", place as u64),
    }
}

pub fn answer_phrase(answer: Answer) -> Phrase
    ensures { answer_words answer ≡ phrase_words result ++ answer_tail answer }
{
    match answer {
        Answer::Got { version, .. } => Phrase::One(b"got", version),
        Answer::Done { version, .. } => Phrase::One(b"done", version),
        Answer::Absent { version } => Phrase::One(b"absent", version),
        Answer::Full => Phrase::Word(b"full"),
        Answer::BucketFull { version } => Phrase::One(b"bucket-full", version),
        Answer::Stale { version } => Phrase::One(b"stale", version),
        Answer::Spent { number } => Phrase::One(b"spent", number),
        Answer::Queued { number } => Phrase::One(b"queued", number),
        Answer::Taken { number, value, .. } => Phrase::Two(b"taken", number, value),
        Answer::Empty => Phrase::Word(b"empty"),
        Answer::Holding { slot } => Phrase::One(b"holding", slot as u64),
        Answer::Nothing => Phrase::Word(b"nothing"),
        Answer::Released => Phrase::Word(b"released"),
        Answer::Clock { outcome } => clock_phrase(outcome),
        Answer::Scanned { kept, back } => Phrase::Two(b"scanned", kept as u64, back as u64),
        Answer::Copied { slot } => Phrase::One(b"copied", slot as u64),
        Answer::Dropped => Phrase::Word(b"dropped"),
        Answer::Looked { slot, version, .. } => Phrase::Two(b"looked", slot as u64, version),
        Answer::Left { count } => Phrase::One(b"left", count as u64),
        Answer::Adopted { count } => Phrase::One(b"adopted", count as u64),
        Answer::NotLeft => Phrase::Word(b"not-left"),
        Answer::AdoptedBefore => Phrase::Word(b"adopted-before"),
    }
}

// The phrase of an event that tells of keys and values.
fn contents_phrase(event: Event) -> Phrase
    requires { IsTrue (tells_contents event) }
    ensures { event_words event ≡ phrase_words result ++ event_tail event }
{
    match event {
        Event::Put {
            bucket,
            version,
            key,
            value,
        } => Phrase::Four(b"put", bucket as u64, version, key, value),
        Event::Removed {
            bucket,
            version,
            key,
        } => Phrase::Three(b"removed", bucket as u64, version, key),
        Event::Got {
            bucket,
            version,
            key,
            ..
        } => Phrase::Three(b"got", bucket as u64, version, key),
        Event::Queued { number, value } => Phrase::Two(b"queued", number, value),
        Event::Taken { number, value } => Phrase::Two(b"taken", number, value),
        _ => unreachable!(),
    }
}

pub fn event_phrase(event: Event) -> Phrase
    ensures { event_words event ≡ phrase_words result ++ event_tail event }
{
    match event {
        Event::Begin { .. } => Phrase::Word(b"begin"),
        Event::End { steps, .. } => Phrase::One(b"end", steps),
        Event::Era { era } => Phrase::One(b"era", era as u64),
        Event::Reserve { .. } => Phrase::Word(b"reserve"),
        Event::Read { .. } => Phrase::Word(b"read"),
        Event::Hazard { .. } => Phrase::Word(b"hazard"),
        Event::Saw { .. } => Phrase::Word(b"saw"),
        Event::Give { slot, birth } => Phrase::Two(b"give", slot as u64, birth as u64),
        Event::Unused { slot } => Phrase::One(b"unused", slot as u64),
        Event::Link { .. } => Phrase::Word(b"link"),
        Event::Cut { slot } => Phrase::One(b"cut", slot as u64),
        Event::Retire {
            slot,
            birth,
            retire,
        } => Phrase::Three(b"retire", slot as u64, birth as u64, retire as u64),
        Event::Back { slot } => Phrase::One(b"back", slot as u64),
        Event::Held { index, slot, steps } => {
            Phrase::Three(b"held", index as u64, slot as u64, steps)
        }
        Event::Null { index, steps } => Phrase::Two(b"null", index as u64, steps),
        Event::Clear { index, slot } => Phrase::Two(b"clear", index as u64, slot as u64),
        Event::Copied { from, index, slot } => {
            Phrase::Three(b"copied", from as u64, index as u64, slot as u64)
        }
        Event::Left { count } => Phrase::One(b"left", count as u64),
        Event::Adopted { place, count } => Phrase::Two(b"adopted", place as u64, count as u64),
        Event::Put { .. }
        | Event::Removed { .. }
        | Event::Got { .. }
        | Event::Queued { .. }
        | Event::Taken { .. } => contents_phrase(event),
    }
}
