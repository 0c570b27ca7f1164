// The answer that a line's words end a call with.
ghost use Rattle.std.specs.Prelude.{◌≡◌, option_map};
ghost use Rattle.wfe_record_calls.specs.AnswerReader.{answer as answer_of, answer_by, clock as clock_of, clock_by as clock_named, seat_answer_by, later_answer_by, leaving_answer_by};

use wfe_defs::{Answer, ClockMove};
use wfe_record_words::{Words, since};
use wfe_words::Config;

#[tactic(auto, unfolding(crate::specs::AnswerReader::clock_by))]
fn clock_by(name: &[u8], line: &mut Words<'_>) -> Option<ClockMove>
    ensures { option_map (λ clock. (clock, line.new)) result ≡ clock_named name.now line.old }
{
    if name == b"still".as_slice() {
        Some(ClockMove::Still)
    } else if name == b"moved".as_slice() {
        Some(ClockMove::Moved { era: line.short()? })
    } else if name == b"other".as_slice() {
        Some(ClockMove::Other {
            seen: line.short()?,
        })
    } else if name == b"era-spent".as_slice() {
        Some(ClockMove::EraSpent { era: line.short()? })
    } else {
        None
    }
}

fn clock(line: &mut Words<'_>) -> Option<ClockMove>
    ensures { option_map (λ clock. (clock, line.new)) result ≡ clock_of line.old }
{
    let name = line.first()?;
    clock_by(name, line)
}

// An answer of a seat that leaves or takes over a list, or a move of the clock.
#[tactic(auto, unfolding(crate::specs::AnswerReader::leaving_answer_by))]
fn leaving_answer(name: &[u8], line: &mut Words<'_>, version: u32) -> Option<Answer>
    ensures { option_map (λ answer. (answer, line.new)) result ≡ leaving_answer_by version name.now line.old }
{
    if name == b"left".as_slice() {
        since(4, version)?;
        Some(Answer::Left {
            count: line.short()?,
        })
    } else if name == b"adopted".as_slice() {
        since(4, version)?;
        Some(Answer::Adopted {
            count: line.short()?,
        })
    } else if name == b"not-left".as_slice() {
        since(4, version)?;
        Some(Answer::NotLeft)
    } else if name == b"adopted-before".as_slice() {
        since(4, version)?;
        Some(Answer::AdoptedBefore)
    } else {
        Some(Answer::Clock {
            outcome: clock_by(name, line)?,
        })
    }
}

// An answer that records of the first version do not have, or one of those that follow.
#[tactic(auto, unfolding(crate::specs::AnswerReader::later_answer_by))]
fn later_answer(name: &[u8], line: &mut Words<'_>, version: u32, config: &Config) -> Option<Answer>
    ensures { option_map (λ answer. (answer, line.new)) result ≡ later_answer_by version config.now name.now line.old }
{
    if name == b"copied".as_slice() {
        since(2, version)?;
        Some(Answer::Copied {
            slot: line.slot(config)?,
        })
    } else if name == b"dropped".as_slice() {
        since(2, version)?;
        Some(Answer::Dropped)
    } else if name == b"looked".as_slice() {
        since(2, version)?;
        Some(Answer::Looked {
            slot: line.slot(config)?,
            version: line.long()?,
            value: line.value()?,
        })
    } else if name == b"stale".as_slice() {
        since(3, version)?;
        Some(Answer::Stale {
            version: line.long()?,
        })
    } else {
        leaving_answer(name, line, version)
    }
}

// An answer of a call on the queue or on a seat, or one of those that follow.
#[tactic(auto, unfolding(crate::specs::AnswerReader::seat_answer_by))]
fn seat_answer(name: &[u8], line: &mut Words<'_>, version: u32, config: &Config) -> Option<Answer>
    ensures { option_map (λ answer. (answer, line.new)) result ≡ seat_answer_by version config.now name.now line.old }
{
    if name == b"queued".as_slice() {
        Some(Answer::Queued {
            number: line.long()?,
        })
    } else if name == b"taken".as_slice() {
        Some(Answer::Taken {
            number: line.long()?,
            value: line.long()?,
            clock: clock(line)?,
        })
    } else if name == b"empty".as_slice() {
        Some(Answer::Empty)
    } else if name == b"holding".as_slice() {
        Some(Answer::Holding {
            slot: line.slot(config)?,
        })
    } else if name == b"nothing".as_slice() {
        Some(Answer::Nothing)
    } else if name == b"released".as_slice() {
        Some(Answer::Released)
    } else if name == b"scanned".as_slice() {
        Some(Answer::Scanned {
            kept: line.short()?,
            back: line.short()?,
        })
    } else {
        later_answer(name, line, version, config)
    }
}

// An answer of a call on the map, or one of those that follow.
#[tactic(auto, unfolding(crate::specs::AnswerReader::answer_by))]
fn map_answer(name: &[u8], line: &mut Words<'_>, version: u32, config: &Config) -> Option<Answer>
    ensures { option_map (λ answer. (answer, line.new)) result ≡ answer_by version config.now name.now line.old }
{
    if name == b"got".as_slice() {
        Some(Answer::Got {
            version: line.long()?,
            value: line.value()?,
        })
    } else if name == b"done".as_slice() {
        Some(Answer::Done {
            version: line.long()?,
            clock: clock(line)?,
        })
    } else if name == b"absent".as_slice() {
        Some(Answer::Absent {
            version: line.long()?,
        })
    } else if name == b"full".as_slice() {
        Some(Answer::Full)
    } else if name == b"bucket-full".as_slice() {
        Some(Answer::BucketFull {
            version: line.long()?,
        })
    } else if name == b"spent".as_slice() {
        Some(Answer::Spent {
            number: line.long()?,
        })
    } else {
        seat_answer(name, line, version, config)
    }
}

/// An answer that records of the version have, with rows in the setting's range, and what is left of
/// the line.
pub fn read_answer(line: &mut Words<'_>, version: u32, config: &Config) -> Option<Answer>
    ensures { option_map (λ answer. (answer, line.new)) result ≡ answer_of version config.now line.old }
{
    let name = line.first()?;
    map_answer(name, line, version, config)
}
