// The events of keys and values, and of lists, that a line's words tell.
ghost use Rattle.std.specs.Prelude.{◌≡◌, option_map};
ghost use Rattle.wfe_defs.specs.declared.event.Event.TheVariants as events;
ghost use Rattle.wfe_record_words.specs.ContentsReader.{contents_event_by, leaving_event_by};
ghost use Rattle.wfe_record_words.specs.Reader.{bucket, four, long, three, two, value};

use crate::{Words, since};
use wfe_defs::Event;
use wfe_words::Config;

// An event of a seat that leaves, or that takes over a list.
#[tactic(auto, unfolding(crate::specs::ContentsReader::leaving_event_by))]
fn leaving_event(name: &[u8], line: &mut Words<'_>, version: u32, config: &Config) -> Option<Event>
    ensures { option_map (λ event. (event, line.new)) result ≡ leaving_event_by version config.now name.now line.old }
{
    if name == b"left".as_slice() {
        since(4, version)?;
        Some(Event::Left {
            count: line.short()?,
        })
    } else if name == b"adopted".as_slice() {
        since(4, version)?;
        Some(Event::Adopted {
            place: line.seat(config)?,
            count: line.short()?,
        })
    } else {
        None
    }
}

#[inline(always)]
fn put(line: &mut Words<'_>, config: &Config) -> Option<Event>
    ensures { option_map (λ event. (event, line.new)) result ≡ four (bucket config.now) long long long events.Put line.old }
{
    Some(Event::Put {
        bucket: line.bucket(config)?,
        version: line.long()?,
        key: line.long()?,
        value: line.long()?,
    })
}

#[inline(always)]
fn removed(line: &mut Words<'_>, config: &Config) -> Option<Event>
    ensures { option_map (λ event. (event, line.new)) result ≡ three (bucket config.now) long long events.Removed line.old }
{
    Some(Event::Removed {
        bucket: line.bucket(config)?,
        version: line.long()?,
        key: line.long()?,
    })
}

#[inline(always)]
fn got(line: &mut Words<'_>, config: &Config) -> Option<Event>
    ensures { option_map (λ event. (event, line.new)) result ≡ four (bucket config.now) long long value events.Got line.old }
{
    Some(Event::Got {
        bucket: line.bucket(config)?,
        version: line.long()?,
        key: line.long()?,
        value: line.value()?,
    })
}

#[inline(always)]
fn queued(line: &mut Words<'_>) -> Option<Event>
    ensures { option_map (λ event. (event, line.new)) result ≡ two long long events.Queued line.old }
{
    Some(Event::Queued {
        number: line.long()?,
        value: line.long()?,
    })
}

#[inline(always)]
fn taken(line: &mut Words<'_>) -> Option<Event>
    ensures { option_map (λ event. (event, line.new)) result ≡ two long long events.Taken line.old }
{
    Some(Event::Taken {
        number: line.long()?,
        value: line.long()?,
    })
}

/// An event of keys, values or lists that records of the version have, with each number in its range
/// in a record of the setting, and what is left of the line.
#[tactic(auto, unfolding(crate::specs::ContentsReader::contents_event_by))]
pub fn read_contents(
    name: &[u8],
    line: &mut Words<'_>,
    version: u32,
    config: &Config,
) -> Option<Event>
    ensures { option_map (λ event. (event, line.new)) result ≡ contents_event_by version config.now name.now line.old }
{
    if name == b"put".as_slice() {
        put(line, config)
    } else if name == b"removed".as_slice() {
        removed(line, config)
    } else if name == b"got".as_slice() {
        got(line, config)
    } else if name == b"queued".as_slice() {
        queued(line)
    } else if name == b"taken".as_slice() {
        taken(line)
    } else {
        leaving_event(name, line, version, config)
    }
}
