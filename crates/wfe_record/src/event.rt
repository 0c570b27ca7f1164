// The events of a record.
ghost use Rattle.std.specs.Prelude.{◌≡◌, ℕ, option_map, IfSome, Some};
ghost use Rattle.wfe_defs.specs.declared.event.Event.{Event as AnyEvent};
ghost use Rattle.wfe_defs.specs.declared.event.Event.TheVariants as events;
ghost use Rattle.wfe_trace.specs.Words.{words};
ghost use Rattle.wfe_record_words.specs.Reader.{index, long, root, short, slot, since as since_by, three, two};
ghost use Rattle.wfe_record_words.specs.Within.{Small};
ghost use Rattle.wfe_record.specs.Entry.{IsEntry};
ghost use Rattle.wfe_record.specs.Reader.{event as event_of, event_by, entry as entry_of, entry_in as entry_by, hazard_event_by, row_event_by, standing_event_by};

use wfe_defs::Event;
use wfe_record_calls::{read_answer, read_call};
use wfe_record_words::{Words, read_contents, since};
use wfe_words::Config;

#[inline(always)]
fn held(line: &mut Words<'_>, config: &Config) -> Option<Event>
    ensures { option_map (λ event. (event, line.new)) result ≡ three (index config.now) (slot config.now) long events.Held line.old }
{
    Some(Event::Held {
        index: line.index(config)?,
        slot: line.slot(config)?,
        steps: line.long()?,
    })
}

#[inline(always)]
fn null(line: &mut Words<'_>, config: &Config) -> Option<Event>
    ensures { option_map (λ event. (event, line.new)) result ≡ two (index config.now) long events.Null line.old }
{
    Some(Event::Null {
        index: line.index(config)?,
        steps: line.long()?,
    })
}

#[inline(always)]
fn clear(line: &mut Words<'_>, config: &Config) -> Option<Event>
    ensures { option_map (λ event. (event, line.new)) result ≡ two (index config.now) (slot config.now) events.Clear line.old }
{
    Some(Event::Clear {
        index: line.index(config)?,
        slot: line.slot(config)?,
    })
}

#[inline(always)]
fn copied(line: &mut Words<'_>, version: u32, config: &Config) -> Option<Event>
    ensures { option_map (λ event. (event, line.new)) result ≡ since_by 2 version (three (index config.now) (index config.now) (slot config.now) events.Copied) line.old }
{
    since(2, version)?;
    Some(Event::Copied {
        from: line.index(config)?,
        index: line.index(config)?,
        slot: line.slot(config)?,
    })
}

// An event of a protection, or one of those that follow.
#[tactic(auto, unfolding(crate::specs::Reader::standing_event_by))]
fn standing_event(name: &[u8], line: &mut Words<'_>, version: u32, config: &Config) -> Option<Event>
    ensures { option_map (λ event. (event, line.new)) result ≡ standing_event_by version config.now name.now line.old }
{
    if name == b"held".as_slice() {
        held(line, config)
    } else if name == b"null".as_slice() {
        null(line, config)
    } else if name == b"clear".as_slice() {
        clear(line, config)
    } else if name == b"copied".as_slice() {
        copied(line, version, config)
    } else {
        read_contents(name, line, version, config)
    }
}

#[inline(always)]
fn given(line: &mut Words<'_>, config: &Config) -> Option<Event>
    ensures { option_map (λ event. (event, line.new)) result ≡ two (slot config.now) short events.Give line.old }
{
    Some(Event::Give {
        slot: line.slot(config)?,
        birth: line.short()?,
    })
}

#[inline(always)]
fn linked(line: &mut Words<'_>, config: &Config) -> Option<Event>
    ensures { option_map (λ event. (event, line.new)) result ≡ two (root config.now) (slot config.now) events.Link line.old }
{
    Some(Event::Link {
        root: line.root(config)?,
        slot: line.slot(config)?,
    })
}

#[inline(always)]
fn retired(line: &mut Words<'_>, config: &Config) -> Option<Event>
    ensures { option_map (λ event. (event, line.new)) result ≡ three (slot config.now) short short events.Retire line.old }
{
    Some(Event::Retire {
        slot: line.slot(config)?,
        birth: line.short()?,
        retire: line.short()?,
    })
}

// An event of a row, or one of those that follow.
#[tactic(auto, unfolding(crate::specs::Reader::row_event_by))]
fn row_event(name: &[u8], line: &mut Words<'_>, version: u32, config: &Config) -> Option<Event>
    ensures { option_map (λ event. (event, line.new)) result ≡ row_event_by version config.now name.now line.old }
{
    if name == b"give".as_slice() {
        given(line, config)
    } else if name == b"unused".as_slice() {
        Some(Event::Unused {
            slot: line.slot(config)?,
        })
    } else if name == b"link".as_slice() {
        linked(line, config)
    } else if name == b"cut".as_slice() {
        Some(Event::Cut {
            slot: line.slot(config)?,
        })
    } else if name == b"retire".as_slice() {
        retired(line, config)
    } else if name == b"back".as_slice() {
        Some(Event::Back {
            slot: line.slot(config)?,
        })
    } else {
        standing_event(name, line, version, config)
    }
}

// An event of a guard that publishes rows, or one of those that follow.
#[tactic(auto, unfolding(crate::specs::Reader::hazard_event_by))]
fn hazard_event(name: &[u8], line: &mut Words<'_>, version: u32, config: &Config) -> Option<Event>
    ensures { option_map (λ event. (event, line.new)) result ≡ hazard_event_by version config.now name.now line.old }
{
    if name == b"hazard".as_slice() {
        since(5, version)?;
        Some(Event::Hazard {
            guard: line.guard(config)?,
            slot: line.shown(config)?,
        })
    } else if name == b"saw".as_slice() {
        since(5, version)?;
        Some(Event::Saw {
            guard: line.guard(config)?,
            slot: line.shown(config)?,
        })
    } else {
        row_event(name, line, version, config)
    }
}

// An event of a call, of the clock or of a guard, or one of those that follow.
#[inline(always)]
#[tactic(auto, unfolding(crate::specs::Reader::event_by))]
fn call_event(name: &[u8], line: &mut Words<'_>, version: u32, config: &Config) -> Option<Event>
    ensures { option_map (λ event. (event, line.new)) result ≡ event_by version config.now name.now line.old }
{
    if name == b"begin".as_slice() {
        Some(Event::Begin {
            call: read_call(line, version, config)?,
        })
    } else if name == b"end".as_slice() {
        Some(Event::End {
            steps: line.long()?,
            answer: read_answer(line, version, config)?,
        })
    } else if name == b"era".as_slice() {
        Some(Event::Era { era: line.short()? })
    } else if name == b"reserve".as_slice() {
        Some(Event::Reserve {
            guard: line.guard(config)?,
            span: line.span()?,
        })
    } else if name == b"read".as_slice() {
        Some(Event::Read {
            guard: line.guard(config)?,
            span: line.span()?,
        })
    } else {
        hazard_event(name, line, version, config)
    }
}

fn event(line: &mut Words<'_>, version: u32, config: &Config) -> Option<Event>
    ensures { option_map (λ event. (event, line.new)) result ≡ event_of version config.now line.old }
{
    let name = line.first()?;
    call_event(name, line, version, config)
}

fn entry(line: &mut Words<'_>, version: u32, config: &Config) -> Option<(u32, Event)>
    ensures { option_map (λ entry. (entry, line.new)) result ≡ entry_of version config.now line.old }
{
    let seat = line.seat(config)?;
    let event = event(line, version, config)?;
    Some((seat, event))
}

fn entry_in(bytes: &[u8], version: u32, config: &Config) -> Option<(u32, Event)>
    ensures { result ≡ entry_by version config.now (words bytes.now) }
{
    let mut line = Words::of(bytes);
    let entry = entry(&mut line, version, config)?;
    if line.is_over() { Some(entry) } else { None }
}

// The numbers of a setting have 32 bits.
fn setting_is_small(config: Config)
    ensures { Small config }
{}

/// The seat and the event of a line of a record of the version and with the setting: of the line
/// without its line feed. Some exactly where the line is that of an event which such a record may
/// have, of one of its seats, with indexes, slots, buckets and places in their ranges.
pub fn read_event(bytes: &[u8], version: u32, config: &Config) -> Option<(u32, Event)>
    ensures read { IfSome result (λ entry. IsEntry version config.now bytes.now entry.0 entry.1) }
    ensures known { (seat : ℕ) (event : AnyEvent) → IsEntry version config.now bytes.now seat event → result ≡ Some (seat, event) }
    ensures words { result ≡ entry_by version config.now (words bytes.now) }
{
    setting_is_small(*config);
    entry_in(bytes, version, config)
}
