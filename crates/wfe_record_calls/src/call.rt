// The call that a line's words begin.
ghost use Rattle.std.specs.Prelude.{◌≡◌, option_map};
ghost use Rattle.wfe_record_calls.specs.Reader.{call as call_of, call_by, later_call_by, leaving_call_by};

use wfe_defs::Call;
use wfe_record_words::{Words, since};
use wfe_words::Config;

// A call of a seat that leaves, or that takes over what another has left.
#[tactic(auto, unfolding(crate::specs::Reader::leaving_call_by))]
fn leaving_call(name: &[u8], line: &mut Words<'_>, version: u32, config: &Config) -> Option<Call>
    ensures { option_map (λ call. (call, line.new)) result ≡ leaving_call_by version config.now name.now line.old }
{
    if name == b"leave".as_slice() {
        since(4, version)?;
        Some(Call::Leave)
    } else if name == b"adopt".as_slice() {
        since(4, version)?;
        Some(Call::Adopt {
            place: line.seat(config)?,
        })
    } else {
        None
    }
}

// A call that records of the first version do not have.
#[tactic(auto, unfolding(crate::specs::Reader::later_call_by))]
fn later_call(name: &[u8], line: &mut Words<'_>, version: u32, config: &Config) -> Option<Call>
    ensures { option_map (λ call. (call, line.new)) result ≡ later_call_by version config.now name.now line.old }
{
    if name == b"copy".as_slice() {
        since(2, version)?;
        Some(Call::Copy {
            from: line.index(config)?,
            index: line.index(config)?,
        })
    } else if name == b"drop".as_slice() {
        since(2, version)?;
        Some(Call::DropIndex {
            index: line.index(config)?,
        })
    } else if name == b"look".as_slice() {
        since(2, version)?;
        Some(Call::Look {
            index: line.index(config)?,
            key: line.long()?,
        })
    } else if name == b"put_if".as_slice() {
        since(3, version)?;
        Some(Call::PutIf {
            key: line.long()?,
            value: line.long()?,
            version: line.long()?,
        })
    } else {
        leaving_call(name, line, version, config)
    }
}

#[tactic(auto, unfolding(crate::specs::Reader::call_by))]
fn first_call(name: &[u8], line: &mut Words<'_>, version: u32, config: &Config) -> Option<Call>
    ensures { option_map (λ call. (call, line.new)) result ≡ call_by version config.now name.now line.old }
{
    if name == b"get".as_slice() {
        Some(Call::Get { key: line.long()? })
    } else if name == b"put".as_slice() {
        Some(Call::Put {
            key: line.long()?,
            value: line.long()?,
        })
    } else if name == b"remove".as_slice() {
        Some(Call::Remove { key: line.long()? })
    } else if name == b"enq".as_slice() {
        Some(Call::Enqueue {
            value: line.long()?,
        })
    } else if name == b"deq".as_slice() {
        Some(Call::Dequeue)
    } else if name == b"hold".as_slice() {
        Some(Call::Hold { key: line.long()? })
    } else if name == b"release".as_slice() {
        Some(Call::Release)
    } else if name == b"advance".as_slice() {
        Some(Call::Advance)
    } else if name == b"scan".as_slice() {
        Some(Call::Scan)
    } else {
        later_call(name, line, version, config)
    }
}

/// A call that records of the version have, with indexes and seats in the setting's ranges, and what
/// is left of the line.
pub fn read_call(line: &mut Words<'_>, version: u32, config: &Config) -> Option<Call>
    ensures { option_map (λ call. (call, line.new)) result ≡ call_of version config.now line.old }
{
    let name = line.first()?;
    first_call(name, line, version, config)
}
