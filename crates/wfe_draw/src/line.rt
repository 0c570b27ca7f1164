// What a line of a record tells, by where the record is.
ghost use Rattle.std.specs.Prelude.{◌≡◌};
ghost use Rattle.wfe_trace.specs.Words.{words};
ghost use Rattle.wfe_record.specs.record_words.HeaderReader.{header_in};
ghost use Rattle.wfe_check_lines.specs.Kinds.{kind_in};
ghost use Rattle.wfe_check_lines.specs.Reading.{Told, told_after, with_header, with_kind};
ghost use Rattle.wfe_check_lines.specs.Reading.Stage.{Body};
ghost use Rattle.wfe_draw.specs.Lines.{IsAt, Tells};

use wfe_check_lines::{Kind, read_kind};
use wfe_defs::Event;
use wfe_record::read_header;
use wfe_trace::RecordReason;
use wfe_words::Config;

/// Where a record is.
#[derive(Clone, Copy)]
pub enum Place {
    /// Before its first line.
    First,
    /// After it: its version and setting.
    Body { version: u32, config: Config },
    /// After its last line.
    Over,
}

/// What a line tells.
#[derive(Clone, Copy)]
pub enum Meaning {
    /// No entry: the record is there now.
    Goes { place: Place },
    Entry { seat: u32, event: Event },
}

fn read_first(line: &[u8]) -> Result<Meaning, RecordReason>
    ensures { (told : Told) → Tells result told (with_header told (header_in (words line.now))) }
{
    match read_header(line) {
        Some((version, config)) => Ok(Meaning::Goes {
            place: Place::Body { version, config },
        }),
        None => Err(RecordReason::Header),
    }
}

fn read_body(line: &[u8], version: u32, config: &Config) -> Result<Meaning, RecordReason>
    ensures { (told : Told) → told.stage ≡ Body version config.now → Tells result told (with_kind version config.now told (kind_in version config.now (words line.now))) }
{
    match read_kind(line, version, config) {
        Some(Kind::Entry { seat, event }) => Ok(Meaning::Entry { seat, event }),
        Some(Kind::Shown) => Ok(Meaning::Goes {
            place: Place::Body {
                version,
                config: *config,
            },
        }),
        Some(Kind::Last) => Ok(Meaning::Goes { place: Place::Over }),
        None => Err(RecordReason::Form),
    }
}

/// What a whole line tells, without its line feed.
pub fn read_line(place: Place, line: &[u8]) -> Result<Meaning, RecordReason>
    ensures { (told : Told) → IsAt place told.stage → Tells result told (told_after told line.now) }
{
    match place {
        Place::First => read_first(line),
        Place::Body { version, config } => read_body(line, version, &config),
        Place::Over => Err(RecordReason::Form),
    }
}
