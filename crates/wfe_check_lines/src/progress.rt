// Where a record is, with who judges its entries, and what a whole line makes of that.
ghost use Rattle.std.specs.Prelude.{◌≡◌, ℕ, IfOk, MatchResult};
ghost use Rattle.laws.specs.records.Record.{Past};
ghost use Rattle.laws.specs.records.Record.Past.{Start};
ghost use Rattle.wfe_trace.specs.Words.{words};
ghost use Rattle.wfe_record.specs.record_words.HeaderReader.{header_in};
ghost use Rattle.wfe_check_lines.specs.Kinds.{kind_in};
ghost use Rattle.wfe_check_lines.specs.Reading.{Stage, Told, told_after, with_header, with_kind};
ghost use Rattle.wfe_check_lines.specs.Progress.{IsAt, Opens, Tells};
ghost use Rattle.wfe_check_lines.specs.declared.progress.Progress.TheVariants.{Over};
ghost use Rattle.wfe_words.specs.declared.config.Config.{Config as Setting};

use crate::Judge;
use crate::kind::{Kind, read_kind};
use crate::stops::Refusal;
use std::alloc::Global;
use wfe_record::read_header;
use wfe_trace::RecordReason;
use wfe_words::Config;

/// Where a record is.
#[derive(Drop)]
pub enum Progress<J: Judge> {
    /// Before its first line.
    First,
    /// After it: its version and setting, and the judge of its entries.
    Body {
        version: u32,
        config: Config,
        judge: J,
    },
    /// After its last line.
    Over,
}

// After the first line.
fn open<J: Judge>(alloc: Global, line: &[u8]) -> Result<Progress<J>, Refusal>
    ensures { (told : Told) → told.entries ≡ Start → Opens J.judges result told (with_header told (header_in (words line.now))) }
{
    let Some((version, config)) = read_header(line) else {
        return Err(Refusal::Bad {
            reason: RecordReason::Header,
        });
    };
    match J::open(alloc, version, config) {
        Ok(judge) => Ok(Progress::Body {
            version,
            config,
            judge,
        }),
        Err(_) => Err(Refusal::NoMemory),
    }
}

impl<J: Judge> Progress<J> {
    // Takes the first line. It stands apart, so that no other line pays for the room that a new judge takes.
    #[inline(never)]
    fn begin(&mut self, alloc: Global, line: &[u8]) -> Result<bool, Refusal>
        ensures { (told : Told) → told.entries ≡ Start → Tells J.judges result told (with_header told (header_in (words line.now))) self.new }
    {
        *self = open(alloc, line)?;
        Ok(false)
    }

    // The last line came. It stands apart for the same reason.
    #[inline(never)]
    fn end(&mut self)
        ensures { self.new ≡ Over }
    {
        *self = Progress::Over;
    }

    /// Takes a whole line, without its line feed, and answers whether it is an entry.
    pub(crate) fn take(&mut self, alloc: Global, line: &[u8]) -> Result<bool, Refusal>
        requires some { (stage : Stage) × (entries : Past) × IsAt J.judges self.old stage entries }
        ensures { (told : Told) → IsAt J.judges self.old told.stage told.entries → Tells J.judges result told (told_after told line.now) self.new }
    {
        match self {
            Progress::First => self.begin(alloc, line),
            Progress::Body {
                version,
                config,
                judge,
            } => match read_kind(line, *version, config) {
                Some(Kind::Entry { seat, event }) => match judge.entry(seat, &event) {
                    Ok(true) => Ok(true),
                    Ok(false) => Err(Refusal::Unlawful),
                    Err(_) => Err(Refusal::NoMemory),
                },
                Some(Kind::Shown) => Ok(false),
                Some(Kind::Last) => {
                    self.end();
                    Ok(false)
                }
                None => Err(Refusal::Bad {
                    reason: RecordReason::Form,
                }),
            },
            Progress::Over => Err(Refusal::Bad {
                reason: RecordReason::Form,
            }),
        }
    }
}
