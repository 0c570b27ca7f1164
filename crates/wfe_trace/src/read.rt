// A trace as it is read, line by line.
ghost use Rattle.std.specs.Prelude.{◌≡◌, MatchResult, OnOk, OnErr, IfOk, IfErr, IsTrue, Ok, Err};
ghost use Rattle.wfe_trace.specs.Good.{is_of_line};
ghost use Rattle.wfe_trace.specs.Reading.{IsItemWithin, IsItemVersioned, Reading, reading_start, unread_config as unread, judged, judged_at, reading_after, version_after, config_after, line_after, stage_after as later_stage, after_field as later_field};

use crate::body::read_body;
use crate::item::Stage;
use crate::setting::{pairs_of, read_number, read_scheme, read_version, with_number};
use crate::{BadLine, Item, Mode, Reason};
use std::marker::Model;
use wfe_text::is;
use wfe_words::{Config, Field, SchemeKind};

/// A trace of which some lines were read.
#[derive(Drop)]
pub struct TraceState {
    mode: Mode,
    version: u32,
    line: u64,
    stage: Stage,
    config: Config,
}

impl Model for TraceState {
    ghost use Rattle.std.specs.Prelude.{◌≡◌, None, false};
    ghost use Rattle.wfe_words.specs.Config.{bad_field};
    ghost use Rattle.wfe_trace.specs.Reading.{Reading, IsVersioned, gives_pairs};

    ghost Value = { Reading };

    ghost view = { λ s. record { mode = s.mode; version = s.version; line = s.line; stage = s.stage; config = s.config } };

    ghost invariant = { λ s. (bad_field s.config ≡ None) × IsVersioned s.version s.config × (gives_pairs s.stage ≡ false) };
}

// The numbers of a setting before they are read: the least of each range.
fn unread_config() -> Config
    ensures { result ≡ unread }
{
    Config {
        scheme: SchemeKind::He,
        seats: 1,
        indexes: 3,
        slots: 2,
        buckets: 1,
        tries: 1,
        every: 1,
        last_era: 1,
        last_version: 1,
        pairs: 6,
    }
}

fn after_field(field: Field) -> Stage
    ensures { result ≡ later_field field }
{
    let field = match field {
        Field::Seats => Field::Indexes,
        Field::Indexes => Field::Slots,
        Field::Slots => Field::Buckets,
        Field::Buckets => Field::Tries,
        Field::Tries => Field::Every,
        Field::Every => Field::LastEra,
        Field::LastEra => Field::LastVersion,
        Field::LastVersion | Field::Pairs => return Stage::Begin,
    };
    Stage::Number { field }
}

fn stage_after(stage: Stage) -> Stage
    ensures { result ≡ later_stage stage }
{
    match stage {
        Stage::First => Stage::Scheme,
        Stage::Scheme => Stage::Number {
            field: Field::Seats,
        },
        Stage::Number { field } => after_field(field),
        Stage::Begin | Stage::Body => Stage::Body,
    }
}

impl TraceState {
    /// A trace of which no line was read.
    pub fn new(mode: Mode) -> TraceState
        ensures { result ≡ reading_start mode }
    {
        TraceState {
            mode,
            version: 1,
            line: 0,
            stage: Stage::First,
            config: unread_config(),
        }
    }

    /// How many lines were read.
    pub fn lines(&self) -> u64
        ensures { result ≡ self.now.line }
    {
        self.line
    }

    // Judges a line that is short enough, and takes what it says of the setting.
    fn judge(&mut self, bytes: &[u8]) -> Result<Item, Reason>
        ensures item { result ≡ judged_at self.old.stage self.old bytes.now }
        ensures taken { OnOk result (self.new ≡ record self.old
            { version = version_after self.old.stage self.old.version bytes.now; config = config_after self.old.stage self.old.config bytes.now }) }
        ensures kept { OnErr result (self.new ≡ self.old) }
    {
        match self.stage {
            Stage::First => {
                let version = read_version(bytes)?;
                self.version = version;
                self.config = with_number(unread_config(), Field::Pairs, pairs_of(version));
                Ok(Item::Setting)
            }
            Stage::Scheme => {
                self.config.scheme = read_scheme(self.version, bytes)?;
                Ok(Item::Setting)
            }
            Stage::Number { field } => {
                let number = read_number(field, bytes)?;
                self.config = with_number(self.config, field, number);
                Ok(Item::Setting)
            }
            Stage::Begin => {
                if !is(bytes, b"begin") {
                    return Err(Reason::Config);
                }
                Ok(Item::Ready {
                    version: self.version,
                    config: self.config,
                })
            }
            Stage::Body => {
                let command = read_body(self.mode, self.version, &self.config, bytes)?;
                Ok(Item::Command { command })
            }
        }
    }
}

/// Reads one line, without its line feed. A trace is read from its first line on, up to the first
/// bad line or the line `end`.
pub fn read_line(state: &mut TraceState, bytes: &[u8]) -> Result<Item, BadLine>
    ensures item { MatchResult result
        (λ item. judged state.old bytes.now ≡ Ok item)
        (λ bad. judged state.old bytes.now ≡ Err bad.reason) }
    ensures line { IfErr result (λ bad. bad.line ≡ line_after state.old) }
    ensures after { OnOk result (state.new ≡ reading_after state.old bytes.now) }
    ensures kept { OnErr result (state.new ≡ state.old) }
    ensures within { IfOk result (IsItemWithin state.old) }
    ensures version { IfOk result IsItemVersioned }
    ensures reason { IfErr result (λ bad. IsTrue (is_of_line bad.reason)) }
{
    let line = state.line.saturating_add(1);
    if bytes.len() > 200 {
        let reason = Reason::LongLine;
        return Err(BadLine { line, reason });
    }
    match state.judge(bytes) {
        Ok(item) => {
            state.line = line;
            state.stage = stage_after(state.stage);
            Ok(item)
        }
        Err(reason) => Err(BadLine { line, reason }),
    }
}
