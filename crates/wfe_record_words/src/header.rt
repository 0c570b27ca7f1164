// The first line of a record.
ghost use Rattle.std.specs.Prelude.{◌≡◌, ℕ, option_map, IfSome, IsTrue, Some};
ghost use Rattle.wfe_words.specs.Config.{allows as in_range};
ghost use Rattle.wfe_words.specs.declared.config.Config.{Config as AnyConfig};
ghost use Rattle.wfe_trace.specs.Setting.{pairs_in};
ghost use Rattle.wfe_trace.specs.Words.{words};
ghost use Rattle.wfe_record_words.specs.Header.{IsHeader};
ghost use Rattle.wfe_record_words.specs.HeaderReader.{header as header_of, header_in as header_by, scheme_in, scheme as scheme_of, setting_in as setting_by, setting as setting_of, version_in as version_by, version as version_of, config as config_of, exactly as exactly_by};

use crate::{Words, since};
use wfe_trace::{number_of, scheme_version};
use wfe_words::{Config, Field, SchemeKind};

/// The last version whose records are read; the first is 1.
pub const LAST_VERSION: u32 = 5;

#[tactic(auto, unfolding(crate::specs::HeaderReader::scheme_in))]
fn scheme_named(word: &[u8]) -> Option<SchemeKind>
    ensures { result ≡ scheme_in word.now }
{
    if word == b"he".as_slice() {
        Some(SchemeKind::He)
    } else if word == b"ibr".as_slice() {
        Some(SchemeKind::Ibr)
    } else if word == b"wfe".as_slice() {
        Some(SchemeKind::Wfe)
    } else if word == b"hp".as_slice() {
        Some(SchemeKind::Hp)
    } else {
        None
    }
}

fn scheme(line: &mut Words<'_>) -> Option<SchemeKind>
    ensures { option_map (λ scheme. (scheme, line.new)) result ≡ scheme_of line.old }
{
    scheme_named(line.first()?)
}

#[tactic(auto, unfolding(crate::specs::HeaderReader::setting_in))]
fn setting_in(word: &[u8], field: Field) -> Option<u64>
    ensures number { result ≡ setting_by field word.now }
    ensures within { IfSome result (λ number. IsTrue (in_range field number)) }
{
    let number = number_of(word)?;
    if field.allows(number) {
        Some(number)
    } else {
        None
    }
}

fn setting(line: &mut Words<'_>, field: Field) -> Option<u64>
    ensures number { option_map (λ number. (number, line.new)) result ≡ setting_of field line.old }
    ensures within { IfSome result (λ number. IsTrue (in_range field number)) }
{
    setting_in(line.first()?, field)
}

#[tactic(auto, unfolding(crate::specs::HeaderReader::version_in))]
fn version_in(word: &[u8]) -> Option<u32>
    ensures { result ≡ version_by word.now }
{
    let number = number_of(word)?;
    if 1 <= number && number <= LAST_VERSION as u64 {
        Some(number as u32)
    } else {
        None
    }
}

fn version(line: &mut Words<'_>) -> Option<u32>
    ensures { option_map (λ version. (version, line.new)) result ≡ version_of line.old }
{
    version_in(line.first()?)
}

// For how many pairs a row has room, in records of the version.
fn pairs_of(version: u32) -> u32
    ensures { result ≡ pairs_in version }
{
    if version >= 3 { 14 } else { 6 }
}

fn config(line: &mut Words<'_>, pairs: u32) -> Option<Config>
    ensures { option_map (λ config. (config, line.new)) result ≡ config_of pairs line.old }
{
    Some(Config {
        scheme: scheme(line)?,
        seats: setting(line, Field::Seats)? as u32,
        indexes: setting(line, Field::Indexes)? as u32,
        slots: setting(line, Field::Slots)? as u32,
        buckets: setting(line, Field::Buckets)? as u32,
        tries: setting(line, Field::Tries)? as u32,
        every: setting(line, Field::Every)? as u32,
        last_era: setting(line, Field::LastEra)? as u32,
        last_version: setting(line, Field::LastVersion)?,
        pairs,
    })
}

/// Nothing, where the word has this name.
#[tactic(auto, unfolding(crate::specs::HeaderReader::exactly))]
pub fn exactly(word: &[u8], name: &[u8]) -> Option<()>
    ensures { result ≡ exactly_by name.now word.now }
{
    if word == name { Some(()) } else { None }
}

fn header(line: &mut Words<'_>) -> Option<(u32, Config)>
    ensures { option_map (λ header. (header, line.new)) result ≡ header_of line.old }
{
    exactly(line.first()?, b"record")?;
    let version = version(line)?;
    let config = config(line, pairs_of(version))?;
    since(scheme_version(config.scheme), version)?;
    Some((version, config))
}

fn header_in(bytes: &[u8]) -> Option<(u32, Config)>
    ensures { result ≡ header_by (words bytes.now) }
{
    let mut line = Words::of(bytes);
    let header = header(&mut line)?;
    if line.is_over() { Some(header) } else { None }
}

/// The version and the setting of the first line of a record: of the line without its line feed.
/// Some exactly where the line is that of a version up to the last one that is read, with each
/// number of the setting in its range, a scheme of that version, and as many pairs as it gives.
pub fn read_header(bytes: &[u8]) -> Option<(u32, Config)>
    ensures read { IfSome result (λ header. IsHeader bytes.now header.0 header.1) }
    ensures known { (version : ℕ) (config : AnyConfig) → IsHeader bytes.now version config → result ≡ Some (version, config) }
    ensures words { result ≡ header_by (words bytes.now) }
{
    header_in(bytes)
}
