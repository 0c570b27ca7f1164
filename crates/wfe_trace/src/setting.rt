// The lines of a trace before its body: its version, and its setting.
ghost use Rattle.std.specs.Prelude.{◌≡◌, ◌≤◌, ◌∷◌, MatchResult, IfOk, Ok, Err, IsTrue};
ghost use Rattle.wfe_words.specs.Config.{allows as in_range};
ghost use Rattle.wfe_trace.specs.Setting.{version_line, pairs_in, word_after as after, scheme_in, scheme_line, scheme_known, scheme_version as version_of_scheme, field_name as name_of_field, number_line, with_number as changed};
ghost use Rattle.wfe_trace.specs.Words.{words};

use crate::Reason;
use wfe_text::{Words, is, number_of, words_of};
use wfe_words::{Config, Field, SchemeKind};

/// The version that the first line names, 1 to 5.
pub fn read_version(bytes: &[u8]) -> Result<u32, Reason>
    ensures { result ≡ version_line bytes.now }
{
    if is(bytes, b"wfe 1") {
        Ok(1)
    } else if is(bytes, b"wfe 2") {
        Ok(2)
    } else if is(bytes, b"wfe 3") {
        Ok(3)
    } else if is(bytes, b"wfe 4") {
        Ok(4)
    } else if is(bytes, b"wfe 5") {
        Ok(5)
    } else {
        Err(Reason::First)
    }
}

/// For how many pairs a row has room, in traces of the version.
pub fn pairs_of(version: u32) -> u64
    ensures number { result ≡ pairs_in version }
    ensures within { IsTrue (in_range Field.Pairs result) }
{
    if version >= 3 { 14 } else { 6 }
}

// The word after the one that the line begins with.
fn word_after<'a>(name: &[u8], bytes: &'a [u8]) -> Result<&'a [u8], Reason>
    ensures { MatchResult result (λ w. after name.now (words bytes.now) ≡ Ok w.now) (λ e. after name.now (words bytes.now) ≡ Err e) }
{
    match words_of(bytes) {
        Words::Two(first, word) if is(first, name) => Ok(word),
        _ => Err(Reason::Config),
    }
}

fn scheme_of(word: &[u8]) -> Result<SchemeKind, Reason>
    ensures { result ≡ scheme_in word.now }
{
    if is(word, b"he") {
        Ok(SchemeKind::He)
    } else if is(word, b"ibr") {
        Ok(SchemeKind::Ibr)
    } else if is(word, b"wfe") {
        Ok(SchemeKind::Wfe)
    } else if is(word, b"hp") {
        Ok(SchemeKind::Hp)
    } else {
        Err(Reason::Config)
    }
}

fn named_scheme(bytes: &[u8]) -> Result<SchemeKind, Reason>
    ensures { result ≡ scheme_line (words bytes.now) }
{
    scheme_of(word_after(b"scheme", bytes)?)
}

/// The first version whose traces have the scheme.
pub fn scheme_version(scheme: SchemeKind) -> u32
    ensures { result ≡ version_of_scheme scheme }
{
    match scheme {
        SchemeKind::He | SchemeKind::Ibr | SchemeKind::Wfe => 1,
        SchemeKind::Hp => 5,
    }
}

/// The scheme that the second line names, in a trace of the version.
pub fn read_scheme(version: u32, bytes: &[u8]) -> Result<SchemeKind, Reason>
    ensures line { result ≡ scheme_known version (words bytes.now) }
    ensures named { IfOk result (λ scheme. scheme_line (words bytes.now) ≡ Ok scheme) }
    ensures known { IfOk result (λ scheme. version_of_scheme scheme ≤ version) }
{
    let scheme = named_scheme(bytes)?;
    if scheme_version(scheme) > version {
        return Err(Reason::Config);
    }
    Ok(scheme)
}

fn field_name(field: Field) -> &'static [u8]
    ensures { result.now ≡ name_of_field field }
{
    const NAMES: [&[u8]; 9] = [
        b"seats",
        b"indexes",
        b"slots",
        b"buckets",
        b"tries",
        b"every",
        b"last_era",
        b"last_version",
        b"pairs",
    ];
    NAMES[field as usize]
}

/// The number that a field's line gives it.
pub fn read_number(field: Field, bytes: &[u8]) -> Result<u64, Reason>
    ensures line { result ≡ number_line field (words bytes.now) }
    ensures within { IfOk result (λ number. IsTrue (in_range field number)) }
{
    let Some(number) = number_of(word_after(field_name(field), bytes)?) else {
        return Err(Reason::Number);
    };
    if !field.allows(number) {
        return Err(Reason::Range);
    }
    Ok(number)
}

/// The setting with another number in a field.
pub fn with_number(mut config: Config, field: Field, number: u64) -> Config
    requires { IsTrue (in_range field number) }
    ensures { result ≡ changed config field number }
{
    match field {
        Field::Seats => config.seats = number as u32,
        Field::Indexes => config.indexes = number as u32,
        Field::Slots => config.slots = number as u32,
        Field::Buckets => config.buckets = number as u32,
        Field::Tries => config.tries = number as u32,
        Field::Every => config.every = number as u32,
        Field::LastEra => config.last_era = number as u32,
        Field::LastVersion => config.last_version = number,
        Field::Pairs => config.pairs = number as u32,
    }
    config
}
