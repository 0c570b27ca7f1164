// The setting of a table, as C has it.
ghost use Rattle.std.specs.Prelude.{◌≡◌, ◌≢◌};
ghost use Rattle.wfe_c.specs.Setting.{config_of, refusal_code, scheme_number, scheme_of, setting_of, zeros};

use crate::codes::*;
use wfe_table::{Config, Field, MakeError, SchemeKind};

#[repr(C)]
#[derive(Clone, Copy)]
pub struct CSetting {
    pub scheme: u32,
    pub seats: u32,
    pub indexes: u32,
    pub slots: u32,
    pub buckets: u32,
    pub tries: u32,
    pub every: u32,
    pub last_era: u32,
    pub last_version: u64,
    pub pairs: u32,
}

pub(crate) fn scheme_of(number: u32) -> Option<SchemeKind>
    ensures { result ≡ scheme_of number }
{
    match number {
        0 => Some(SchemeKind::He),
        1 => Some(SchemeKind::Ibr),
        2 => Some(SchemeKind::Wfe),
        3 => Some(SchemeKind::Hp),
        _ => None,
    }
}

fn scheme_number(scheme: SchemeKind) -> u32
    ensures { result ≡ scheme_number scheme }
{
    match scheme {
        SchemeKind::He => 0,
        SchemeKind::Ibr => 1,
        SchemeKind::Wfe => 2,
        SchemeKind::Hp => 3,
    }
}

impl CSetting {
    pub(crate) fn zeros() -> CSetting
        ensures { result ≡ zeros }
    {
        CSetting {
            scheme: 0,
            seats: 0,
            indexes: 0,
            slots: 0,
            buckets: 0,
            tries: 0,
            every: 0,
            last_era: 0,
            last_version: 0,
            pairs: 0,
        }
    }

    pub(crate) fn of(config: Config) -> CSetting
        ensures { result ≡ setting_of config }
    {
        CSetting {
            scheme: scheme_number(config.scheme),
            seats: config.seats,
            indexes: config.indexes,
            slots: config.slots,
            buckets: config.buckets,
            tries: config.tries,
            every: config.every,
            last_era: config.last_era,
            last_version: config.last_version,
            pairs: config.pairs,
        }
    }

    pub(crate) fn config(&self, scheme: SchemeKind) -> Config
        ensures { result ≡ config_of self.now scheme }
    {
        Config {
            scheme,
            seats: self.seats,
            indexes: self.indexes,
            slots: self.slots,
            buckets: self.buckets,
            tries: self.tries,
            every: self.every,
            last_era: self.last_era,
            last_version: self.last_version,
            pairs: self.pairs,
        }
    }
}

// Why no table was made.
pub(crate) fn refusal(error: MakeError) -> u32
    ensures code { result ≡ refusal_code error }
    ensures some { result ≢ 0 }
{
    match error {
        MakeError::NoMemory => NO_MEMORY,
        MakeError::BadConfig { field } => match field {
            Field::Seats => BAD_SEATS,
            Field::Indexes => BAD_INDEXES,
            Field::Slots => BAD_SLOTS,
            Field::Buckets => BAD_BUCKETS,
            Field::Tries => BAD_TRIES,
            Field::Every => BAD_EVERY,
            Field::LastEra => BAD_LAST_ERA,
            Field::LastVersion => BAD_LAST_VERSION,
            Field::Pairs => BAD_PAIRS,
        },
    }
}
