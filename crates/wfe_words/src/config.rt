// The setting of a table: a scheme and nine numbers, each with a range of its own.
ghost use Rattle.std.specs.Prelude.{◌≡◌, if◌then◌else◌, Err, Ok};
ghost use Rattle.wfe_words.specs.Config.{allows as is_allowed, number_of};

/// The reclamation schemes: Hazard Eras (Ramalhete and Correia 2017), 2GE intervals (Wen and others
/// 2018), Wait-Free Eras (Nikolaev and Ravindran 2020) and hazard pointers (Michael 2004).
#[derive(Clone, Copy, Debug, PartialEq, Eq)]
pub enum SchemeKind {
    /// Hazard Eras: each index of a seat publishes one era.
    He,
    /// 2GE: each seat publishes one interval of eras.
    Ibr,
    /// Wait-Free Eras: as Hazard Eras, and movers of the clock help those that fail to protect.
    Wfe,
    /// Hazard pointers (Michael 2004): each index of a seat publishes the row that it protects.
    Hp,
}

/// The setting of a table.
#[derive(Clone, Copy, Debug, PartialEq, Eq)]
pub struct Config {
    pub scheme: SchemeKind,
    /// Seats, of which each thread that takes part has one at least, 1 to 64.
    pub seats: u32,
    /// Protections that a seat may hold at a time, 3 to 8.
    pub indexes: u32,
    /// Rows besides the queue's first one, 2 to 65,536.
    pub slots: u32,
    /// Buckets of the map, 1 to 1,024.
    pub buckets: u32,
    /// Under Wait-Free Eras, failed tries before a reader asks for help, 1 to 64.
    pub tries: u32,
    /// Retirements of a seat after which it scans its retire list, 1 to 65,536. Before such a scan it moves
    /// the clock, but under hazard pointers, where no retirement does.
    pub every: u32,
    /// The era at which the clock stops, 1 to 4,294,967,295.
    pub last_era: u32,
    /// The version at which a bucket or the queue takes no more changes, 1 to 281,474,976,710,656.
    pub last_version: u64,
    /// Pairs for which a row has room, 6 or 14.
    pub pairs: u32,
}

/// The numbers of a setting, in the order in which they are judged.
#[derive(Clone, Copy, Debug, PartialEq, Eq)]
pub enum Field {
    Seats,
    Indexes,
    Slots,
    Buckets,
    Tries,
    Every,
    LastEra,
    LastVersion,
    Pairs,
}

/// A number of the setting is outside its range: the first such.
#[derive(Clone, Copy, Debug, PartialEq, Eq)]
pub struct BadConfig {
    pub field: Field,
}

impl Field {
    /// Whether the number lies in the field's range.
    pub fn allows(self, number: u64) -> bool
        ensures { result ≡ is_allowed self number }
    {
        match self {
            Field::Seats | Field::Tries => 1 <= number && number <= 64,
            Field::Indexes => 3 <= number && number <= 8,
            Field::Slots => 2 <= number && number <= 65_536,
            Field::Buckets => 1 <= number && number <= 1_024,
            Field::Every => 1 <= number && number <= 65_536,
            Field::LastEra => 1 <= number && number <= 4_294_967_295,
            Field::LastVersion => 1 <= number && number <= 281_474_976_710_656,
            Field::Pairs => number == 6 || number == 14,
        }
    }
}

impl Config {
    fn number(&self, field: Field) -> u64
        ensures { result ≡ number_of self.now field }
    {
        match field {
            Field::Seats => self.seats as u64,
            Field::Indexes => self.indexes as u64,
            Field::Slots => self.slots as u64,
            Field::Buckets => self.buckets as u64,
            Field::Tries => self.tries as u64,
            Field::Every => self.every as u64,
            Field::LastEra => self.last_era as u64,
            Field::LastVersion => self.last_version,
            Field::Pairs => self.pairs as u64,
        }
    }

    // Refuses a field whose number is outside its range.
    pub(crate) fn judge(&self, field: Field) -> Result<(), BadConfig>
        ensures { result ≡
            (if is_allowed field (number_of self.now field) then Ok tt
            else Err (record { field = field })) }
    {
        if field.allows(self.number(field)) {
            Ok(())
        } else {
            Err(BadConfig { field })
        }
    }
}
