// How a shared table is made: which settings are refused, and that its seats come in number order.
use std::alloc::Global;
use wfe_table::{Config, MakeError, SchemeKind, Seat, Shared};
use wfe_words::Field;

pub const GOOD: Config = Config {
    scheme: SchemeKind::He,
    seats: 2,
    indexes: 3,
    slots: 8,
    buckets: 1,
    tries: 2,
    every: 1,
    last_era: 100,
    last_version: 100,
    pairs: 6,
};

// A good setting with another number in one of its fields.
fn with(field: Field, number: u32) -> Config {
    let mut config = GOOD;
    match field {
        Field::Seats => config.seats = number,
        Field::Indexes => config.indexes = number,
        Field::Slots => config.slots = number,
        Field::Buckets => config.buckets = number,
        Field::Tries => config.tries = number,
        Field::Every => config.every = number,
        Field::LastEra => config.last_era = number,
        Field::LastVersion => config.last_version = number as u64,
        Field::Pairs => config.pairs = number,
    }
    config
}

// Numbers out of range.
const WRONG: [(Field, u32); 16] = [
    (Field::Seats, 0),
    (Field::Seats, 65),
    (Field::Indexes, 2),
    (Field::Indexes, 9),
    (Field::Slots, 1),
    (Field::Slots, 65_537),
    (Field::Buckets, 0),
    (Field::Buckets, 1_025),
    (Field::Tries, 0),
    (Field::Tries, 65),
    (Field::Every, 0),
    (Field::Every, 65_537),
    (Field::LastEra, 0),
    (Field::LastVersion, 0),
    (Field::Pairs, 0),
    (Field::Pairs, 7),
];

// Whether no table is made of the setting, for this field.
fn is_refused(alloc: Global, config: Config, field: Field) -> bool {
    match Shared::new(alloc, config) {
        Ok(_) => false,
        Err(error) => error == MakeError::BadConfig { field },
    }
}

#[test]
fn a_number_out_of_range_is_refused_by_its_field(rt: HostRuntime) {
    for (field, number) in &WRONG {
        assert!(rt; is_refused(rt.alloc(), with(*field, *number), *field));
    }
}

#[test]
fn the_first_number_out_of_range_is_named(rt: HostRuntime) {
    let config = Config {
        last_version: 281_474_976_710_657,
        ..with(Field::Pairs, 0)
    };
    assert!(rt; is_refused(rt.alloc(), config, Field::LastVersion));
}

// Whether seats come in number order.
fn are_in_order(seats: &[Seat]) -> bool {
    for (place, seat) in seats.iter().enumerate() {
        if seat.number() as usize != place {
            return false;
        }
    }
    true
}

// Whether so many seats of a new table come, in number order.
fn come_in_order(alloc: Global, scheme: SchemeKind, seats: u32) -> bool {
    let config = Config {
        scheme,
        seats,
        ..GOOD
    };
    match Shared::new(alloc, config) {
        Ok((_, made)) => made.len() == seats as usize && are_in_order(&made),
        Err(_) => false,
    }
}

#[test]
fn seats_come_in_number_order(rt: HostRuntime) {
    for scheme in [
        SchemeKind::He,
        SchemeKind::Ibr,
        SchemeKind::Wfe,
        SchemeKind::Hp,
    ] {
        for seats in [1, 2, 64] {
            assert!(rt; come_in_order(rt.alloc(), scheme, seats));
        }
    }
}
