// What the definitions of words come to: their numbers, the values with which they start, and how values are packed.
use std::test::Fail;
use wfe_words::{Config, Layout, Reservation, SchemeKind, Span, reservation_word, span_word};

const SMALL: Config = Config {
    scheme: SchemeKind::He,
    seats: 2,
    indexes: 3,
    slots: 64,
    buckets: 2,
    tries: 2,
    every: 1,
    last_era: 100,
    last_version: 100,
    pairs: 6,
};

// The last word of each group, behind which the next group begins. Of index words and of rows also the last of the first seat
// and of the first row.
#[test]
fn words_are_numbered_group_by_group(rt: HostRuntime) -> Result<(), Fail> {
    let layout = Layout::new(SMALL)?;
    let found = [
        layout.clock(),
        layout.helper(1),
        layout.index(0, 2),
        layout.index(1, 2),
        layout.interval(1),
        layout.request(1),
        layout.bucket(1),
        layout.head(),
        layout.tail(),
        layout.claim(64),
        layout.life(64),
        layout.row(0, 14),
        layout.row(64, 14),
        layout.place(1),
    ];
    let want = [0, 2, 5, 8, 10, 12, 14, 15, 16, 18, 83, 98, 1_058, 1_060];
    assert_eq!(rt; found.as_slice(), want.as_slice());
    Ok(())
}

#[test]
fn the_largest_table_has_about_two_million_words(rt: HostRuntime) -> Result<(), Fail> {
    let largest = Layout::new(Config {
        scheme: SchemeKind::Wfe,
        seats: 64,
        indexes: 8,
        slots: 65_536,
        buckets: 1_024,
        tries: 64,
        every: 65_536,
        last_era: 4_294_967_295,
        last_version: 281_474_976_710_656,
        pairs: 14,
    })?;
    assert_eq!(rt; largest.words(), 2_100_004);
    Ok(())
}

// All words start with 0, but for the clock, the queue's head and tail, the claim word, and the life of the dummy.
#[test]
fn words_start_with_the_queue_at_its_dummy(rt: HostRuntime) -> Result<(), Fail> {
    let layout = Layout::new(Config { slots: 2, ..SMALL })?;
    for word in 0..layout.words() {
        let start = match word {
            0 => 1,
            15 | 16 => 3,
            17 => 0xffff_ffff_ffff_fffc,
            20 => 0x0000_0001_0000_0000,
            _ => 0,
        };
        assert_eq!(rt; layout.start(word), start, "word {word}");
    }
    Ok(())
}

// Requests and lives are known by the contract of `known_words`.
#[test]
fn eras_stand_in_the_high_half(rt: HostRuntime) {
    let reservation = Reservation { era: 3, tag: 5 };
    let span = Some(Span { lo: 3, hi: 5 });
    let found = [reservation_word(reservation), span_word(span)];
    let want = [0x0000_0003_0000_0005, 0x0000_0003_0000_0005];
    assert_eq!(rt; found.as_slice(), want.as_slice());
}
