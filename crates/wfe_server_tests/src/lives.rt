// Which lives meet which intervals, by hand.
use wfe_defs::{Interval, Lifetime, meets};

// Whether the life of a row that was given in era 3, and retired in this one if it is not 0, meets an interval.
fn met(retire: u32, lo: u32, hi: u32) -> bool {
    let life = Lifetime {
        slot: 0,
        birth: 3,
        retire,
    };
    meets(life, Interval { lo, hi })
}

#[test]
fn a_life_meets_the_intervals_that_have_an_era_of_it(rt: HostRuntime) {
    let found = [
        met(5, 3, 3),
        met(5, 5, 5),
        met(5, 1, 3),
        met(5, 5, 9),
        met(5, 1, 9),
        met(0, 100, 100),
        met(5, 2, 2),
        met(5, 6, 6),
        met(0, 2, 2),
    ];
    let want = [true, true, true, true, true, true, false, false, false];
    assert_eq!(rt; found.as_slice(), want.as_slice());
}
