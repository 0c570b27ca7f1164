// What a seat shows of its scans: what the last one read and did, and the rows that wait on its list.
use crate::script::play_all;
use std::test::Fail;

const SCRIPTS: [&str; 4] = [
    "record 1 he 2 3 8 1 2 1 100 100\n\
        0 put 7 10 = done 1 still\n\
        1 hold 7 = holding 0\n\
        0 report | scanned 0 0\n\
        0 list\n\
        0 put 7 10 = done 2 moved 2\n\
        0 report | read i0.0 none | read i0.1 none | read i0.2 none | read i1.0 none | read i1.1 none | read i1.2 1 1 | scanned 1 0\n\
        0 list | retire 0 1 1\n\
        1 release = released\n\
        0 scan = scanned 0 1\n\
        0 report | read i0.0 none | read i0.1 none | read i0.2 none | read i1.0 none | read i1.1 none | read i1.2 none | scanned 0 1\n\
        0 list",
    "record 1 ibr 2 3 8 1 2 1 100 100\n\
        0 put 7 10 = done 1 still\n\
        1 hold 7 = holding 0\n\
        0 report | scanned 0 0\n\
        0 list\n\
        0 put 7 10 = done 2 moved 2\n\
        0 report | read v0 none | read v1 1 1 | scanned 1 0\n\
        0 list | retire 0 1 1\n\
        1 release = released\n\
        0 scan = scanned 0 1\n\
        0 report | read v0 none | read v1 none | scanned 0 1\n\
        0 list",
    "record 1 wfe 2 3 8 1 2 1 100 100\n\
        0 put 7 10 = done 1 still\n\
        1 hold 7 = holding 0\n\
        0 report | scanned 0 0\n\
        0 list\n\
        0 put 7 10 = done 2 moved 2\n\
        0 report | read h0 none | read h1 none | read i0.0 none | read i0.1 none | read i0.2 none | read i1.0 none | read i1.1 none | read i1.2 1 1 | scanned 1 0\n\
        0 list | retire 0 1 1\n\
        1 release = released\n\
        0 scan = scanned 0 1\n\
        0 report | read h0 none | read h1 none | read i0.0 none | read i0.1 none | read i0.2 none | read i1.0 none | read i1.1 none | read i1.2 none | scanned 0 1\n\
        0 list",
    "record 5 hp 2 3 8 1 2 1 100 100\n\
        0 put 7 10 = done 1 still\n\
        1 hold 7 = holding 0\n\
        0 report | scanned 0 0\n\
        0 list\n\
        0 put 7 10 = done 2 still\n\
        0 report | saw i0.0 none | saw i0.1 none | saw i0.2 none | saw i1.0 none | saw i1.1 none | saw i1.2 0 | scanned 1 0\n\
        0 list | retire 0 1 1\n\
        1 release = released\n\
        0 scan = scanned 0 1\n\
        0 report | saw i0.0 none | saw i0.1 none | saw i0.2 none | saw i1.0 none | saw i1.1 none | saw i1.2 none | scanned 0 1\n\
        0 list",
];

#[test]
fn a_seat_shows_its_last_scan_and_its_list(rt: HostRuntime) -> Result<(), Fail> {
    play_all(rt.alloc(), &SCRIPTS)
}
