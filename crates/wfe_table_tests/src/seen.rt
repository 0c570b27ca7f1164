// Which versions of a bucket a seat has seen: those that its own calls told.
use crate::script::play_all;
use std::test::Fail;

const SCRIPTS: [&str; 3] = [
    // Each call of a seat tells it the version that it answers.
    "record 1 wfe 2 3 20 2 2 100 100 8\n\
        0 put 1 10 = done 1 still\n\
        0 seen | 0 1\n\
        1 seen | 0 0\n\
        1 get 1 = got 1 10\n\
        0 seen | 0 1\n\
        1 seen | 0 1\n\
        0 put 3 10 = done 2 still\n\
        0 seen | 0 2\n\
        1 seen | 0 1\n\
        1 put 5 10 = done 3 still\n\
        0 seen | 0 2\n\
        1 seen | 0 3\n\
        0 put 7 10 = done 4 still\n\
        0 seen | 0 4\n\
        1 seen | 0 3\n\
        1 remove 99 = absent 4\n\
        0 seen | 0 4\n\
        1 seen | 0 4\n\
        0 put 9 10 = done 5 still\n\
        0 seen | 0 5\n\
        1 seen | 0 4\n\
        0 put 11 10 = done 6 still\n\
        0 seen | 0 6\n\
        1 seen | 0 4\n\
        1 put 13 10 = bucket-full 6\n\
        0 seen | 0 6\n\
        1 seen | 0 6\n\
        0 remove 1 = done 7 still\n\
        0 seen | 0 7\n\
        1 seen | 0 6\n\
        0 put 1 10 = done 8 still\n\
        0 seen | 0 8\n\
        1 seen | 0 6\n\
        1 hold 1 = holding 7\n\
        0 seen | 0 8\n\
        1 seen | 0 6\n\
        1 enq 9 = queued 1\n\
        0 seen | 0 8\n\
        1 seen | 0 6\n\
        1 put 1 10 = spent 8\n\
        0 seen | 0 8\n\
        1 seen | 0 8\n\
        1 remove 1 = spent 8\n\
        0 seen | 0 8\n\
        1 seen | 0 8",
    // A put that names a version is told the one that refuses it.
    "record 1 wfe 2 3 20 2 2 100 100 7\n\
        0 put_if 1 10 0 = done 1 still\n\
        0 seen | 0 1\n\
        1 seen | 0 0\n\
        0 put_if 3 10 1 = done 2 still\n\
        0 seen | 0 2\n\
        1 seen | 0 0\n\
        1 put_if 1 10 1 = stale 2\n\
        0 seen | 0 2\n\
        1 seen | 0 2\n\
        1 put_if 5 10 2 = done 3 still\n\
        0 seen | 0 2\n\
        1 seen | 0 3\n\
        0 put_if 5 10 2 = stale 3\n\
        0 seen | 0 3\n\
        1 seen | 0 3\n\
        0 put_if 7 10 3 = done 4 still\n\
        0 seen | 0 4\n\
        1 seen | 0 3\n\
        0 put_if 9 10 4 = done 5 still\n\
        0 seen | 0 5\n\
        1 seen | 0 3\n\
        0 put_if 11 10 5 = done 6 still\n\
        0 seen | 0 6\n\
        1 seen | 0 3\n\
        1 put_if 13 10 6 = bucket-full 6\n\
        0 seen | 0 6\n\
        1 seen | 0 6\n\
        0 put_if 1 10 6 = done 7 still\n\
        0 seen | 0 7\n\
        1 seen | 0 6\n\
        1 put_if 1 10 7 = spent 7\n\
        0 seen | 0 7\n\
        1 seen | 0 7",
    // What a look shows is left aside.
    "record 1 wfe 2 3 20 2 2 100 100 8\n\
        0 put 1 10 = done 1 still\n\
        0 seen | 0 1\n\
        1 seen | 0 0\n\
        1 hold 1 = holding 0\n\
        0 seen | 0 1\n\
        1 seen | 0 0\n\
        1 look 2 1 = looked 0 1 10\n\
        0 seen | 0 1\n\
        1 seen | 0 0\n\
        0 put 1 10 = done 2 still\n\
        0 seen | 0 2\n\
        1 seen | 0 0\n\
        1 get 1 = got 2 10\n\
        0 seen | 0 2\n\
        1 seen | 0 2\n\
        1 look 2 1 = looked 0 1 10\n\
        0 seen | 0 2\n\
        1 seen | 0 2",
];

#[test]
fn a_seat_has_seen_the_version_that_its_own_call_told_last(rt: HostRuntime) -> Result<(), Fail> {
    play_all(rt.alloc(), &SCRIPTS)
}
