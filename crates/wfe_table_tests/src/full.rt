// Tables without a free row, and a bucket without room for a key.
use crate::script::play_all;
use std::test::Fail;

const SCRIPTS: [&str; 11] = [
    // Each change is refused, and each scheme takes its own steps for it.
    "record 1 he/ibr/wfe 2 3 2 1 2 1 100 100\n\
        0 put 7 70 | give 0 1 | end 13 done 1 still\n\
        1 hold 7 | end 4 holding 0\n\
        0 put 7 71 | give 1 1 | retire 0 1 1 | end 28/24/32 done 2 moved 2\n\
        0 put 7 72 | end 30/26/34 full\n\
        1 release | end 1 released",
    "record 1 he/ibr/wfe 2 3 2 1 2 1 100 100\n\
        0 put 7 70 | give 0 1 | end 13 done 1 still\n\
        1 hold 7 | end 4 holding 0\n\
        0 put 7 71 | give 1 1 | retire 0 1 1 | end 28/24/32 done 2 moved 2\n\
        0 put_if 7 72 2 | end 30/26/34 full\n\
        1 release | end 1 released",
    "record 1 he/ibr/wfe 2 3 2 1 2 1 100 100\n\
        0 put 7 70 | give 0 1 | end 13 done 1 still\n\
        1 hold 7 | end 4 holding 0\n\
        0 put 7 71 | give 1 1 | retire 0 1 1 | end 28/24/32 done 2 moved 2\n\
        0 remove 7 | end 30/26/34 full\n\
        1 release | end 1 released",
    "record 1 he/ibr/wfe 2 3 2 1 2 1 100 100\n\
        0 put 7 70 | give 0 1 | end 13 done 1 still\n\
        1 hold 7 | end 4 holding 0\n\
        0 put 7 71 | give 1 1 | retire 0 1 1 | end 28/24/32 done 2 moved 2\n\
        0 enq 5 | end 26/22/30 full\n\
        1 release | end 1 released",
    "record 5 hp 2 3 2 1 2 1 100 100\n\
        0 put 7 70 | give 0 1 | end 10 done 1 still\n\
        1 hold 7 | end 3 holding 0\n\
        0 put 7 71 | give 1 1 | retire 0 1 1 | end 25 done 2 still\n\
        0 put 7 72 | end 26 full\n\
        1 release | end 1 released",
    "record 5 hp 2 3 2 1 2 1 100 100\n\
        0 put 7 70 | give 0 1 | end 10 done 1 still\n\
        1 hold 7 | end 3 holding 0\n\
        0 put 7 71 | give 1 1 | retire 0 1 1 | end 25 done 2 still\n\
        0 put_if 7 72 2 | end 26 full\n\
        1 release | end 1 released",
    "record 5 hp 2 3 2 1 2 1 100 100\n\
        0 put 7 70 | give 0 1 | end 10 done 1 still\n\
        1 hold 7 | end 3 holding 0\n\
        0 put 7 71 | give 1 1 | retire 0 1 1 | end 25 done 2 still\n\
        0 remove 7 | end 26 full\n\
        1 release | end 1 released",
    "record 5 hp 2 3 2 1 2 1 100 100\n\
        0 put 7 70 | give 0 1 | end 10 done 1 still\n\
        1 hold 7 | end 3 holding 0\n\
        0 put 7 71 | give 1 1 | retire 0 1 1 | end 25 done 2 still\n\
        0 enq 5 | end 22 full\n\
        1 release | end 1 released",
    // A version that is not named comes before a full table.
    "record 1 he/ibr/wfe 2 3 2 1 2 1 100 100\n\
        0 put_if 7 70 0 | give 0 1 | end 13 done 1 still\n\
        1 hold 7 | end 4 holding 0\n\
        0 put_if 7 71 1 | give 1 1 | retire 0 1 1 | end 28/24/32 done 2 moved 2\n\
        0 put_if 7 72 1 | end 9 stale 2\n\
        0 put_if 7 72 2 | end 30/26/34 full\n\
        1 release | end 1 released",
    // Once the row is released, it goes back before it is given again, and the other one after it was retired.
    "record 1 he 2 3 2 1 2 1 100 100\n\
        0 put 7 70 | give 0 1 | end 13 done 1 still\n\
        1 hold 7 | end 4 holding 0\n\
        0 put 7 71 | give 1 1 | retire 0 1 1 | end 28 done 2 moved 2\n\
        0 put 7 72 | end 30 full\n\
        1 release | end 1 released\n\
        0 put 7 72 | back 0 | give 0 4 | retire 1 1 4 | back 1 | end 50 done 3 moved 5",
    // Rows of six pairs take no other key by a put that names a version. (No trace has both.)
    "record 1 he 1 3 20 1 2 1 100 100\n\
        0 put_if 1 10 0 | give 0 1 | end 13 done 1 still\n\
        0 put_if 2 20 1 | give 1 1 | retire 0 1 1 | back 0 | end 28 done 2 moved 2\n\
        0 put_if 3 30 2 | give 2 2 | retire 1 1 2 | back 1 | end 32 done 3 moved 3\n\
        0 put_if 4 40 3 | give 3 3 | retire 2 2 3 | back 2 | end 36 done 4 moved 4\n\
        0 put_if 5 50 4 | give 4 4 | retire 3 3 4 | back 3 | end 40 done 5 moved 5\n\
        0 put_if 6 60 5 | give 5 5 | retire 4 4 5 | back 4 | end 44 done 6 moved 6\n\
        0 put_if 99 1 0 | end 19 stale 6\n\
        0 put_if 99 1 6 | end 19 bucket-full 6\n\
        0 put 99 1 | end 19 bucket-full 6",
];

#[test]
fn changes_are_refused_where_there_is_no_room(rt: HostRuntime) -> Result<(), Fail> {
    play_all(rt.alloc(), &SCRIPTS)
}
