// Rows that a seat keeps at its indexes from 2 on while another one changes the map.
use crate::script::play_all;
use std::test::Fail;

const SCRIPTS: [&str; 4] = [
    // A version that is kept is shown though it was replaced.
    "record 2 he/ibr/wfe 2 4 8 1 2 1 100 100\n\
        1 copy 2 3 | end 1 nothing\n\
        1 look 2 7 | end 1 nothing\n\
        1 drop 3 | end 1 dropped\n\
        0 put 7 70 | give 0 1 | end 13 done 1 still\n\
        1 hold 7 | end 4 holding 0\n\
        1 copy 2 3 | end 2/1/2 copied 0\n\
        1 release | end 1 released\n\
        0 put 7 71 | give 1 1 | retire 0 1 1 | end 30/24/34 done 2 moved 2\n\
        1 look 3 7 | end 4 looked 0 1 70\n\
        1 look 3 8 | end 3 looked 0 1 none\n\
        1 drop 3 | end 1 dropped\n\
        0 scan | back 0 | end 9/3/11 scanned 0 1",
    "record 5 hp 2 4 8 1 2 1 100 100\n\
        1 copy 2 3 | end 1 nothing\n\
        1 look 2 7 | end 1 nothing\n\
        1 drop 3 | end 1 dropped\n\
        0 put 7 70 | give 0 1 | end 10 done 1 still\n\
        1 hold 7 | end 3 holding 0\n\
        1 copy 2 3 | end 2 copied 0\n\
        1 release | end 1 released\n\
        0 put 7 71 | give 1 1 | retire 0 1 1 | end 27 done 2 still\n\
        1 look 3 7 | end 4 looked 0 1 70\n\
        1 look 3 8 | end 3 looked 0 1 none\n\
        1 drop 3 | end 1 dropped\n\
        0 scan | back 0 | end 9 scanned 0 1",
    // Two versions of a bucket are kept at two indexes. The second copy lets go of what stood at index 3, so the first row goes back.
    "record 2 he 2 4 8 1 2 1 100 100\n\
        0 put 7 70 | give 0 1 | end 13 done 1 still\n\
        1 hold 7 | end 4 holding 0\n\
        1 copy 2 3 | end 2 copied 0\n\
        0 put 7 71 | give 1 1 | retire 0 1 1 | end 30 done 2 moved 2\n\
        1 hold 7 | end 5 holding 1\n\
        1 look 3 7 | end 4 looked 0 1 70\n\
        1 look 2 7 | end 4 looked 1 2 71\n\
        1 copy 2 3 | end 2 copied 1\n\
        1 look 3 7 | end 4 looked 1 2 71\n\
        0 scan | back 0 | end 9 scanned 0 1",
    // An index is kept that was copied from one above two.
    "record 2 he 2 5 8 1 2 1 100 100\n\
        0 put 7 70 | give 0 1 | end 13 done 1 still\n\
        1 hold 7 | end 4 holding 0\n\
        1 copy 2 3 | end 2 copied 0\n\
        1 copy 3 4 | end 2 copied 0\n\
        1 release | end 1 released\n\
        1 drop 3 | end 1 dropped\n\
        0 put 7 71 | give 1 1 | retire 0 1 1 | end 32 done 2 moved 2\n\
        1 look 4 7 | end 4 looked 0 1 70\n\
        1 drop 4 | end 1 dropped\n\
        0 scan | back 0 | end 11 scanned 0 1",
];

#[test]
fn rows_are_kept_at_indexes(rt: HostRuntime) -> Result<(), Fail> {
    play_all(rt.alloc(), &SCRIPTS)
}
