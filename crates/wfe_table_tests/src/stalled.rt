// Which rows a seat keeps that stands still, or goes on, while another one changes the map.
use crate::script::play_all;
use std::test::Fail;

const SCRIPTS: [&str; 4] = [
    // Seat 1 holds the row of version 1, of slot 0, and seat 0 makes twenty changes. Each moves the clock, and two rows wait.
    "record 1 he 2 3 8 1 2 1 100 100\n\
        0 put 7 0 | give 0 1 | end 13 done 1 still\n\
        1 hold 7 | end 4 holding 0\n\
        0 put 7 1 | give 1 1 | retire 0 1 1 | end 28 done 2 moved 2\n\
        0 put 7 2 | give 2 2 | retire 1 1 2 | end 28 done 3 moved 3\n\
        0 put 7 3 | give 3 3 | retire 2 2 3 | back 2 | end 29 done 4 moved 4\n\
        0 put 7 4 | give 4 4 | retire 3 3 4 | back 3 | end 29 done 5 moved 5\n\
        0 put 7 5 | give 5 5 | retire 4 4 5 | back 4 | end 29 done 6 moved 6\n\
        0 put 7 6 | give 6 6 | retire 5 5 6 | back 5 | end 29 done 7 moved 7\n\
        0 put 7 7 | give 7 7 | retire 6 6 7 | back 6 | end 29 done 8 moved 8\n\
        0 put 7 8 | give 2 8 | retire 7 7 8 | back 7 | end 30 done 9 moved 9\n\
        0 put 7 9 | give 3 9 | retire 2 8 9 | back 2 | end 29 done 10 moved 10\n\
        0 put 7 10 | give 4 10 | retire 3 9 10 | back 3 | end 29 done 11 moved 11\n\
        0 put 7 11 | give 5 11 | retire 4 10 11 | back 4 | end 29 done 12 moved 12\n\
        0 put 7 12 | give 6 12 | retire 5 11 12 | back 5 | end 29 done 13 moved 13\n\
        0 put 7 13 | give 7 13 | retire 6 12 13 | back 6 | end 29 done 14 moved 14\n\
        0 put 7 14 | give 2 14 | retire 7 13 14 | back 7 | end 30 done 15 moved 15\n\
        0 put 7 15 | give 3 15 | retire 2 14 15 | back 2 | end 29 done 16 moved 16\n\
        0 put 7 16 | give 4 16 | retire 3 15 16 | back 3 | end 29 done 17 moved 17\n\
        0 put 7 17 | give 5 17 | retire 4 16 17 | back 4 | end 29 done 18 moved 18\n\
        0 put 7 18 | give 6 18 | retire 5 17 18 | back 5 | end 29 done 19 moved 19\n\
        0 put 7 19 | give 7 19 | retire 6 18 19 | back 6 | end 29 done 20 moved 20\n\
        0 put 7 20 | give 2 20 | retire 7 19 20 | back 7 | end 30 done 21 moved 21\n\
        0 list | retire 0 1 1 | retire 1 1 2\n\
        1 release | end 1 released\n\
        0 scan | back 0 | back 1 | end 8 scanned 0 2",
    // An interval that stands still keeps two rows of six.
    "record 1 ibr 2 3 8 1 2 1 100 100\n\
        0 put 7 0 | give 0 1 | end 13 done 1 still\n\
        1 hold 7 | end 4 holding 0\n\
        0 put 7 1 | give 1 1 | retire 0 1 1 | end 24 done 2 moved 2\n\
        0 put 7 2 | give 2 2 | retire 1 1 2 | end 24 done 3 moved 3\n\
        0 put 7 3 | give 3 3 | retire 2 2 3 | back 2 | end 25 done 4 moved 4\n\
        0 put 7 4 | give 4 4 | retire 3 3 4 | back 3 | end 25 done 5 moved 5\n\
        0 put 7 5 | give 5 5 | retire 4 4 5 | back 4 | end 25 done 6 moved 6\n\
        0 put 7 6 | give 6 6 | retire 5 5 6 | back 5 | end 25 done 7 moved 7\n\
        0 list | retire 0 1 1 | retire 1 1 2",
    // One that rises with its gets keeps all six.
    "record 1 ibr 2 3 8 1 2 1 100 100\n\
        0 put 7 0 | give 0 1 | end 13 done 1 still\n\
        1 hold 7 | end 4 holding 0\n\
        0 put 7 1 | give 1 1 | retire 0 1 1 | end 24 done 2 moved 2\n\
        1 get 7 | end 9 got 2 1\n\
        0 put 7 2 | give 2 2 | retire 1 1 2 | end 24 done 3 moved 3\n\
        1 get 7 | end 9 got 3 2\n\
        0 put 7 3 | give 3 3 | retire 2 2 3 | end 24 done 4 moved 4\n\
        1 get 7 | end 9 got 4 3\n\
        0 put 7 4 | give 4 4 | retire 3 3 4 | end 24 done 5 moved 5\n\
        1 get 7 | end 9 got 5 4\n\
        0 put 7 5 | give 5 5 | retire 4 4 5 | end 24 done 6 moved 6\n\
        1 get 7 | end 9 got 6 5\n\
        0 put 7 6 | give 6 6 | retire 5 5 6 | end 24 done 7 moved 7\n\
        1 get 7 | end 9 got 7 6\n\
        0 list | retire 0 1 1 | retire 1 1 2 | retire 2 2 3 | retire 3 3 4 | retire 4 4 5 | retire 5 5 6",
    // A hazard keeps its row alone, and the others go back at once.
    "record 5 hp 2 3 8 1 2 1 100 100\n\
        0 put 7 0 | give 0 1 | end 10 done 1 still\n\
        1 hold 7 | end 3 holding 0\n\
        0 put 7 1 | give 1 1 | retire 0 1 1 | end 25 done 2 still\n\
        0 put 7 2 | give 2 1 | retire 1 1 1 | back 1 | end 26 done 3 still\n\
        0 put 7 3 | give 3 1 | retire 2 1 1 | back 2 | end 26 done 4 still\n\
        0 put 7 4 | give 4 1 | retire 3 1 1 | back 3 | end 26 done 5 still\n\
        0 put 7 5 | give 5 1 | retire 4 1 1 | back 4 | end 26 done 6 still\n\
        0 put 7 6 | give 6 1 | retire 5 1 1 | back 5 | end 26 done 7 still\n\
        0 put 7 7 | give 7 1 | retire 6 1 1 | back 6 | end 26 done 8 still\n\
        1 release | end 1 released\n\
        0 scan | back 0 | end 7 scanned 0 1",
];

#[test]
fn a_reader_keeps_rows_while_a_writer_goes_on(rt: HostRuntime) -> Result<(), Fail> {
    play_all(rt.alloc(), &SCRIPTS)
}
