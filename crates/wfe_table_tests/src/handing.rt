// Lists that are left and taken over, on one thread.
use crate::script::play_all;
use std::test::Fail;

const SCRIPTS: [&str; 7] = [
    // A list that was left is taken over once. The scan takes a step for each guard, and one for the row.
    "record 5 he/ibr/wfe/hp 2 4 8 1 2 100 100 100\n\
        1 adopt 0 | end 1 not-left\n\
        0 put 7 70 = done 1 still\n\
        0 put 7 71 = done 2 still\n\
        1 adopt 0 = not-left\n\
        0 list | retire 0 1 1\n\
        0 leave\n\
        1 adopt 0 | end 2 adopted 1\n\
        1 scan | back 0 | end 9/3/11/9 scanned 0 1\n\
        1 adopt 0 | end 1 adopted-before",
    // The steps under Hazard Eras, as they are counted by hand.
    "record 5 he 2 3 8 1 2 100 100 100\n\
        1 adopt 0 | end 1 not-left\n\
        0 put 7 70 | give 0 1 | end 13 done 1 still\n\
        0 put 7 71 | give 1 1 | retire 0 1 1 | end 20 done 2 still\n\
        0 leave\n\
        1 adopt 0 | end 2 adopted 1\n\
        1 scan | back 0 | end 7 scanned 0 1\n\
        1 adopt 0 | end 1 adopted-before",
    // A list of no rows is taken over too.
    "record 5 he/ibr/wfe/hp 2 4 8 1 2 100 100 100\n\
        0 leave\n\
        1 adopt 0 | end 2 adopted 0\n\
        1 adopt 0 = adopted-before",
    // A list that is taken over comes after the own one.
    "record 5 he/ibr/wfe/hp 2 4 8 1 2 100 100 100\n\
        0 put 7 70 = done 1 still\n\
        0 put 7 71 = done 2 still\n\
        1 put 7 72 = done 3 still\n\
        0 put 7 73 = done 4 still\n\
        0 list | retire 0 1 1 | retire 2 1 1\n\
        1 list | retire 1 1 1\n\
        0 leave\n\
        1 adopt 0 = adopted 2\n\
        1 list | retire 1 1 1 | retire 0 1 1 | retire 2 1 1\n\
        1 scan = scanned 0 3",
    // A row that is held stays on the list that was taken over.
    "record 5 he/ibr/wfe/hp 2 4 8 1 2 100 100 100\n\
        0 put 7 70 = done 1 still\n\
        1 hold 7 = holding 0\n\
        0 put 7 71 = done 2 still\n\
        0 leave\n\
        1 adopt 0 = adopted 1\n\
        1 scan = scanned 1 0\n\
        1 release = released\n\
        1 scan = scanned 0 1",
    // A seat that leaves lets go of all that it holds.
    "record 5 he/ibr/wfe/hp 2 4 8 1 2 100 100 100\n\
        1 put 7 70 = done 1 still\n\
        0 hold 7 = holding 0\n\
        0 copy 2 3 = copied 0\n\
        1 put 7 71 = done 2 still\n\
        1 scan = scanned 1 0\n\
        0 leave\n\
        1 scan = scanned 0 1",
    // A seat that took a list over may leave with it.
    "record 5 he/ibr/wfe/hp 3 4 8 1 2 100 100 100\n\
        0 put 7 70 = done 1 still\n\
        0 put 7 71 = done 2 still\n\
        0 leave\n\
        1 adopt 0 = adopted 1\n\
        1 put 7 72 = done 3 still\n\
        2 adopt 1 = not-left\n\
        1 leave\n\
        2 adopt 0 = adopted-before\n\
        2 adopt 1 = adopted 2\n\
        2 list | retire 0 1 1 | retire 1 1 1\n\
        2 scan = scanned 0 2",
];

#[test]
fn lists_are_left_and_taken_over(rt: HostRuntime) -> Result<(), Fail> {
    play_all(rt.alloc(), &SCRIPTS)
}
