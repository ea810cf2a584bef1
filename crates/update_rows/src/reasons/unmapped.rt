//! Frames that have no map.

use crate::stacks::{CHAIN, NEW_CHAIN};
use crate::threads::{BLOCKED, BLOCKED_NEW, RENAMED};
use row_calls::{Programs, UpdateRow};

/// Each update, and what the run comes to.
#[rattlefmt::skip]
pub const ROWS: &[UpdateRow<'static>] = &[
    UpdateRow {
        name: "the innermost of four frames",
        programs: Programs {
            old: CHAIN,
            new: NEW_CHAIN,
            map: "point b call 1 -> call 1; point a call 1 -> call 1;",
        },
        words: "--at 13 --steps 28",
        plan: "",
        wanted: r"
c 1
c 2
c 3
c 4
c 5
err: end limit steps 28 target - update refused: thread 0 frame 3 c loop 1 unmapped
status 8
",
        events: "13 steps, request, step 0, park 0, refuse 1 0 3, resume 0, step 0",
    },
    UpdateRow {
        name: "a frame between others",
        programs: Programs {
            old: CHAIN,
            new: NEW_CHAIN,
            map: "point c loop 1 -> loop 1; point a call 1 -> call 1;",
        },
        words: "--at 13 --steps 28",
        plan: "",
        wanted: r"
c 1
c 2
c 3
c 4
c 5
err: end limit steps 28 target - update refused: thread 0 frame 2 b call 1 unmapped
status 8
",
        events: "13 steps, request, step 0, park 0, refuse 1 0 2, resume 0, step 0",
    },
    UpdateRow {
        name: "the outermost of two",
        programs: Programs {
            old: CHAIN,
            new: NEW_CHAIN,
            map: "point b call 1 -> call 1; check 0;",
        },
        words: "--at 13 --steps 28",
        plan: "",
        wanted: r"
c 1
c 2
c 3
c 4
c 5
err: end limit steps 28 target - update refused: thread 0 frame 1 a call 1 unmapped
status 8
",
        events: "13 steps, request, step 0, park 0, refuse 1 0 1, resume 0, step 0",
    },
    UpdateRow {
        name: "an entry of an inner frame",
        programs: Programs {
            old: CHAIN,
            new: NEW_CHAIN,
            map: r"
point a call 1 -> call 1;
point b call 1 -> call 1;
point c loop 1 -> loop 1;
",
        },
        words: "--at 4 --steps 28",
        plan: "",
        wanted: r"
c 1
c 2
c 3
c 4
c 5
err: end limit steps 28 target - update refused: thread 0 frame 2 b entry unmapped
status 8
",
        events: "4 steps, request, park 0, refuse 1 0 2, resume 0, step 0",
    },
    UpdateRow {
        name: "a lock of the second thread",
        programs: Programs {
            old: BLOCKED,
            new: RENAMED,
            map: "mutex m -> q; point main loop 1 -> loop 1;",
        },
        words: "--at 6 --steps 28",
        plan: "",
        wanted: r"
w
old 3
err: end exit 0 steps 22 target - update refused: thread 1 frame 0 w block 1 unmapped
status 0
",
        events: "6 steps, request, park 0, park 1, refuse 1 1 0, resume 0, resume 1, \
            step 0",
    },
    UpdateRow {
        name: "the entry of the second thread",
        programs: Programs {
            old: BLOCKED,
            new: RENAMED,
            map: "mutex m -> q; point main loop 1 -> loop 1;",
        },
        words: "--at 3 --steps 28",
        plan: "",
        wanted: r"
w
old 3
err: end exit 0 steps 22 target - update refused: thread 1 frame 0 w entry unmapped
status 0
",
        events: "3 steps, request, park 1, step 0, step 0, park 0, refuse 1 1 0, resume 0, \
            resume 1, step 1",
    },
    UpdateRow {
        name: "both threads",
        programs: Programs { old: BLOCKED, new: RENAMED, map: "mutex m -> q;" },
        words: "--at 6 --steps 28",
        plan: "",
        wanted: r"
w
old 3
err: end exit 0 steps 22 target - update refused: thread 0 frame 0 main loop 1 unmapped
status 0
",
        events: "6 steps, request, park 0, park 1, refuse 1 0 0, resume 0, resume 1, \
            step 0",
    },
    UpdateRow {
        name: "a join, the second block of its function",
        programs: Programs {
            old: BLOCKED,
            new: BLOCKED_NEW,
            map: "point main loop 1 -> loop 1;",
        },
        words: "--at 18 --steps 28",
        plan: "",
        wanted: r"
w
old 3
err: end exit 0 steps 22 target - update refused: thread 0 frame 0 main block 2 unmapped
status 0
",
        events: "18 steps, request, park 0, step 1, refuse 1 0 0, resume 0, step 0",
    },
];
