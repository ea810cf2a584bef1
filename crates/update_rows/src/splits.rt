//! Frames that become several: what stands where, and when a stack is too deep.

mod sources;

use crate::splits::sources::{
    COUNT, COUNT_APART, DEEP, DEEP_MAP, DEEPER, DEEPEST, MID, MIDDLE, MIDMOST, NEST, NESTED,
    TRAPPED_FOURTH, TRAPPED_THIRD, WAIT, WAIT_APART,
};
use crate::tool::Upstare;
use row_calls::{Programs, RowsDiffer, UpdateRow, differing_updates, judged};

/// Each update, and what the run comes to.
#[rattlefmt::skip]
const ROWS: &[UpdateRow<'static>] = &[
    UpdateRow {
        name: "a loop that became a function of its own",
        programs: Programs {
            old: COUNT,
            new: COUNT_APART,
            map: "point main loop 1 -> call 1 + go loop 1 { k = 4; };",
        },
        words: "--at 5",
        plan: "",
        wanted: r"
old 1
old 2
new 3
new 4
err: end exit 4 steps 20 target - update done
status 0
",
        events: "5 steps, request, step 0, step 0, step 0, park 0, update, resume 0",
    },
    UpdateRow {
        name: "an added frame whose slot nothing fills has 0 there",
        programs: Programs {
            old: COUNT,
            new: COUNT_APART,
            map: "point main loop 1 -> call 1 + go loop 1;",
        },
        words: "--at 5",
        plan: "",
        wanted: r"
old 1
old 2
err: end exit 2 steps 12 target - update done
status 0
",
        events: "5 steps, request, step 0, step 0, step 0, park 0, update, resume 0",
    },
    UpdateRow {
        name: "one frame becomes four, each slot by its own part",
        programs: Programs {
            old: NEST,
            new: NESTED,
            map: r"
point f loop 1 -> call 1 { y = x + 1; } + a call 1 { x = x * 10; } + b call 1 { x = x * 100; }
+ c loop 1 { x = y + 1000; };
",
        },
        words: "--at 6",
        plan: "",
        wanted: r"
c 1050 2
b 300
a 30
f 3 4
err: end exit 0 steps 24 target - update done
status 0
",
        events: "",
    },
    UpdateRow {
        name: "the first trap of a slot in the third part",
        programs: Programs { old: NEST, new: NESTED, map: TRAPPED_THIRD },
        words: "--at 6 --steps 30",
        plan: "",
        wanted: r"
err: end limit steps 30 target - update refused: slot thread 0 frame 1 x divide
status 8
",
        events: "",
    },
    UpdateRow {
        name: "a trap of the last slot of four parts",
        programs: Programs { old: NEST, new: NESTED, map: TRAPPED_FOURTH },
        words: "--at 6 --steps 30",
        plan: "",
        wanted: r"
err: end limit steps 30 target - update refused: slot thread 0 frame 1 k divide
status 8
",
        events: "",
    },
    UpdateRow {
        name: "a thread that waits for another",
        programs: Programs {
            old: WAIT,
            new: WAIT_APART,
            map: r"
point main block 1 -> call 1 + finish block 1 { of = t; };
point work loop 1 -> loop 1;
",
        },
        words: "--at 4",
        plan: "",
        wanted: r"
new 5
err: end exit 0 steps 24 target - update done
status 0
",
        events: "",
    },
    UpdateRow {
        name: "more frames than a thread may have",
        programs: Programs { old: DEEP, new: MID, map: DEEP_MAP },
        words: "--at 29996",
        plan: "",
        wanted: r"
9998
err: end exit 0 steps 39999 target - update refused: thread 0 too deep
status 0
",
        events: "29996 steps, request, park 0, refuse 9 0, resume 0, step 0",
    },
    UpdateRow {
        name: "nearly twice as many frames",
        programs: Programs { old: DEEPER, new: MIDDLE, map: DEEP_MAP },
        words: "--at 14996",
        plan: "",
        wanted: r"
4998
err: end exit 0 steps 24997 target - update done
status 0
",
        events: "14996 steps, request, park 0, update, resume 0, step 0",
    },
    UpdateRow {
        name: "as many frames as there may be",
        programs: Programs { old: DEEPEST, new: MIDMOST, map: DEEP_MAP },
        words: "--at 14999",
        plan: "",
        wanted: r"
4999
err: end exit 0 steps 25002 target - update done
status 0
",
        events: "14999 steps, request, park 0, update, resume 0, step 0",
    },
    UpdateRow {
        name: "an unmapped frame before a stack that is too deep",
        programs: Programs {
            old: DEEP,
            new: MID,
            map: "point down call 1 -> call 1 + mid call 1;",
        },
        words: "--at 29996",
        plan: "",
        wanted: r"
9998
err: end exit 0 steps 39999 target - update refused: thread 0 frame 9999 down entry unmapped
status 0
",
        events: "29996 steps, request, park 0, refuse 1 0 9999, resume 0, step 0",
    },
    UpdateRow {
        name: "a stack that is too deep before a check",
        programs: Programs {
            old: DEEP,
            new: MID,
            map: r"
check 0;
point down entry -> entry;
point down call 1 -> call 1 + mid call 1;
",
        },
        words: "--at 29996",
        plan: "",
        wanted: r"
9998
err: end exit 0 steps 39999 target - update refused: thread 0 too deep
status 0
",
        events: "29996 steps, request, park 0, refuse 9 0, resume 0, step 0",
    },
];

#[test]
fn frames_are_split(rt: HostRuntime) -> Result<(), RowsDiffer> {
    judged(differing_updates(rt.alloc(), &Upstare, ROWS))
}
