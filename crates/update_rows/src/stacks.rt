//! What becomes of frames: active calls, slots, matched and new functions, deep stacks.

mod sources;

use crate::stacks::sources::{
    ALL_POINTS, DOWN, DOWN_NEW, NAMES, NEW_STEPS, NEW_TREE, NO_FILLS, ONCE, ONE_MORE, OTHER_NAMES,
    STEPS, TREE, TWO_CALLS, TWO_CALLS_NEW,
};
use crate::tool::Upstare;
use row_calls::{Programs, RowsDiffer, UpdateRow, differing_updates, judged};
pub use sources::{CHAIN, NEW_CHAIN};

/// Each update, and what the run comes to.
#[rattlefmt::skip]
const ROWS: &[UpdateRow<'static>] = &[
    UpdateRow {
        name: "an active chain of calls",
        programs: Programs { old: CHAIN, new: NEW_CHAIN, map: ALL_POINTS },
        words: "--at 13",
        plan: "",
        wanted: r"
c 1
c 2
C 3
2123
err: end exit 0 steps 25 target - update done
status 0
",
        events: "13 steps, request, step 0, park 0, update, resume 0, step 0",
    },
    UpdateRow {
        name: "new slots that nothing fills are 0",
        programs: Programs { old: CHAIN, new: NEW_CHAIN, map: NO_FILLS },
        words: "--at 13",
        plan: "",
        wanted: r"
c 1
c 2
C 3
3
err: end exit 0 steps 25 target - update done
status 0
",
        events: "13 steps, request, step 0, park 0, update, resume 0, step 0",
    },
    UpdateRow {
        name: "an argument is not evaluated again",
        programs: Programs { old: ONCE, new: ONE_MORE, map: "point f loop 1 -> loop 1;" },
        words: "--at 6",
        plan: "",
        wanted: r"
11
err: end exit 0 steps 14 target - update done
status 0
",
        events: "6 steps, request, park 0, update, resume 0",
    },
    UpdateRow {
        name: "a slot by the number of its name",
        programs: Programs {
            old: NAMES,
            new: OTHER_NAMES,
            map: "point main loop 2 -> loop 2 { sum = total * 2; k = i.2; };",
        },
        words: "--at 15",
        plan: "",
        wanted: r"
new 225
err: end exit 0 steps 34 target - update done
status 0
",
        events: "15 steps, request, step 0, park 0, update, resume 0",
    },
    UpdateRow {
        name: "a slot without a fill takes the old one of its name",
        programs: Programs {
            old: NAMES,
            new: OTHER_NAMES,
            map: "point main loop 1 -> loop 1 { sum = total; };",
        },
        words: "--at 5",
        plan: "",
        wanted: r"
new 304
err: end exit 0 steps 37 target - update done
status 0
",
        events: "5 steps, request, step 0, park 0, update, resume 0",
    },
    UpdateRow {
        name: "a temporary is kept",
        programs: Programs {
            old: TWO_CALLS,
            new: TWO_CALLS_NEW,
            map: "point main call 2 -> call 2;",
        },
        words: "--at 6",
        plan: "",
        wanted: r"
new 1 2
err: end exit 0 steps 11 target - update done
status 0
",
        events: "6 steps, request, park 0, update, resume 0",
    },
    UpdateRow {
        name: "a temporary is filled",
        programs: Programs {
            old: TWO_CALLS,
            new: TWO_CALLS_NEW,
            map: "point main call 2 -> call 2 { .1 = .1 + 10; };",
        },
        words: "--at 6",
        plan: "",
        wanted: r"
new 11 2
err: end exit 0 steps 11 target - update done
status 0
",
        events: "6 steps, request, park 0, update, resume 0",
    },
    UpdateRow {
        name: "each frame of a recursion by its own slots",
        programs: Programs {
            old: TREE,
            new: NEW_TREE,
            map: r"
function sum -> total;
point sum entry -> entry { w = k; };
point sum call 1 -> call 1 { w = k * 100; };
point main call 1 -> call 1;
",
        },
        words: "--at 9",
        plan: "",
        wanted: r"
new 606
err: end exit 0 steps 19 target - update done
status 0
",
        events: "9 steps, request, step 0, step 0, park 0, update, resume 0",
    },
    UpdateRow {
        name: "an unchanged function under another name keeps its frame",
        programs: Programs {
            old: STEPS,
            new: NEW_STEPS,
            map: "function step -> advance; point main call 1 -> call 1;",
        },
        words: "--at 8",
        plan: "",
        wanted: r"
new 6 12
err: end exit 0 steps 43 target - update done
status 0
",
        events: "8 steps, request, step 0, step 0, step 0, park 0, update, resume 0",
    },
    UpdateRow {
        name: "a loop goes on at an entry",
        programs: Programs {
            old: STEPS,
            new: NEW_STEPS,
            map: r"
function step -> advance;
point main call 1 -> call 1;
point step loop 1 -> entry { by = by + 1; i = 0; };
",
        },
        words: "--at 8",
        plan: "",
        wanted: r"
new 6 12
err: end exit 0 steps 37 target - update done
status 0
",
        events: "8 steps, request, step 0, step 0, step 0, park 0, update, resume 0",
    },
    UpdateRow {
        name: "an entry goes on at a loop",
        programs: Programs {
            old: STEPS,
            new: NEW_STEPS,
            map: r"
function step -> advance;
point main call 1 -> call 1;
point step entry -> loop 1;
",
        },
        words: "--at 3",
        plan: "",
        wanted: r"
new 6 12
err: end exit 0 steps 43 target - update done
status 0
",
        events: "3 steps, request, park 0, update, resume 0",
    },
    UpdateRow {
        name: "as many frames as there may be",
        programs: Programs {
            old: DOWN,
            new: DOWN_NEW,
            map: "point down entry -> entry; point down call 1 -> call 1;",
        },
        words: "--at 29996",
        plan: "",
        wanted: r"
19996
err: end exit 0 steps 39999 target - update done
status 0
",
        events: "29996 steps, request, park 0, update, resume 0, step 0",
    },
];

#[test]
fn frames_are_mapped(rt: HostRuntime) -> Result<(), RowsDiffer> {
    judged(differing_updates(rt.alloc(), &Upstare, ROWS))
}
