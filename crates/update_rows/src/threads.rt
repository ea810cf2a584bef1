//! What becomes of threads, mutexes and thread numbers.

mod sources;

use crate::threads::sources::{
    BOTH_COUNT, COUNTING, COUNTING_TO_6, ENDED, ENDED_NEW, FROM_ENTRY_OR_LOOP, HOLDING, OTHERS,
    WITHOUT,
};
use crate::tool::Upstare;
use row_calls::{Programs, RowsDiffer, UpdateRow, differing_updates, judged};
pub use sources::{BLOCKED, BLOCKED_NEW, LOOP, RENAMED};

/// Each update, and what the run comes to.
#[rattlefmt::skip]
const ROWS: &[UpdateRow<'static>] = &[
    UpdateRow {
        name: "a blocked thread is parked",
        programs: Programs { old: BLOCKED, new: BLOCKED_NEW, map: LOOP },
        words: "--at 6",
        plan: "",
        wanted: r"
w
new 3
err: end exit 0 steps 22 target - update done
status 0
",
        events: "6 steps, request, park 0, park 1, update, resume 0, resume 1, step 0",
    },
    UpdateRow {
        name: "a thread that was just started is parked first",
        programs: Programs { old: BLOCKED, new: BLOCKED_NEW, map: LOOP },
        words: "--at 3",
        plan: "",
        wanted: r"
w
new 3
err: end exit 0 steps 22 target - update done
status 0
",
        events: "3 steps, request, park 1, step 0, step 0, park 0, update, resume 0, \
            resume 1, step 1",
    },
    UpdateRow {
        name: "the owner of a mutex stays under another name",
        programs: Programs { old: BLOCKED, new: RENAMED, map: OTHERS },
        words: "--at 6",
        plan: "",
        wanted: r"
w
new 3
err: end exit 0 steps 23 target - update done
status 0
",
        events: "6 steps, request, park 0, park 1, update, resume 0, resume 1, step 0",
    },
    UpdateRow {
        name: "one thread runs on alone until it stands",
        programs: Programs { old: COUNTING, new: COUNTING_TO_6, map: BOTH_COUNT },
        words: "--at 10",
        plan: "",
        wanted: r"
7
err: end exit 0 steps 34 target - update done
status 0
",
        events: "10 steps, request, park 0, park 2, step 1, step 1, park 1, update, \
            resume 0, resume 1, resume 2, step 2",
    },
    UpdateRow {
        name: "an ended thread stays ended and keeps its mutex",
        programs: Programs {
            old: ENDED,
            new: ENDED_NEW,
            map: "function w -> none; point main loop 1 -> loop 1;",
        },
        words: "--at 9",
        plan: "",
        wanted: r"
other
new 2
err: end deadlock steps 20 target - update done
status 7
",
        events: "9 steps, request, step 0, step 0, park 0, update, resume 0, step 0",
    },
    UpdateRow {
        name: "drawn threads: a blocked one",
        programs: Programs { old: BLOCKED, new: BLOCKED_NEW, map: LOOP },
        words: "--at 6",
        plan: "--seed 1",
        wanted: r"
w
new 3
err: end exit 0 steps 22 target - update done
status 0
",
        events: "6 steps, request, park 0, park 1, update, resume 0, resume 1, step 0",
    },
    UpdateRow {
        name: "drawn threads: one that was just started",
        programs: Programs { old: BLOCKED, new: BLOCKED_NEW, map: LOOP },
        words: "--at 3",
        plan: "--seed 6",
        wanted: r"
w
new 3
err: end exit 0 steps 22 target - update done
status 0
",
        events: "3 steps, request, park 1, step 0, step 0, park 0, update, resume 0, \
            resume 1, step 1",
    },
    UpdateRow {
        name: "drawn threads: seed 1",
        programs: Programs { old: COUNTING, new: COUNTING_TO_6, map: BOTH_COUNT },
        words: "--at 10",
        plan: "--seed 1",
        wanted: r"
6
err: end exit 0 steps 31 target - update done
status 0
",
        events: "10 steps, request, park 0, step 2, park 2, step 1, park 1, update, \
            resume 0, resume 1, resume 2",
    },
    UpdateRow {
        name: "drawn threads: seed 2",
        programs: Programs { old: COUNTING, new: COUNTING_TO_6, map: BOTH_COUNT },
        words: "--at 17",
        plan: "--seed 2",
        wanted: r"
6
err: end exit 0 steps 31 target - update done
status 0
",
        events: "17 steps, request, park 0, step 2, step 1, step 2, park 2, step 1, park 1, \
            update, resume 0",
    },
    UpdateRow {
        name: "drawn threads: the largest seed",
        programs: Programs { old: COUNTING, new: COUNTING_TO_6, map: BOTH_COUNT },
        words: "--at 17",
        plan: "--seed 18446744073709551615",
        wanted: r"
6
err: end exit 0 steps 31 target - update done
status 0
",
        events: "17 steps, request, park 0, park 1, step 2, park 2, update, resume 0, \
            resume 1, resume 2",
    },
    UpdateRow {
        name: "a mutex that is held can't be removed",
        programs: Programs { old: HOLDING, new: WITHOUT, map: FROM_ENTRY_OR_LOOP },
        words: "--at 3",
        plan: "",
        wanted: r"
old 2
err: end exit 0 steps 12 target - update refused: mutex m held
status 0
",
        events: "3 steps, request, step 0, park 0, refuse 2 0, resume 0",
    },
    UpdateRow {
        name: "a mutex that is free can be removed",
        programs: Programs { old: HOLDING, new: WITHOUT, map: FROM_ENTRY_OR_LOOP },
        words: "--at 0",
        plan: "",
        wanted: r"
new 2
err: end exit 0 steps 10 target - update done
status 0
",
        events: "0 steps, request, park 0, update, resume 0",
    },
    UpdateRow {
        name: "a thread at its lock doesn't hold the mutex, but has no map",
        programs: Programs { old: HOLDING, new: WITHOUT, map: FROM_ENTRY_OR_LOOP },
        words: "--at 1",
        plan: "",
        wanted: r"
old 2
err: end exit 0 steps 12 target - update refused: thread 0 frame 0 main block 1 unmapped
status 0
",
        events: "1 steps, request, park 0, refuse 1 0 0, resume 0",
    },
];

#[test]
fn threads_go_on_in_the_new_program(rt: HostRuntime) -> Result<(), RowsDiffer> {
    judged(differing_updates(rt.alloc(), &Upstare, ROWS))
}
