//! When an update comes: at once, late, in place of a deadlock, or not at all.

mod sources;

use crate::moments::sources::{C2_AND_K, C2_EXITS, FREED, STUCK, TRAPS};
use crate::tool::Upstare;
use row_calls::{Programs, RowsDiffer, UpdateRow, differing_updates, judged};
pub use sources::{C1, C2, LOOPS};

/// The moment of each update, and what the run comes to.
#[rattlefmt::skip]
const ROWS: &[UpdateRow<'static>] = &[
    UpdateRow {
        name: "after the fifth Step",
        programs: LOOPS,
        words: "--at 5",
        plan: "",
        wanted: r"
old 1
old 2
new 3
new 4
err: end exit 0 steps 19 target - update done
status 0
",
        events: "5 steps, request, step 0, step 0, step 0, park 0, update, resume 0, \
            step 0",
    },
    UpdateRow {
        name: "where the thread stands",
        programs: LOOPS,
        words: "--at 8",
        plan: "",
        wanted: r"
old 1
old 2
new 3
new 4
err: end exit 0 steps 19 target - update done
status 0
",
        events: "8 steps, request, park 0, update, resume 0, step 0",
    },
    UpdateRow {
        name: "at the entry, which has no map",
        programs: LOOPS,
        words: "--at 0",
        plan: "",
        wanted: r"
old 1
old 2
old 3
old 4
err: end exit 0 steps 19 target - update refused: thread 0 frame 0 main entry unmapped
status 0
",
        events: "0 steps, request, park 0, refuse 1 0 0, resume 0, step 0",
    },
    UpdateRow {
        name: "beyond the end",
        programs: LOOPS,
        words: "--at 1000",
        plan: "",
        wanted: r"
old 1
old 2
old 3
old 4
err: end exit 0 steps 19 target - update not asked
status 0
",
        events: "",
    },
    UpdateRow {
        name: "at the end",
        programs: LOOPS,
        words: "--at 19",
        plan: "",
        wanted: r"
old 1
old 2
old 3
old 4
err: end exit 0 steps 19 target - update not asked
status 0
",
        events: "",
    },
    UpdateRow {
        name: "before the last Step, after which nothing stands",
        programs: LOOPS,
        words: "--at 18",
        plan: "",
        wanted: r"
old 1
old 2
old 3
old 4
err: end exit 0 steps 19 target - update asked
status 0
",
        events: "18 steps, request, step 0",
    },
    UpdateRow {
        name: "the limit comes before the Request",
        programs: LOOPS,
        words: "--at 5 --steps 5",
        plan: "",
        wanted: r"
old 1
err: end limit steps 5 target - update not asked
status 8
",
        events: "",
    },
    UpdateRow {
        name: "the limit comes while asked",
        programs: LOOPS,
        words: "--at 5 --steps 7",
        plan: "",
        wanted: r"
old 1
err: end limit steps 7 target - update asked
status 8
",
        events: "5 steps, request, step 0, step 0",
    },
    UpdateRow {
        name: "the limit comes as the thread stands",
        programs: LOOPS,
        words: "--at 5 --steps 8",
        plan: "",
        wanted: r"
old 1
old 2
err: end limit steps 8 target - update asked
status 8
",
        events: "5 steps, request, step 0, step 0, step 0",
    },
    UpdateRow {
        name: "one Step is left after the update",
        programs: LOOPS,
        words: "--at 5 --steps 9",
        plan: "",
        wanted: r"
old 1
old 2
err: end limit steps 9 target - update done
status 8
",
        events: "5 steps, request, step 0, step 0, step 0, park 0, update, resume 0, \
            step 0",
    },
    UpdateRow {
        name: "the last moment that can be asked for",
        programs: LOOPS,
        words: "--at 10000000 --steps 10000000",
        plan: "",
        wanted: r"
old 1
old 2
old 3
old 4
err: end exit 0 steps 19 target - update not asked
status 0
",
        events: "",
    },
    UpdateRow {
        name: "a deadlock is an end where nothing is asked",
        programs: Programs { old: STUCK, new: FREED, map: "point main block 2 -> block 2;" },
        words: "--at 5",
        plan: "",
        wanted: r"
err: end deadlock steps 4 target - update not asked
status 7
",
        events: "",
    },
    UpdateRow {
        name: "an update comes in place of a deadlock",
        programs: Programs { old: STUCK, new: FREED, map: "point main block 2 -> block 2;" },
        words: "--at 4",
        plan: "",
        wanted: r"
w
freed
err: end exit 0 steps 13 target - update done
status 0
",
        events: "4 steps, request, park 0, park 1, update, resume 0, resume 1, step 0",
    },
    UpdateRow {
        name: "after a refused update the deadlock is an end",
        programs: Programs { old: STUCK, new: FREED, map: "point main entry -> entry;" },
        words: "--at 4",
        plan: "",
        wanted: r"
err: end deadlock steps 4 target - update refused: thread 0 frame 0 main block 2 unmapped
status 7
",
        events: "4 steps, request, park 0, park 1, refuse 1 0 0, resume 0, resume 1",
    },
    UpdateRow {
        name: "after an update that changes nothing the deadlock is an end",
        programs: Programs { old: STUCK, new: FREED, map: "point main block 2 -> block 3;" },
        words: "--at 4",
        plan: "",
        wanted: r"
err: end deadlock steps 4 target - update done
status 7
",
        events: "4 steps, request, park 0, park 1, update, resume 0, resume 1",
    },
    UpdateRow {
        name: "a check is 0",
        programs: Programs {
            old: C1,
            new: C2,
            map: r"
point main loop 1 -> loop 1;
check n >= 3;
",
        },
        words: "--at 5",
        plan: "",
        wanted: r"
old 1
old 2
old 3
old 4
err: end exit 0 steps 19 target - update refused: check 1 is 0
status 0
",
        events: "5 steps, request, step 0, step 0, step 0, park 0, refuse 4 1 0, resume 0, \
            step 0",
    },
    UpdateRow {
        name: "a new global has no value",
        programs: Programs {
            old: C1,
            new: C2_AND_K,
            map: r"
point main loop 1 -> loop 1;
init k = 100 / (n - 2);
",
        },
        words: "--at 5",
        plan: "",
        wanted: r"
old 1
old 2
old 3
old 4
err: end exit 0 steps 19 target - update refused: global k divide
status 0
",
        events: "5 steps, request, step 0, step 0, step 0, park 0, refuse 5 1 1, resume 0, \
            step 0",
    },
    UpdateRow {
        name: "a new global has a value",
        programs: Programs {
            old: C1,
            new: C2_AND_K,
            map: r"
point main loop 1 -> loop 1;
init k = 100 / (n - 3);
",
        },
        words: "--at 5",
        plan: "",
        wanted: r"
old 1
old 2
new 3
new 4
err: end exit 0 steps 19 target - update done
status 0
",
        events: "5 steps, request, step 0, step 0, step 0, park 0, update, resume 0, \
            step 0",
    },
    UpdateRow {
        name: "the status is that of the new program",
        programs: Programs {
            old: C1,
            new: C2_EXITS,
            map: r"
point main loop 1 -> loop 1;
check n == 2;
",
        },
        words: "--at 5",
        plan: "",
        wanted: r"
old 1
old 2
new 3
new 4
err: end exit 144 steps 19 target - update done
status 0
",
        events: "5 steps, request, step 0, step 0, step 0, park 0, update, resume 0, \
            step 0",
    },
    UpdateRow {
        name: "after a refused update the old program traps",
        programs: Programs {
            old: TRAPS,
            new: C2,
            map: r"
point main loop 1 -> loop 1;
check n - 2;
",
        },
        words: "--at 5",
        plan: "",
        wanted: r"
old 3
old 6
err: end trap divide thread 0 steps 12 target - update refused: check 1 is 0
status 6
",
        events: "5 steps, request, step 0, step 0, step 0, park 0, refuse 4 1 0, resume 0, \
            step 0",
    },
];

#[test]
fn an_update_comes_when_all_stand(rt: HostRuntime) -> Result<(), RowsDiffer> {
    judged(differing_updates(rt.alloc(), &Upstare, ROWS))
}
