//! A queue of jobs that workers take while the program is updated.

mod sources;

use crate::queue::sources::{NEW_QUEUE, QUEUE, WEIGHTS};
use crate::tool::Upstare;
use row_calls::{
    Programs, Row, RowsDiffer, Shown, Trial, UpdateRow, called_on, compare, differing_rows,
    differing_updates, judged,
};
use std::alloc::{AllocError, Global};

const PROGRAMS: Programs<'static> = Programs {
    old: QUEUE,
    new: NEW_QUEUE,
    map: WEIGHTS,
};

/// The sum is that of the old program whenever the update comes.
#[rattlefmt::skip]
const ROWS: &[UpdateRow<'static>] = &[
    UpdateRow {
        name: "--at 0",
        programs: PROGRAMS,
        words: "--at 0",
        plan: "",
        wanted: r"
v2 jobs 20 total 2100
err: end exit 0 steps 1563 target - update done
status 0
",
        events: "0 steps, request, park 0, update, resume 0, step 0",
    },
    UpdateRow {
        name: "--at 7",
        programs: PROGRAMS,
        words: "--at 7",
        plan: "",
        wanted: r"
v2 jobs 20 total 2100
err: end exit 0 steps 1562 target - update done
status 0
",
        events: "7 steps, request, step 0, park 0, update, resume 0, step 0",
    },
    UpdateRow {
        name: "--at 150",
        programs: PROGRAMS,
        words: "--at 150",
        plan: "",
        wanted: r"
v2 jobs 20 total 2100
err: end exit 0 steps 1551 target - update done
status 0
",
        events: "150 steps, request, step 0, park 0, update, resume 0, step 0",
    },
    UpdateRow {
        name: "--at 400",
        programs: PROGRAMS,
        words: "--at 400",
        plan: "",
        wanted: r"
v2 jobs 20 total 2100
err: end exit 0 steps 1543 target - update done
status 0
",
        events: "400 steps, request, park 0, park 1, step 2, park 2, step 3, park \
            3, update, resume 0, resume 1",
    },
    UpdateRow {
        name: "--at 1000",
        programs: PROGRAMS,
        words: "--at 1000",
        plan: "",
        wanted: r"
v2 jobs 20 total 2100
err: end exit 0 steps 1543 target - update done
status 0
",
        events: "1000 steps, request, park 0, park 1, park 3, step 2, step 2, step \
            2, step 2, step 2, park 2, update",
    },
    UpdateRow {
        name: "--at 1500",
        programs: PROGRAMS,
        words: "--at 1500",
        plan: "",
        wanted: r"
v2 jobs 20 total 2100
err: end exit 0 steps 1543 target - update done
status 0
",
        events: "1500 steps, request, park 0, step 2, step 1, step 2, park 2, step \
            1, step 1, park 1, update",
    },
    UpdateRow {
        name: "--at 400 --seed 1",
        programs: PROGRAMS,
        words: "--at 400",
        plan: "--seed 1",
        wanted: r"
v2 jobs 20 total 2100
err: end exit 0 steps 1543 target - update done
status 0
",
        events: "400 steps, request, park 0, park 2, step 1, step 1, park 1, step \
            3, step 3, step 3, park 3",
    },
    UpdateRow {
        name: "--at 777 --seed 2026",
        programs: PROGRAMS,
        words: "--at 777",
        plan: "--seed 2026",
        wanted: r"
v2 jobs 20 total 2100
err: end exit 0 steps 1543 target - update done
status 0
",
        events: "777 steps, request, park 0, park 1, step 2, park 2, step 3, step \
            3, park 3, update, resume 0",
    },
    UpdateRow {
        name: "--at 1200 --seed 18446744073709551615",
        programs: PROGRAMS,
        words: "--at 1200",
        plan: "--seed 18446744073709551615",
        wanted: r"
v2 jobs 20 total 2100
err: end exit 0 steps 1543 target - update done
status 0
",
        events: "1200 steps, request, park 0, park 2, step 1, step 1, step 3, step \
            3, park 3, step 1, step 1",
    },
    UpdateRow {
        name: "--at 1530 --seed 3",
        programs: PROGRAMS,
        words: "--at 1530",
        plan: "--seed 3",
        wanted: r"
v2 jobs 20 total 2100
err: end exit 0 steps 1543 target - update done
status 0
",
        events: "1530 steps, request, step 0, park 0, update, resume 0, step 0",
    },
];

#[test]
fn the_queue_does_all_jobs(rt: HostRuntime) -> Result<(), RowsDiffer> {
    judged(differing_updates(rt.alloc(), &Upstare, ROWS))
}

/// The words of a call over the old program alone, and what it comes to: the sum is the same
/// whatever thread takes which job.
const ALONE: &str = r"
=== it is well typed
check a.c
---
ok functions 5 structs 1 globals 4 mutexes 2
status 0
=== in turns
run a.c
---
jobs 20 total 2100
err: end exit 0 steps 1543 target - update none
status 0
=== drawn by seed 1
run a.c --seed 1
---
jobs 20 total 2100
err: end exit 0 steps 1543 target - update none
status 0
=== drawn by seed 2026
run a.c --seed 2026
---
jobs 20 total 2100
err: end exit 0 steps 1543 target - update none
status 0
";

/// The call over the old program with the words that are the text of a row.
struct Queued;

impl Trial for Queued {
    fn put(&self, differing: &mut String, alloc: Global, row: &Row<'_>) -> Result<(), AllocError> {
        let wanted = format!(in alloc; "{}\n", row.answer)?;
        let got = called_on(alloc, &Upstare, row.text, QUEUE, Shown::All)?;
        compare(differing, row.name, &wanted, &got)
    }
}

#[test]
fn the_queue_does_all_jobs_without_an_update(rt: HostRuntime) -> Result<(), RowsDiffer> {
    judged(differing_rows(rt.alloc(), &Queued, ALONE))
}
