//! Listings of updates: those that can be followed, and at which event another one is refused.

use crate::moments::{C1, C2, LOOPS};
use crate::threads::{BLOCKED, BLOCKED_NEW, LOOP};
use crate::tool::Upstare;
use row_calls::{ListingRow, Programs, RowsDiffer, differing_listings, judged};

/// Listings of the update of the loops.
#[rattlefmt::skip]
const OF_LOOPS: &[ListingRow<'static>] = &[
    ("refused for memory", "--at 5",
     "5 steps, request, 3 steps, park 0, refuse 8",
     "err: schedule s refused at 11\nstatus 10\n"),
    ("refused by another reason", "--at 5",
     "5 steps, request, 3 steps, park 0, refuse 4 1 0",
     "err: schedule s refused at 11\nstatus 10\n"),
    ("refused for depth", "--at 5",
     "5 steps, request, 3 steps, park 0, refuse 9 0",
     "err: schedule s refused at 11\nstatus 10\n"),
    ("updated before the thread is parked", "--at 5",
     "5 steps, request, 3 steps, update",
     "err: schedule s refused at 10\nstatus 10\n"),
    ("updated before the thread stands", "--at 5",
     "5 steps, request, update",
     "err: schedule s refused at 7\nstatus 10\n"),
    ("updated without a Request", "--at 5",
     "5 steps, update",
     "err: schedule s refused at 6\nstatus 10\n"),
    ("updated before the Request is due", "--at 5",
     "3 steps, update",
     "err: schedule s refused at 4\nstatus 10\n"),
    ("updated twice", "--at 5",
     "5 steps, request, 3 steps, park 0, update, update",
     "err: schedule s refused at 12\nstatus 10\n"),
    ("a Step of a standing thread", "--at 5",
     "5 steps, request, 4 steps",
     "err: schedule s refused at 10\nstatus 10\n"),
    ("a Step of a parked thread", "--at 5",
     "5 steps, request, 3 steps, park 0, step 0",
     "err: schedule s refused at 11\nstatus 10\n"),
    ("a Step of a thread that is parked still", "--at 5",
     "5 steps, request, 3 steps, park 0, update, step 0",
     "err: schedule s refused at 12\nstatus 10\n"),
    ("a Step of no thread", "--at 5",
     "5 steps, request, 3 steps, park 0, update, resume 0, step 1",
     "err: schedule s refused at 13\nstatus 10\n"),
    ("a Request at first", "--at 5",
     "request",
     "err: schedule s refused at 1\nstatus 10\n"),
    ("a Request too early", "--at 5",
     "4 steps, request",
     "err: schedule s refused at 5\nstatus 10\n"),
    ("a Request too late", "--at 5",
     "6 steps",
     "err: schedule s refused at 6\nstatus 10\n"),
    ("two Requests", "--at 5",
     "5 steps, request, request",
     "err: schedule s refused at 7\nstatus 10\n"),
    ("a Request after the update", "--at 5",
     "5 steps, request, 3 steps, park 0, update, resume 0, request",
     "err: schedule s refused at 13\nstatus 10\n"),
    ("parked before the Request", "--at 5",
     "5 steps, park 0",
     "err: schedule s refused at 6\nstatus 10\n"),
    ("parked where it doesn't stand", "--at 5",
     "5 steps, request, park 0",
     "err: schedule s refused at 7\nstatus 10\n"),
    ("parked twice", "--at 5",
     "5 steps, request, 3 steps, park 0, park 0",
     "err: schedule s refused at 11\nstatus 10\n"),
    ("parked after the update", "--at 5",
     "5 steps, request, 3 steps, park 0, update, park 0",
     "err: schedule s refused at 12\nstatus 10\n"),
    ("resumed before the outcome", "--at 5",
     "5 steps, request, 3 steps, park 0, resume 0",
     "err: schedule s refused at 11\nstatus 10\n"),
    ("resumed twice", "--at 5",
     "5 steps, request, 3 steps, park 0, update, resume 0, resume 0",
     "err: schedule s refused at 13\nstatus 10\n"),
    ("it ends after the Request", "--at 5",
     "5 steps, request",
     "err: schedule s refused at 7\nstatus 10\n"),
    ("it ends after the update", "--at 5",
     "5 steps, request, 3 steps, park 0, update",
     "err: schedule s refused at 12\nstatus 10\n"),
    ("the number of a worker says nothing of what an event does", "--at 5",
     "5 steps, 7 request, 3 steps, 4294967295 park 0, 3 update, resume 0, 11 steps", r"
old 1
old 2
new 3
new 4
err: end exit 0 steps 19 target - update done
status 0
"),
];

/// Listings of an update that has to be refused by its check.
#[rattlefmt::skip]
const OF_CHECKED: &[ListingRow<'static>] = &[
    ("by a check: updated", "--at 5",
     "5 steps, request, 3 steps, park 0, update",
     "err: schedule s refused at 11\nstatus 10\n"),
    ("by a check: refused for memory", "--at 5",
     "5 steps, request, 3 steps, park 0, refuse 8",
     "err: schedule s refused at 11\nstatus 10\n"),
    ("by a check: refused by another check", "--at 5",
     "5 steps, request, 3 steps, park 0, refuse 4 2 0",
     "err: schedule s refused at 11\nstatus 10\n"),
    ("by a check: refused twice", "--at 5",
     "5 steps, request, 3 steps, park 0, refuse 4 1 0, refuse 4 1 0",
     "err: schedule s refused at 12\nstatus 10\n"),
    ("by a check: it ends after the refusal", "--at 5",
     "5 steps, request, 3 steps, park 0, refuse 4 1 0, resume 0",
     "err: schedule s refused at 13\nstatus 10\n"),
];

/// Listings that are followed whole, of an update while a thread waits.
#[rattlefmt::skip]
const OF_BLOCKED: &[ListingRow<'static>] = &[
    ("parked and resumed in turn", "--at 6",
     "3 steps, step 1, 2 steps, request, park 0, park 1, update, resume 0, resume 1, \
            9 steps, 4 steps of 1, 3 steps", r"
w
new 3
err: end exit 0 steps 22 target - update done
status 0
"),
    ("parked and resumed from the last", "--at 6",
     "3 steps, step 1, 2 steps, request, park 1, park 0, update, resume 1, resume 0, \
            9 steps, 4 steps of 1, 3 steps", r"
w
new 3
err: end exit 0 steps 22 target - update done
status 0
"),
    ("one is parked still while the other goes on", "--at 6",
     "3 steps, step 1, 2 steps, request, park 0, park 1, update, resume 0, 9 steps, \
            resume 1, 4 steps of 1, 3 steps", r"
w
new 3
err: end exit 0 steps 22 target - update done
status 0
"),
    ("one starts in the new program", "--at 3",
     "3 steps, request, 2 steps, park 0, park 1, update, resume 0, resume 1, 9 steps, \
            5 steps of 1, 3 steps", r"
w
new 3
err: end exit 0 steps 22 target - update done
status 0
"),
];

/// The loops with a check that fails.
const CHECKED: Programs<'static> = Programs {
    old: C1,
    new: C2,
    map: "point main loop 1 -> loop 1; check n >= 3;",
};

/// Two threads, of which one waits for the other.
const WAITING: Programs<'static> = Programs {
    old: BLOCKED,
    new: BLOCKED_NEW,
    map: LOOP,
};

#[test]
fn a_listing_is_followed_or_refused_at_its_first_event_that_cannot_be(
    rt: HostRuntime,
) -> Result<(), RowsDiffer> {
    for (programs, rows) in [
        (LOOPS, OF_LOOPS),
        (CHECKED, OF_CHECKED),
        (WAITING, OF_BLOCKED),
    ] {
        judged(differing_listings(rt.alloc(), &Upstare, &programs, rows))?;
    }
    Ok(())
}
