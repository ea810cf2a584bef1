//! Programs of several threads, and what they come to under a schedule.

mod sources;

use crate::threads::sources::{
    CROSSED, CROWD, LEFT_LOCKED, LOCKED, MANY, RELOCK, SELF_JOIN, UNLOCK,
};
use crate::tool::Upstare;
use row_calls::{CallRow, RowsDiffer, differing_calls, judged};
pub use sources::{FIVE, FOREVER, PAIR};

/// What each run comes to.
#[rattlefmt::skip]
const ROWS: &[CallRow<'static>] = &[
    ("in turns",
     "run a.c",
     &[("a.c", PAIR)], r"
m
w
err: end exit 0 steps 8 target - update none
status 0
"),
    ("drawn by seed 1",
     "run a.c --seed 1",
     &[("a.c", PAIR)], r"
m
w
err: end exit 0 steps 8 target - update none
status 0
"),
    ("drawn by seed 6",
     "run a.c --seed 6",
     &[("a.c", PAIR)], r"
w
m
err: end exit 0 steps 8 target - update none
status 0
"),
    ("drawn by seed 6, with as many steps as it takes",
     "run --steps 8 --seed=6 a.c",
     &[("a.c", PAIR)], r"
w
m
err: end exit 0 steps 8 target - update none
status 0
"),
    ("a deadlock is an answer",
     "run a.c --schedule s",
     &[("a.c", CROSSED), ("s", LOCKED)],
     "err: end deadlock steps 5 target - update none\nstatus 7\n"),
    ("a thread that is not started yet",
     "run a.c --schedule s",
     &[("a.c", CROSSED), ("s", "0 step 1\n0 step 0\n0 step 0\n0 step 1\n0 step 0\n")],
     "err: schedule s refused at 1\nstatus 10\n"),
    ("it ends before the program",
     "run a.c --schedule s",
     &[("a.c", CROSSED), ("s", "0 step 0\n0 step 0\n0 step 1\n0 step 1\n")],
     "err: schedule s refused at 5\nstatus 10\n"),
    ("a step of a program that stands still",
     "run a.c --schedule s",
     &[("a.c", CROSSED), ("s", "0 step 0\n0 step 0\n0 step 1\n0 step 1\n0 step 0\n0 step 0\n")],
     "err: schedule s refused at 6\nstatus 10\n"),
    ("a line without its newline",
     "run a.c --schedule s",
     &[("a.c", CROSSED), ("s", "0 step 0\n0 step 0\n0 step 1\n0 step 1\n0 step 0")],
     "err: schedule s refused at 5\nstatus 10\n"),
    ("a request of no update",
     "run a.c --schedule s",
     &[("a.c", CROSSED), ("s", "0 step 0\n0 request\n")],
     "err: schedule s refused at 2\nstatus 10\n"),
    ("a refusal of no update",
     "run a.c --schedule s",
     &[("a.c", CROSSED), ("s", "0 step 0\n0 refuse 8\n")],
     "err: schedule s refused at 2\nstatus 10\n"),
    ("a number with a 0 before it",
     "run a.c --schedule s",
     &[("a.c", CROSSED), ("s", "00 step 0\n")],
     "err: schedule s refused at 1\nstatus 10\n"),
    ("nothing",
     "run a.c --schedule s",
     &[("a.c", CROSSED), ("s", "")],
     "err: schedule s refused at 1\nstatus 10\n"),
    ("7 steps",
     "run a.c --steps 7",
     &[("a.c", "int main(void) { while (1) { } return 0; }")],
     "err: end limit steps 7 target - update none\nstatus 8\n"),
    ("1 step",
     "run a.c --steps 1 --seed 3",
     &[("a.c", "int main(void) { while (1) { } return 0; }")],
     "err: end limit steps 1 target - update none\nstatus 8\n"),
    ("locked twice",
     "run a.c",
     &[("a.c", RELOCK)],
     "err: end trap relock thread 0 steps 3 target - update none\nstatus 6\n"),
    ("unlocked without a lock",
     "run a.c",
     &[("a.c", UNLOCK)],
     "err: end trap unlock thread 0 steps 2 target - update none\nstatus 6\n"),
    ("a join of itself",
     "run a.c",
     &[("a.c", SELF_JOIN)],
     "err: end trap join thread 0 steps 2 target - update none\nstatus 6\n"),
    ("one thread more than may live",
     "run a.c",
     &[("a.c", CROWD)],
     "err: end trap threads thread 0 steps 6240 target - update none\nstatus 6\n"),
    ("one thread more than may be started",
     "run a.c",
     &[("a.c", MANY)],
     "err: end trap threads thread 0 steps 5997 target - update none\nstatus 6\n"),
    ("a mutex whose owner has ended",
     "run a.c",
     &[("a.c", LEFT_LOCKED)],
     "err: end deadlock steps 6 target - update none\nstatus 7\n"),
];

#[test]
fn threads_take_turns_or_follow_a_schedule(rt: HostRuntime) -> Result<(), RowsDiffer> {
    judged(differing_calls(rt.alloc(), &Upstare, ROWS))
}
