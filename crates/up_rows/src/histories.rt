//! Histories that are written, and schedules that are read.

use crate::threads::{FIVE, FOREVER, PAIR};
use crate::tool::Upstare;
use row_calls::{
    Call, CallRow, Faults, RowsDiffer, Shown, called, compare, differing_calls, judged,
};
use std::alloc::{AllocError, Global};

const ROUND: &str = r"
0 step 0
0 step 0
0 step 1
0 step 0
0 step 1
0 step 1
0 step 0
0 step 0
";

const SEED_1: &str = r"
0 step 0
0 step 0
0 step 0
0 step 1
0 step 1
0 step 1
0 step 0
0 step 0
";

const SEED_6: &str = r"
0 step 0
0 step 0
0 step 1
0 step 1
0 step 0
0 step 1
0 step 0
0 step 0
";

const OF_WORKERS: &str = r"
7 step 0
6 step 0
5 step 1
4 step 0
3 step 1
2 step 1
1 step 0
4294967295 step 0
";

/// What each run comes to, and its history.
#[rattlefmt::skip]
const ROWS: &[CallRow<'static>] = &[
    ("in turns",
     "run a.c --history h",
     &[("a.c", PAIR)], r"
m
w
err: end exit 0 steps 8 target - update none
status 0
file h
0 step 0
0 step 0
0 step 1
0 step 0
0 step 1
0 step 1
0 step 0
0 step 0
"),
    ("drawn by seed 1",
     "run a.c --seed 1 --history h",
     &[("a.c", PAIR)], r"
m
w
err: end exit 0 steps 8 target - update none
status 0
file h
0 step 0
0 step 0
0 step 0
0 step 1
0 step 1
0 step 1
0 step 0
0 step 0
"),
    ("drawn by seed 6",
     "run a.c --seed 6 --history h",
     &[("a.c", PAIR)], r"
w
m
err: end exit 0 steps 8 target - update none
status 0
file h
0 step 0
0 step 0
0 step 1
0 step 1
0 step 0
0 step 1
0 step 0
0 step 0
"),
    // Seed 1 draws 908834774, 1093944153, 1392341196, 822192870, 1708211034, 1074839795, and so on:
    // the remainder by the number of threads, which is 1, 1, 2, 3, 4, 4 at first, is the thread.
    ("the first twenty threads that seed 1 draws, of as many as there are",
     "run a.c --seed 1 --steps 20 --history h",
     &[("a.c", FIVE)], r"
err: end limit steps 20 target - update none
status 8
file h
0 step 0
0 step 0
0 step 0
0 step 0
0 step 2
0 step 3
0 step 2
0 step 2
0 step 1
0 step 2
0 step 3
0 step 2
0 step 0
0 step 0
0 step 4
0 step 2
0 step 0
0 step 0
0 step 2
0 step 0
"),
    ("listed, as in turns",
     "run a.c --schedule s --history h",
     &[("a.c", PAIR), ("s", ROUND)], r"
m
w
err: end exit 0 steps 8 target - update none
status 0
file h
0 step 0
0 step 0
0 step 1
0 step 0
0 step 1
0 step 1
0 step 0
0 step 0
"),
    ("listed, as drawn",
     "run a.c --schedule s --history h",
     &[("a.c", PAIR), ("s", SEED_6)], r"
w
m
err: end exit 0 steps 8 target - update none
status 0
file h
0 step 0
0 step 0
0 step 1
0 step 1
0 step 0
0 step 1
0 step 0
0 step 0
"),
    ("listed with other workers",
     "run a.c --schedule s --history h",
     &[("a.c", PAIR), ("s", OF_WORKERS)], r"
m
w
err: end exit 0 steps 8 target - update none
status 0
file h
7 step 0
6 step 0
5 step 1
4 step 0
3 step 1
2 step 1
1 step 0
4294967295 step 0
"),
    ("over its own schedule",
     "run a.c --schedule s --history s",
     &[("a.c", PAIR), ("s", SEED_1)], r"
m
w
err: end exit 0 steps 8 target - update none
status 0
"),
    ("no source",
     "run b.c --input i --schedule s --history h",
     &[("a.c", "no source at all")],
     "err: cannot read b.c\nstatus 4\n"),
    ("no input, which is read before the schedule",
     "run a.c --schedule s --input i --history h",
     &[("a.c", "no source at all")],
     "err: cannot read i\nstatus 4\n"),
    ("no schedule, which is read before the source is judged",
     "run a.c --schedule s --input a.c",
     &[("a.c", "no source at all")],
     "err: cannot read s\nstatus 4\n"),
];

#[test]
fn the_history_of_a_run_is_its_events(rt: HostRuntime) -> Result<(), RowsDiffer> {
    judged(differing_calls(rt.alloc(), &Upstare, ROWS))
}

/// What a run of two threads that never end comes to, which may follow the schedule `s`.
fn ran<'a>(alloc: Global, words: &'a str, schedule: &'a str) -> Result<String, AllocError> {
    let files: [(&'a str, &'a str); 2] = [("a.c", FOREVER), ("s", schedule)];
    let call = Call {
        words,
        files: &files,
        faults: Faults::NONE,
    };
    called(alloc, &Upstare, &call, Shown::All)
}

/// Draws a run, and makes it once more by its history.
fn differing_replay(alloc: Global) -> Result<String, AllocError> {
    let mut differing = String::new(alloc);
    let drawn = ran(
        alloc,
        "run a.c --seed 20261201 --steps 10000 --history h",
        "",
    )?;
    let (outcome, history) = drawn.split_once("file h\n").unwrap_or((&drawn, ""));
    let wanted = "err: end limit steps 10000 target - update none\nstatus 8\n";
    compare(&mut differing, "drawn", wanted, outcome)?;
    let again = ran(
        alloc,
        "run a.c --schedule s --steps 10000 --history h",
        history,
    )?;
    compare(&mut differing, "by its history", &drawn, &again)?;
    Ok(differing)
}

#[test]
fn a_drawn_run_of_10000_events_replays(rt: HostRuntime) -> Result<(), RowsDiffer> {
    judged(differing_replay(rt.alloc()))
}
