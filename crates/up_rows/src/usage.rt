//! Words that ask for nothing that there is.

use crate::tool::Upstare;
use row_calls::{RowsDiffer, Shown, called_on, compare, judged};
use std::alloc::{AllocError, Global};

/// The words of each call.
const WORDS: &[&str] = &[
    "",
    "run",
    "check",
    "walk a.c",
    "Run a.c",
    "run -x",
    "check --help",
    "points",
    "run a.c b.c",
    "run a.c --at 5",
    "run a.c --steps 0",
    "run a.c --steps 10000001",
    "run a.c --seed 18446744073709551616",
    "run a.c --seed 1 --schedule s",
    "run a.c --input",
    "check a.c --input f",
    "patch a.c b.c m",
    "patch a.c b.c -o p",
    "patch a.c b.c m -o",
    "patch a.c b.c m -o p -o q",
    "patch a.c b.c m x -o p",
    "transform",
    "transform a.c b.c",
    "load",
    "load 0",
    "load 1001",
    "load -1",
    "load ten",
    "load 1 2",
    "--version",
];

fn differing_words(alloc: Global) -> Result<String, AllocError> {
    let mut differing = String::new(alloc);
    for words in WORDS {
        let got = called_on(alloc, &Upstare, words, "", Shown::All)?;
        compare(&mut differing, words, "err: usage\nstatus 1\n", &got)?;
    }
    Ok(differing)
}

#[test]
fn faulty_words_are_usage(rt: HostRuntime) -> Result<(), RowsDiffer> {
    judged(differing_words(rt.alloc()))
}
