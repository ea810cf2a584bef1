//! Programs that read their input.

use crate::tool::Upstare;
use row_calls::{
    Call, CallRow, Faults, Repeated, RowsDiffer, Shown, called, compare, differing_calls, judged,
    text_of,
};
use std::alloc::{AllocError, Global};

const FIRST: &str = r#"int main(void) { printf("%d\n", getchar()); return 0; }"#;

const SUM: &str = r#"
int main(void) {
    int c = getchar();
    int n = 0;
    int sum = 0;
    while (c != EOF) { sum += c; n++; c = getchar(); }
    printf("%d bytes, sum %d, then %d\n", n, sum, getchar());
    return 0;
}
"#;

/// What each run comes to.
#[rattlefmt::skip]
const ROWS: &[CallRow<'static>] = &[
    ("no input",
     "run a.c",
     &[("a.c", FIRST)], r"
-1
err: end exit 0 steps 4 target - update none
status 0
"),
    ("an empty input",
     "run a.c --input f",
     &[("a.c", FIRST), ("f", "")], r"
-1
err: end exit 0 steps 4 target - update none
status 0
"),
    ("one byte",
     "run a.c --input f",
     &[("a.c", FIRST), ("f", "A")], r"
65
err: end exit 0 steps 4 target - update none
status 0
"),
    ("all bytes, and the end again",
     "run --input f a.c --seed 1",
     &[("a.c", SUM), ("f", "ab\n\u{ff}")], r"
5 bytes, sum 591, then -1
err: end exit 0 steps 33 target - update none
status 0
"),
];

#[test]
fn a_program_reads_its_input_once(rt: HostRuntime) -> Result<(), RowsDiffer> {
    judged(differing_calls(rt.alloc(), &Upstare, ROWS))
}

/// As many bytes as an input may have.
const MOST: Repeated<'static> = Repeated {
    before: "",
    piece: "x",
    count: 1_048_576,
    is_numbered: false,
    behind: "",
    after: "",
};

fn differing_limit(alloc: Global) -> Result<String, AllocError> {
    let mut differing = String::new(alloc);
    let most = text_of(alloc, &MOST)?;
    let more = format!(in alloc; "{most}x")?;
    for (name, input, wanted) in [
        (
            "as long as it may be",
            &most,
            "120\nerr: end exit 0 steps 4 target - update none\nstatus 0\n",
        ),
        ("one byte longer", &more, "err: too long f\nstatus 11\n"),
    ] {
        let files = [("a.c", FIRST), ("f", input.as_str())];
        let call = Call {
            words: "run a.c --input f",
            files: &files,
            faults: Faults::NONE,
        };
        let got = called(alloc, &Upstare, &call, Shown::All)?;
        compare(&mut differing, name, wanted, &got)?;
    }
    Ok(differing)
}

#[test]
fn an_input_has_its_limit(rt: HostRuntime) -> Result<(), RowsDiffer> {
    judged(differing_limit(rt.alloc()))
}
