//! The file of the patch: of another program, not there, cut, too long; and its fellows.

use crate::moments::C1;
use crate::tool::Upstare;
use row_calls::{
    Call, CallRow, FaultRow, Faults, Repeated, RowsDiffer, Shown, called, compare, differing_calls,
    differing_faults, judged, opened, text_of,
};
use std::alloc::{AllocError, Global};

/// The patch of the loops.
const PATCH: &str = r#"
upstare-patch 2
old 88
int n; int main(void) { while (n < 4) { n = n + 1; printf("old %d\n", n); } return 0; }
new 88
int n; int main(void) { while (n < 4) { n = n + 1; printf("new %d\n", n); } return 0; }
map 29
point main loop 1 -> loop 1;
end
"#;

/// Runs with other files: `bad` is no program, `x`, `y`, `z` and `u` aren't there, and `c1` is no
/// patch.
#[rattlefmt::skip]
const ROWS: &[CallRow<'static>] = &[
    ("another limit",
     "run c1 --patch p --at 5 --history h",
     &[("c1", r#"
int n; int main(void) { while (n < 5) { n = n + 1; printf("old %d\n", n); } return 0; }
"#), ("p", PATCH)],
     "err: patch p: old source 88 bytes, patch 88, differ at 35\nstatus 3\n"),
    ("a blank more",
     "run c1 --patch p --at 5 --history h",
     &[("c1", r#"
int  n; int main(void) { while (n < 4) { n = n + 1; printf("old %d\n", n); } return 0; }
"#), ("p", PATCH)],
     "err: patch p: old source 89 bytes, patch 88, differ at 4\nstatus 3\n"),
    ("a blank less",
     "run c1 --patch p --at 5 --history h",
     &[("c1", r#"
int n;int main(void) { while (n < 4) { n = n + 1; printf("old %d\n", n); } return 0; }
"#), ("p", PATCH)],
     "err: patch p: old source 87 bytes, patch 88, differ at 6\nstatus 3\n"),
    ("no newline at the end",
     "run c1 --patch p --at 5 --history h",
     &[("p", PATCH), ("c1", r#"
int n; int main(void) { while (n < 4) { n = n + 1; printf("old %d\n", n); } return 0; }"#)],
     "err: patch p: old source 87 bytes, patch 88, differ at 87\nstatus 3\n"),
    ("one newline more",
     "run c1 --patch p --at 5 --history h",
     &[("c1", r#"
int n; int main(void) { while (n < 4) { n = n + 1; printf("old %d\n", n); } return 0; }

"#), ("p", PATCH)],
     "err: patch p: old source 89 bytes, patch 88, differ at 88\nstatus 3\n"),
    ("another word",
     "run c1 --patch p --at 5 --history h",
     &[("c1", r#"
int n; int main(void) { while (n < 4) { n = n + 1; printf("new %d\n", n); } return 0; }
"#), ("p", PATCH)],
     "err: patch p: old source 88 bytes, patch 88, differ at 59\nstatus 3\n"),
    ("a comment before it",
     "run c1 --patch p --at 5 --history h",
     &[("c1", r#"
/**/int n; int main(void) { while (n < 4) { n = n + 1; printf("old %d\n", n); } return 0; }
"#), ("p", PATCH)],
     "err: patch p: old source 92 bytes, patch 88, differ at 0\nstatus 3\n"),
    ("no source",
     "run x --patch y --at 1 --input z --schedule u",
     &[("c1", C1), ("p", PATCH), ("bad", "@")],
     "err: cannot read x\nstatus 4\n"),
    ("no patch",
     "run c1 --schedule x --input y --patch z --at 1",
     &[("c1", C1), ("p", PATCH), ("bad", "@")],
     "err: cannot read z\nstatus 4\n"),
    ("no input",
     "run c1 --patch bad --at 1 --schedule x --input y",
     &[("c1", C1), ("p", PATCH), ("bad", "@")],
     "err: cannot read y\nstatus 4\n"),
    ("no schedule",
     "run bad --patch bad --at 1 --schedule x --input bad",
     &[("c1", C1), ("p", PATCH), ("bad", "@")],
     "err: cannot read x\nstatus 4\n"),
    ("no patch, though the source is none",
     "run bad --patch x --at 1",
     &[("c1", C1), ("p", PATCH), ("bad", "@")],
     "err: cannot read x\nstatus 4\n"),
    ("the source is judged before the patch",
     "run bad --patch bad --at 1",
     &[("c1", C1), ("p", PATCH), ("bad", "@")],
     "err: source bad at 0: bad byte\nstatus 2\n"),
    ("a patch that is none",
     "run c1 --patch bad --at 1",
     &[("c1", C1), ("p", PATCH), ("bad", "@")],
     "err: patch bad at 0: bad head\nstatus 3\n"),
    ("the source itself as a patch",
     "run c1 --patch c1 --at 1 --history h",
     &[("c1", C1), ("p", PATCH), ("bad", "@")],
     "err: patch c1 at 0: bad head\nstatus 3\n"),
    ("a patch without a moment",
     "run c1 --patch p",
     &[("c1", C1), ("p", PATCH), ("bad", "@")],
     "err: usage\nstatus 1\n"),
    ("a moment without a patch",
     "run c1 --at 5",
     &[("c1", C1), ("p", PATCH), ("bad", "@")],
     "err: usage\nstatus 1\n"),
    ("a moment above the limit",
     "run c1 --patch p --at 10000001",
     &[("c1", C1), ("p", PATCH), ("bad", "@")],
     "err: usage\nstatus 1\n"),
    ("a moment without a number",
     "run c1 --patch p --at",
     &[("c1", C1), ("p", PATCH), ("bad", "@")],
     "err: usage\nstatus 1\n"),
    ("a patch without a name",
     "run c1 --at 5 --patch",
     &[("c1", C1), ("p", PATCH), ("bad", "@")],
     "err: usage\nstatus 1\n"),
    ("two patches",
     "run c1 --patch p --at 1 --patch p",
     &[("c1", C1), ("p", PATCH), ("bad", "@")],
     "err: usage\nstatus 1\n"),
];

/// Runs in which an access fails.
#[rattlefmt::skip]
const FAULTS: &[FaultRow<'static>] = &[
    ("a patch that cannot be read",
     "run c1 --patch p --at 5 --history h",
     Faults { file: Some(1), ..Faults::NONE },
     &[("c1", C1), ("p", PATCH)],
     "err: cannot read p\nstatus 4\n"),
    ("an output without room",
     "run c1 --patch p --at 5 --history h",
     Faults { room: Some(5), ..Faults::NONE },
     &[("c1", C1), ("p", PATCH)],
     "old 1%\nerr: cannot write output\nstatus 5\n"),
    ("a history that cannot be written",
     "run c1 --patch p --at 5 --history h",
     Faults { file: Some(2), ..Faults::NONE },
     &[("c1", C1), ("p", PATCH)], r"
old 1
old 2
new 3
new 4
err: cannot write h
status 5
"),
];

#[test]
fn files_are_read_and_judged_in_their_order(rt: HostRuntime) -> Result<(), RowsDiffer> {
    judged(differing_calls(rt.alloc(), &Upstare, ROWS))?;
    judged(differing_faults(rt.alloc(), &Upstare, FAULTS))?;
    Ok(())
}

/// What a run by a patch of these bytes comes to.
fn by_patch(alloc: Global, patch: &str) -> Result<String, AllocError> {
    let files = [("c1", C1), ("p", patch)];
    let call = Call {
        words: "run c1 --patch p --at 5",
        files: &files,
        faults: Faults::NONE,
    };
    called(alloc, &Upstare, &call, Shown::All)
}

/// What a run by the first bytes of the patch comes to that are fewer than all of them.
fn compare_cut(differing: &mut String, alloc: Global, len: usize) -> Result<(), AllocError> {
    let cut = opened(PATCH).get(..len).unwrap_or("");
    let wanted = format!(in alloc; "err: patch p at {len}: short\nstatus 3\n")?;
    compare(differing, "a cut patch", &wanted, &by_patch(alloc, cut)?)
}

/// As many bytes as a patch may have.
const MOST: Repeated<'static> = Repeated {
    before: "",
    piece: "x",
    count: 4_194_304,
    is_numbered: false,
    behind: "",
    after: "",
};

fn differing_patches(alloc: Global) -> Result<String, AllocError> {
    let mut differing = String::new(alloc);
    for len in 0..246 {
        compare_cut(&mut differing, alloc, len)?;
    }
    let most = text_of(alloc, &MOST)?;
    let wanted = "err: patch p at 0: bad head\nstatus 3\n";
    compare(
        &mut differing,
        "as long as it may be",
        wanted,
        &by_patch(alloc, &most)?,
    )?;
    let more = format!(in alloc; "{most}x")?;
    let wanted = "err: patch p at 4194304: too long\nstatus 3\n";
    compare(
        &mut differing,
        "one byte longer",
        wanted,
        &by_patch(alloc, &more)?,
    )?;
    Ok(differing)
}

#[test]
fn a_patch_is_whole_and_keeps_its_limit(rt: HostRuntime) -> Result<(), RowsDiffer> {
    judged(differing_patches(rt.alloc()))
}
