//! The command `upgrade`: patches in the newest format.

use crate::patches::C1;
use crate::tool::Upstare;
use row_calls::{CallRow, FaultRow, Faults, RowsDiffer, differing_calls, differing_faults, judged};

/// A patch in format 1.
const FIRST: &str = r#"
upstare-patch 1
old 88
int n; int main(void) { while (n < 4) { n = n + 1; printf("old %d\n", n); } return 0; }
new 88
int n; int main(void) { while (n < 4) { n = n + 1; printf("new %d\n", n); } return 0; }
map 29
point main loop 1 -> loop 1;
end
"#;

/// The same patch in format 2.
const SECOND: &str = r#"
upstare-patch 2
old 88
int n; int main(void) { while (n < 4) { n = n + 1; printf("old %d\n", n); } return 0; }
new 88
int n; int main(void) { while (n < 4) { n = n + 1; printf("new %d\n", n); } return 0; }
map 29
point main loop 1 -> loop 1;
end
"#;

/// A patch whose frame becomes two.
const SPLIT: &str = r#"
upstare-patch 2
old 88
int n; int main(void) { while (n < 4) { n = n + 1; printf("old %d\n", n); } return 0; }
new 134
int n;
int go(int k) { while (n < k) { n = n + 1; printf("new %d\n", n); } return n; }
int main(void) { int r; r = go(4); return r; }
map 52
point main loop 1 -> call 1 + go loop 1 { k = 4; };
end
"#;

/// The answer where the patch of the loops is written.
const WRITTEN: &str = r#"
ok bytes 246
status 0
file p
upstare-patch 2
old 88
int n; int main(void) { while (n < 4) { n = n + 1; printf("old %d\n", n); } return 0; }
new 88
int n; int main(void) { while (n < 4) { n = n + 1; printf("new %d\n", n); } return 0; }
map 29
point main loop 1 -> loop 1;
end
"#;

/// What each call comes to.
#[rattlefmt::skip]
const ROWS: &[CallRow<'static>] = &[
    ("from format 1", "upgrade q -o p", &[("q", FIRST)], WRITTEN),
    ("from format 2", "upgrade q -o p", &[("q", SECOND)], WRITTEN),
    ("over a file that is there", "upgrade q -o p", &[("q", FIRST), ("p", "old")], WRITTEN),
    ("a frame that becomes two", "upgrade q -o p", &[("q", SPLIT)], r#"
ok bytes 316
status 0
file p
upstare-patch 2
old 88
int n; int main(void) { while (n < 4) { n = n + 1; printf("old %d\n", n); } return 0; }
new 134
int n;
int go(int k) { while (n < k) { n = n + 1; printf("new %d\n", n); } return n; }
int main(void) { int r; r = go(4); return r; }
map 52
point main loop 1 -> call 1 + go loop 1 { k = 4; };
end
"#),
    ("a run by a patch in format 1", "run c1 --patch p --at 5", &[("c1", C1), ("p", FIRST)], r"
old 1
old 2
new 3
new 4
err: end exit 0 steps 19 target - update done
status 0
"),
    ("no patch", "upgrade q -o p", &[("q", "upstare")], "err: patch q at 7: short\nstatus 3\n"),
    ("another format", "upgrade q -o p", &[("q", "upstare-patch 3\n")],
     "err: patch q at 14: bad head\nstatus 3\n"),
    ("no file", "upgrade x -o p", &[("q", FIRST)], "err: cannot read x\nstatus 4\n"),
    ("no file for the output", "upgrade q", &[("q", FIRST)], "err: usage\nstatus 1\n"),
    ("two files", "upgrade q q -o p", &[("q", FIRST)], "err: usage\nstatus 1\n"),
    ("no words", "upgrade", &[], "err: usage\nstatus 1\n"),
];

#[test]
fn patches_are_upgraded(rt: HostRuntime) -> Result<(), RowsDiffer> {
    judged(differing_calls(rt.alloc(), &Upstare, ROWS))
}

/// Accesses that fail.
#[rattlefmt::skip]
const FAULTS: &[FaultRow<'static>] = &[
    ("the read fails", "upgrade q -o p",
     Faults { file: Some(0), ..Faults::NONE },
     &[("q", FIRST)],
     "err: cannot read q\nstatus 4\n"),
    ("the write fails", "upgrade q -o p",
     Faults { file: Some(1), ..Faults::NONE },
     &[("q", FIRST)],
     "err: cannot write p\nstatus 5\n"),
];

#[test]
fn a_fault_is_told(rt: HostRuntime) -> Result<(), RowsDiffer> {
    judged(differing_faults(rt.alloc(), &Upstare, FAULTS))
}
