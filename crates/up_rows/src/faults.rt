//! What failing files and sinks make of a call.

use crate::patches::{C1, C2};
use crate::threads::PAIR;
use crate::tool::Upstare;
use row_calls::{FaultRow, Faults, RowsDiffer, differing_faults, judged};

const HI: &str = r#"int main(void){ printf("hi\n"); return 3; }"#;

/// Which accesses fail, and what the call comes to.
#[rattlefmt::skip]
const ROWS: &[FaultRow<'static>] = &[
    ("run: no such file",
     "run x.c",
     Faults::NONE,
     &[("a.c", HI)],
     "err: cannot read x.c\nstatus 4\n"),
    ("check: no such file",
     "check x.c",
     Faults::NONE,
     &[("a.c", HI)],
     "err: cannot read x.c\nstatus 4\n"),
    ("points: no such file",
     "points x.c",
     Faults::NONE,
     &[("a.c", HI)],
     "err: cannot read x.c\nstatus 4\n"),
    ("a read that fails",
     "run a.c",
     Faults { file: Some(0), ..Faults::NONE },
     &[("a.c", HI)],
     "err: cannot read a.c\nstatus 4\n"),
    ("run: no room",
     "run a.c",
     Faults { room: Some(1), ..Faults::NONE },
     &[("a.c", HI)],
     "h%\nerr: cannot write output\nstatus 5\n"),
    ("check: no room",
     "check a.c",
     Faults { room: Some(6), ..Faults::NONE },
     &[("a.c", HI)],
     "ok fun%\nerr: cannot write output\nstatus 5\n"),
    ("points: no room",
     "points a.c",
     Faults { room: Some(0), ..Faults::NONE },
     &[("a.c", HI)],
     "err: cannot write output\nstatus 5\n"),
    ("load: no room",
     "load 1",
     Faults { room: Some(30), ..Faults::NONE },
     &[], r"
load 1 steps 99 update done
ne%
err: cannot write output
status 5
"),
    ("run: a report that cannot be told",
     "run a.c",
     Faults { err: Some(0), ..Faults::NONE },
     &[("a.c", HI)],
     "hi\nstatus 5\n"),
    ("run: a refusal that cannot be told",
     "run b.c",
     Faults { err: Some(0), ..Faults::NONE },
     &[("b.c", "int b;")],
     "status 5\n"),
    ("usage that cannot be told",
     "walk",
     Faults { err: Some(0), ..Faults::NONE },
     &[],
     "status 5\n"),
    ("nothing fails",
     "run a.c",
     Faults::NONE,
     &[("a.c", HI)], r"
hi
err: end exit 3 steps 3 target - update none
status 0
"),
    ("a history that cannot be written",
     "run a.c --history h",
     Faults { file: Some(1), ..Faults::NONE },
     &[("a.c", PAIR)],
     "m\nw\nerr: cannot write h\nstatus 5\n"),
    ("no room, and then no history",
     "run a.c --history h",
     Faults { room: Some(3), ..Faults::NONE },
     &[("a.c", PAIR)],
     "m\nw%\nerr: cannot write output\nstatus 5\n"),
    ("patch: the second read fails",
     "patch c1 c2 m -o p",
     Faults { file: Some(1), ..Faults::NONE },
     &[("c1", C1), ("c2", C2), ("m", "")],
     "err: cannot read c2\nstatus 4\n"),
    ("patch: the write fails",
     "patch c1 c2 m -o p",
     Faults { file: Some(3), ..Faults::NONE },
     &[("c1", C1), ("c2", C2), ("m", "")],
     "err: cannot write p\nstatus 5\n"),
    ("patch: no room, though the file is there",
     "patch c1 c2 m -o p",
     Faults { room: Some(4), ..Faults::NONE },
     &[("c1", C1), ("c2", C2), ("m", "")], r#"
ok b%
err: cannot write output
status 5
file p
upstare-patch 2
old 88
int n; int main(void) { while (n < 4) { n = n + 1; printf("old %d\n", n); } return 0; }
new 88
int n; int main(void) { while (n < 4) { n = n + 1; printf("new %d\n", n); } return 0; }
map 0
end
"#),
];

#[test]
fn a_fault_is_told(rt: HostRuntime) -> Result<(), RowsDiffer> {
    judged(differing_faults(rt.alloc(), &Upstare, ROWS))
}
