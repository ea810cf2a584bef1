//! The command `patch` as a whole: its files in their order, and what it writes.

use crate::tool::Upstare;
use row_calls::{
    Call, CallRow, Faults, Repeated, RowsDiffer, Shown, called, compare, differing_calls, judged,
    text_of,
};
use std::alloc::{AllocError, Global};

/// A loop that prints `old`, and one that prints `new`.
pub const C1: &str = r#"
int n; int main(void) { while (n < 4) { n = n + 1; printf("old %d\n", n); } return 0; }
"#;

pub const C2: &str = r#"
int n; int main(void) { while (n < 4) { n = n + 1; printf("new %d\n", n); } return 0; }
"#;

/// What each call comes to, and the patch.
#[rattlefmt::skip]
const ROWS: &[CallRow<'static>] = &[
    ("a mapping that is its canonical text",
     "patch c1 c2 m -o p",
     &[("c1", C1), ("c2", C2), ("m", "point main loop 1 -> loop 1;\n")], r#"
ok bytes 246
status 0
file p
upstare-patch 2
old 88
int n; int main(void) { while (n < 4) { n = n + 1; printf("old %d\n", n); } return 0; }
new 88
int n; int main(void) { while (n < 4) { n = n + 1; printf("new %d\n", n); } return 0; }
map 29
point main loop 1 -> loop 1;
end
"#),
    ("another mapping",
     "patch c1 c2 m -o p",
     &[("c1", C1), ("c2", C2), ("m", "check -(-n) >= 0;")], r#"
ok bytes 234
status 0
file p
upstare-patch 2
old 88
int n; int main(void) { while (n < 4) { n = n + 1; printf("old %d\n", n); } return 0; }
new 88
int n; int main(void) { while (n < 4) { n = n + 1; printf("new %d\n", n); } return 0; }
map 17
check - -n >= 0;
end
"#),
    ("no text at all",
     "patch c1 c2 m -o p",
     &[("c1", ""), ("c2", ""), ("m", "")],
     "err: source c1 at 0: no main\nstatus 2\n"),
    ("the old source is refused",
     "patch c1 c2 m -o p",
     &[("c1", "int main(void) { char c; }"), ("c2", ""), ("m", "")],
     "err: source c1 at 17: left out char\nstatus 2\n"),
    ("the new source is refused",
     "patch c1 c2 m -o p",
     &[("c1", C1), ("c2", ""), ("m", "")],
     "err: source c2 at 0: no main\nstatus 2\n"),
    ("the new source before the mapping",
     "patch c1 c2 m -o p",
     &[("c1", C1), ("c2", "int main(void) { return x; }"), ("m", "check")],
     "err: source c2 at 24: unknown x\nstatus 2\n"),
    ("a mapping that ends too soon",
     "patch c1 c2 m -o p",
     &[("c1", C1), ("c2", C2), ("m", "check")],
     "err: map m at 5: unexpected\nstatus 3\n"),
    ("a mapping with a fault",
     "patch c1 c2 m -o p",
     &[("c1", C1), ("c2", C2), ("m", "point main loop -> loop 1;")],
     "err: map m at 16: unexpected\nstatus 3\n"),
    ("an unsound mapping",
     "patch c1 c2 m -o p",
     &[("c1", C1), ("c2", C2), ("m", "point main loop 2 -> loop 1;")],
     "err: map m entry 1: unknown point\nstatus 3\n"),
    ("a fault before an unsound entry",
     "patch c1 c2 m -o p",
     &[("c1", C1), ("c2", C2), ("m", "check 1; check x; check y")],
     "err: map m at 25: unexpected\nstatus 3\n"),
    ("the first unsound entry",
     "patch c1 c2 m -o p",
     &[("c1", C1), ("c2", C2), ("m", "check 1; check x; check y;")],
     "err: map m entry 2: bad expression\nstatus 3\n"),
    ("no old source",
     "patch x c2 y -o p",
     &[("c1", C1), ("c2", C2), ("bad", "?")],
     "err: cannot read x\nstatus 4\n"),
    ("no new source",
     "patch c1 x y -o p",
     &[("c1", C1), ("c2", C2), ("bad", "?")],
     "err: cannot read x\nstatus 4\n"),
    ("no mapping",
     "patch c1 c2 x -o p",
     &[("c1", C1), ("c2", C2), ("bad", "?")],
     "err: cannot read x\nstatus 4\n"),
    ("no mapping, and an old source that is none",
     "patch bad c2 x -o p",
     &[("c1", C1), ("c2", C2), ("bad", "?")],
     "err: cannot read x\nstatus 4\n"),
];

#[test]
fn the_patch_holds_both_sources_and_the_canonical_mapping(
    rt: HostRuntime,
) -> Result<(), RowsDiffer> {
    judged(differing_calls(rt.alloc(), &Upstare, ROWS))
}

/// One byte more than a mapping may have: entries, and a blank behind them.
const LONG: Repeated<'static> = Repeated {
    before: "",
    piece: "check n;",
    count: 131072,
    is_numbered: false,
    behind: "",
    after: " ",
};

fn differing_limit(alloc: Global) -> Result<String, AllocError> {
    let mut differing = String::new(alloc);
    let mapping = text_of(alloc, &LONG)?;
    let files = [("c1", C1), ("c2", "?"), ("m", mapping.as_str())];
    let call = Call {
        words: "patch c1 c2 m -o p",
        files: &files,
        faults: Faults::NONE,
    };
    let got = called(alloc, &Upstare, &call, Shown::All)?;
    let wanted = "err: map m at 1048576: too long\nstatus 3\n";
    compare(&mut differing, "one byte more", wanted, &got)?;
    Ok(differing)
}

#[test]
fn a_mapping_has_its_limit(rt: HostRuntime) -> Result<(), RowsDiffer> {
    judged(differing_limit(rt.alloc()))
}
