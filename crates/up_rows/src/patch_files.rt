//! Files that are no patches: where they are refused, and why.

use crate::patches::C1;
use crate::tool::Upstare;
use row_calls::{Call, Faults, RowsDiffer, Shown, called, compare, judged};
use std::alloc::{AllocError, Global};

/// The bytes of each file, and where and why it is refused.
#[rattlefmt::skip]
const ROWS: &[(&str, &str, &str)] = &[
    ("another first letter", "x", "at 0: bad head"),
    ("format 0", "upstare-patch 0\n", "at 14: bad head"),
    ("format 3", "upstare-patch 3\n", "at 14: bad head"),
    ("a letter as the format", "upstare-patch a\n", "at 14: bad head"),
    ("two digits of the format", "upstare-patch 12\n", "at 15: bad head"),
    ("no newline behind format 1", "upstare-patch 1", "at 15: short"),
    ("no newline behind format 2", "upstare-patch 2", "at 15: short"),
    ("a carriage return", "upstare-patch 2\r\n", "at 15: bad head"),
    ("no old source", "upstare-patch 2\nnew 1\n", "at 16: bad head"),
    ("a length without digits", "upstare-patch 2\nold \n", "at 20: bad head"),
    ("a length with a 0 before it", "upstare-patch 2\nold 01\n", "at 21: bad head"),
    ("a length with a blank behind it", "upstare-patch 2\nold 1 \n", "at 21: bad head"),
    ("a length with a sign", "upstare-patch 2\nold -1\n", "at 20: bad head"),
    ("another word behind a source", "upstare-patch 2\nold 1\nab", "at 23: bad head"),
    ("a line behind the end", "upstare-patch 2\nold 0\nnew 0\nmap 0\nend\n\n", "at 38: bad head"),
    ("another last word", "upstare-patch 2\nold 0\nnew 0\nmap 0\nEnd\n", "at 34: bad head"),
    ("a length of many digits",
     "upstare-patch 2\nold 99999999999999999999999999999999999999999999999999",
     "at 70: short"),
    ("an old source with a fault", r"
upstare-patch 2
old 1
@new 1
@map 1
@end
", "at 22: old source: bad byte"),
    ("no main in the old source", r"
upstare-patch 2
old 0
new 1
@map 1
@end
", "at 22: old source: no main"),
    ("a new source with a fault", r#"
upstare-patch 2
old 88
int n; int main(void) { while (n < 4) { n = n + 1; printf("old %d\n", n); } return 0; }
new 1
@map 1
@end
"#, "at 117: new source: bad byte"),
    ("a mapping with a bad byte", r#"
upstare-patch 2
old 88
int n; int main(void) { while (n < 4) { n = n + 1; printf("old %d\n", n); } return 0; }
new 88
int n; int main(void) { while (n < 4) { n = n + 1; printf("new %d\n", n); } return 0; }
map 1
@end
"#, "at 212: map: bad byte"),
    ("a mapping that ends too soon", r#"
upstare-patch 2
old 88
int n; int main(void) { while (n < 4) { n = n + 1; printf("old %d\n", n); } return 0; }
new 88
int n; int main(void) { while (n < 4) { n = n + 1; printf("new %d\n", n); } return 0; }
map 5
checkend
"#, "at 217: map: unexpected"),
    ("an unknown name", r#"
upstare-patch 2
old 88
int n; int main(void) { while (n < 4) { n = n + 1; printf("old %d\n", n); } return 0; }
new 88
int n; int main(void) { while (n < 4) { n = n + 1; printf("new %d\n", n); } return 0; }
map 8
check x;end
"#, "at 212: entry 1: bad expression"),
    ("an unknown name in the second entry", r#"
upstare-patch 2
old 88
int n; int main(void) { while (n < 4) { n = n + 1; printf("old %d\n", n); } return 0; }
new 88
int n; int main(void) { while (n < 4) { n = n + 1; printf("new %d\n", n); } return 0; }
map 18
check 1;
check x;
end
"#, "at 213: entry 2: bad expression"),
    ("an unknown point", r#"
upstare-patch 2
old 88
int n; int main(void) { while (n < 4) { n = n + 1; printf("old %d\n", n); } return 0; }
new 88
int n; int main(void) { while (n < 4) { n = n + 1; printf("new %d\n", n); } return 0; }
map 29
point main loop 2 -> loop 1;
end
"#, "at 213: entry 1: unknown point"),
    ("no newline at the end", r#"
upstare-patch 2
old 88
int n; int main(void) { while (n < 4) { n = n + 1; printf("old %d\n", n); } return 0; }
new 88
int n; int main(void) { while (n < 4) { n = n + 1; printf("new %d\n", n); } return 0; }
map 8
check n;end
"#, "at 220: not canonical"),
    ("a blank before the newline", r#"
upstare-patch 2
old 88
int n; int main(void) { while (n < 4) { n = n + 1; printf("old %d\n", n); } return 0; }
new 88
int n; int main(void) { while (n < 4) { n = n + 1; printf("new %d\n", n); } return 0; }
map 10
check n; 
end
"#, "at 221: not canonical"),
    ("brackets that are not needed", r#"
upstare-patch 2
old 88
int n; int main(void) { while (n < 4) { n = n + 1; printf("old %d\n", n); } return 0; }
new 88
int n; int main(void) { while (n < 4) { n = n + 1; printf("new %d\n", n); } return 0; }
map 11
check (n);
end
"#, "at 219: not canonical"),
    ("no blanks", r#"
upstare-patch 2
old 88
int n; int main(void) { while (n < 4) { n = n + 1; printf("old %d\n", n); } return 0; }
new 88
int n; int main(void) { while (n < 4) { n = n + 1; printf("new %d\n", n); } return 0; }
map 11
check n>1;
end
"#, "at 220: not canonical"),
    ("entries in another order", r#"
upstare-patch 2
old 88
int n; int main(void) { while (n < 4) { n = n + 1; printf("old %d\n", n); } return 0; }
new 88
int n; int main(void) { while (n < 4) { n = n + 1; printf("new %d\n", n); } return 0; }
map 32
check n;
function main -> main;
end
"#, "at 213: not canonical"),
    ("a number with a 0 before it", r#"
upstare-patch 2
old 88
int n; int main(void) { while (n < 4) { n = n + 1; printf("old %d\n", n); } return 0; }
new 88
int n; int main(void) { while (n < 4) { n = n + 1; printf("new %d\n", n); } return 0; }
map 30
point main loop 01 -> loop 1;
end
"#, "at 229: not canonical"),
    ("no fills in braces", r#"
upstare-patch 2
old 88
int n; int main(void) { while (n < 4) { n = n + 1; printf("old %d\n", n); } return 0; }
new 88
int n; int main(void) { while (n < 4) { n = n + 1; printf("new %d\n", n); } return 0; }
map 33
point main loop 1 -> loop 1 { };
end
"#, "at 240: not canonical"),
    ("two parts in format 1", r#"
upstare-patch 1
old 88
int n; int main(void) { while (n < 4) { n = n + 1; printf("old %d\n", n); } return 0; }
new 88
int n; int main(void) { while (n < 4) { n = n + 1; printf("new %d\n", n); } return 0; }
map 42
point main loop 1 -> loop 1 + main entry;
end
"#, "at 241: map: unexpected"),
    ("two parts in format 2", r#"
upstare-patch 2
old 88
int n; int main(void) { while (n < 4) { n = n + 1; printf("old %d\n", n); } return 0; }
new 88
int n; int main(void) { while (n < 4) { n = n + 1; printf("new %d\n", n); } return 0; }
map 42
point main loop 1 -> loop 1 + main entry;
end
"#, "at 213: entry 1: kind differs"),
    ("an unknown name in format 1", r#"
upstare-patch 1
old 88
int n; int main(void) { while (n < 4) { n = n + 1; printf("old %d\n", n); } return 0; }
new 88
int n; int main(void) { while (n < 4) { n = n + 1; printf("new %d\n", n); } return 0; }
map 9
check x;
end
"#, "at 212: entry 1: bad expression"),
    ("a blank alone", r#"
upstare-patch 2
old 88
int n; int main(void) { while (n < 4) { n = n + 1; printf("old %d\n", n); } return 0; }
new 88
int n; int main(void) { while (n < 4) { n = n + 1; printf("new %d\n", n); } return 0; }
map 1
 end
"#, "at 212: not canonical"),
];

fn refused(alloc: Global, file: &str) -> Result<String, AllocError> {
    let files = [("c1", C1), ("p", file)];
    let call = Call {
        words: "run c1 --patch p --at 5 --history h",
        files: &files,
        faults: Faults::NONE,
    };
    called(alloc, &Upstare, &call, Shown::All)
}

fn differing_files(alloc: Global) -> Result<String, AllocError> {
    let mut differing = String::new(alloc);
    for (name, file, place) in ROWS {
        let wanted = format!(in alloc; "err: patch p {place}\nstatus 3\n")?;
        compare(&mut differing, name, &wanted, &refused(alloc, file)?)?;
    }
    Ok(differing)
}

#[test]
fn other_bytes_are_refused(rt: HostRuntime) -> Result<(), RowsDiffer> {
    judged(differing_files(rt.alloc()))
}
