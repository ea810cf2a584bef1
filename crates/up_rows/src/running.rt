//! Programs, and what they print and come to.

use crate::tool::Upstare;
use row_calls::{RowsDiffer, Shown, differing_sources, judged};

/// What `run` comes to over each source.
const ROWS: &str = r#"
=== output and status
int main(void){ printf("hi\n"); return 3; }
---
hi
err: end exit 3 steps 3 target - update none
status 0
=== a call
int n;
int add(int a, int b) { n = n + 1; return a + b; }
int main(void) {
    int r;
    r = add(2, 3);
    while (r > 4) { r = r - 1; }
    printf("%d %d\n", r, n);
    return r;
}
---
4 1
err: end exit 4 steps 11 target - update none
status 0
=== a sum that wraps
int main(void) {
    int a;
    a = 2147483647;
    a = a + 1;
    if (a < 0) { printf("%d\n", a); }
    return a - 1;
}
---
-2147483648
err: end exit 255 steps 6 target - update none
status 0
=== continue in a for
int main(void) {
    int s = 0;
    for (int i = 0; i < 4; i++) { if (i == 2) continue; s += i; }
    printf("%d\n", s);
    return 0;
}
---
4
err: end exit 0 steps 25 target - update none
status 0
=== a program that never ends stops at the limit
int main(void) { while (1) { } return 0; }
---
err: end limit steps 1000000 target - update none
status 8
=== a quotient that has no int
int main(void) { int a; a = 2147483647; a = a + 1; printf("%d\n", a); return a / -1; }
---
-2147483648
err: end trap divide thread 0 steps 5 target - update none
status 6
=== a shift by 32
int main(void) { return 1 << 32; }
---
err: end trap shift thread 0 steps 2 target - update none
status 6
=== a quotient by 0
int main(void) { return 1 / 0; }
---
err: end trap divide thread 0 steps 2 target - update none
status 6
=== a remainder by 0
int main(void) { return 1 % 0; }
---
err: end trap divide thread 0 steps 2 target - update none
status 6
"#;

#[test]
fn programs_run_to_their_end(rt: HostRuntime) -> Result<(), RowsDiffer> {
    judged(differing_sources(rt.alloc(), &Upstare, "run a.c", Shown::All, ROWS))
}
