//! Programs that use the heap and arrays, and how each trap of theirs stops them.

use crate::tool::Upstare;
use row_calls::{
    Repeated, RowsDiffer, Shown, called_on, compare, differing_sources, judged, text_of,
};
use std::alloc::{AllocError, Global};

/// What a long run comes to over each source.
const ROWS: &str = r#"
=== a field of NULL
struct s { int x; };
int main(void) { struct s *p; p->x = 1; return 0; }
---
err: end trap null thread 0 steps 2 target - update none
status 6
=== a field of a freed object
struct s { int x; };
int main(void) {
    struct s *p;
    p = malloc(sizeof(struct s));
    free(p);
    return p->x;
}
---
err: end trap freed thread 0 steps 4 target - update none
status 6
=== freed twice
struct s { int x; };
int main(void) {
    struct s *p;
    p = malloc(sizeof(struct s));
    free(p);
    free(p);
    return 0;
}
---
err: end trap freed thread 0 steps 4 target - update none
status 6
=== NULL can be freed
struct s { int x; };
int main(void) { struct s *p; free(p); free(NULL); return 3; }
---
err: end exit 3 steps 4 target - update none
status 0
=== a field of another struct
struct s { int x; };
struct t { int y; };
int main(void) {
    void *v;
    struct t *q;
    v = malloc(sizeof(struct s));
    q = v;
    return q->y;
}
---
err: end trap struct thread 0 steps 4 target - update none
status 6
=== an index at the length
int a[3];
int main(void) { int i = 3; a[2] = 7; a[i] = 1; return 0; }
---
err: end trap bounds thread 0 steps 4 target - update none
status 6
=== an index below 0
int a[3];
int main(void) { int i = -1; return a[i]; }
---
err: end trap bounds thread 0 steps 3 target - update none
status 6
=== one frame more than there may be
int down(int k) {
    int r;
    if (k == 0) { return 0; }
    r = down(k - 1);
    return r + 1;
}
int main(void) { printf("%d\n", down(9999)); return 0; }
---
err: end trap frames thread 0 steps 29999 target - update none
status 6
=== a list from which an object is freed
struct s { int x; struct s *next; };
struct s *head;
int main(void) {
    for (int i = 0; i < 3; i++) {
        struct s *n = malloc(sizeof(struct s));
        n->x = i;
        n->next = head;
        head = n;
    }
    free(head->next);
    printf("%d %d\n", head->x, head->next == NULL);
    head = head->next;
    return head->x;
}
---
2 0
err: end trap freed thread 0 steps 28 target - update none
status 6
"#;

#[test]
fn each_trap_of_memory_stops_a_program(rt: HostRuntime) -> Result<(), RowsDiffer> {
    let words = "run a.c --steps 10000000";
    judged(differing_sources(rt.alloc(), &Upstare, words, Shown::All, ROWS))
}

/// A run of some millions of steps, apart from the others for its time.
const MANY_OBJECTS: &str = r"
=== one object more than there may be
struct s { int x; struct s *next; };
int main(void) {
    struct s *p;
    while (1) { p = malloc(sizeof(struct s)); }
    return 0;
}
---
err: end trap objects thread 0 steps 3000003 target - update none
status 6
";

#[test]
fn a_program_makes_a_million_objects(rt: HostRuntime) -> Result<(), RowsDiffer> {
    let words = "run a.c --steps 10000000";
    judged(differing_sources(rt.alloc(), &Upstare, words, Shown::All, MANY_OBJECTS))
}

const TALKING: &str = r#"
int main(void) {
    while (1) {
        printf("0123456789012345678901234567890123456789012345678901234567890\n");
    }
    return 0;
}
"#;

/// As many lines as the output of a program may have, and the end of the run.
const ALL_LINES: Repeated<'static> = Repeated {
    before: "",
    piece: "0123456789012345678901234567890123456789012345678901234567890\n",
    count: 67650,
    is_numbered: false,
    behind: "",
    after: "err: end trap output thread 0 steps 202953 target - update none\nstatus 6\n",
};

fn differing_output(alloc: Global) -> Result<String, AllocError> {
    let mut differing = String::new(alloc);
    let wanted = text_of(alloc, &ALL_LINES)?;
    let got = called_on(alloc, &Upstare, "run a.c", TALKING, Shown::All)?;
    compare(&mut differing, "output past its limit", &wanted, &got)?;
    Ok(differing)
}

#[test]
fn a_line_past_the_limit_of_output_is_left_out(rt: HostRuntime) -> Result<(), RowsDiffer> {
    judged(differing_output(rt.alloc()))
}
