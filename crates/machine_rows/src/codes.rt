//! The codes of programs, worked out by hand from their sources.
//!
//! Each function is told with its parameters among its slots, then its instructions, a line for
//! each mark with its position, then the marks, and the calls with the positions of their `after`
//! and of their rebuilding part; behind the functions come the texts.

ghost use Rattle.c_places.specs.Limit.{KeepsLimit};
ghost use Rattle.c_tree.specs.Formed.{IsFormed};

use crate::instructions::put_instr;
use c_places::places;
use c_source::{SourceRefused, accepted};
use c_tree::Lifted;
use frame_transform::transform;
use lower::lower;
use row_calls::{Row, RowsDiffer, Trial, compare, differing_rows, judged};
use std::alloc::{AllocError, Global};
use target_code::{Code, CodeFunction, Instr};

const ROWS: &str = r#"
=== a loop with break and continue
int a[3];
int main(void) {
    int i;
    for (i = 0; i < 3; i = i + 1) {
        if (i == 1) continue;
        a[i] = ~i;
        if (a[i] && !i) { } else { break; }
    }
    printf("%d\n", a[i]);
    return 0;
}
---
function 0 of 1
0 restore
1 mark 0 flag 0
3 mark 1 const 0 set 0
6 mark 2 get 0 const 3 bin < jz 43
11 mark 3 get 0 const 1 bin == jz 17 jump 35
17 mark 4 get 0 get 0 un ~ aset 0
22 mark 5 get 0 aget 0 jz 31 get 0 un ! un ! un ! jump 32 const 0 jz 34 jump 35 jump 43
35 mark 6 get 0 const 1 bin + set 0
40 mark 7 flag 7 jump 6
43 mark 8 get 0 aget 0 print 0
47 mark 9 const 0 ret
50 mark 10 const 0 ret
marks 1 3 6 11 17 22 35 40 43 47 50
text %d\n
=== a loop whose test calls, left by break
int f(int x) { return x; }
int main(void) {
    int i;
    i = 3;
    while (f(i)) {
        i = i - 1;
        if (i == 1) break;
    }
    return i;
}
---
function 1 of 1
0 restore
1 mark 0 flag 0
3 mark 1 get 0 ret
6 mark 2 const 0 ret
marks 1 3 6
function 0 of 2
0 restore
1 mark 0 flag 0
3 mark 1 const 3 set 0
6 mark 2 get 0 call 0 after 2 1
10 mark 3 get 1 jz 27
13 mark 4 get 0 const 1 bin - set 0
18 mark 5 get 0 const 1 bin == jz 24 jump 27
24 mark 6 flag 6 jump 6
27 mark 7 get 0 ret
30 mark 8 const 0 ret const 0 call 0 jump 9
marks 1 3 6 10 13 18 24 27 30
call 2 after 9 rebuilt at 33
=== if and else
int g;
int main(void) {
    if (g) { g = 1; } else { g = -2; }
    return g;
}
---
function 0 of 0
0 restore
1 mark 0 flag 0
3 mark 1 gget 0 jz 10
6 mark 2 const 1 gset 0 jump 14
10 mark 3 const 2 un - gset 0
14 mark 4 gget 0 ret
17 mark 5 const 0 ret
marks 1 3 6 10 14 17
=== && and ||
int main(void) {
    int a;
    int b;
    a = 1;
    b = 0;
    return (a || b) && !b;
}
---
function 0 of 2
0 restore
1 mark 0 flag 0
3 mark 1 const 1 set 0
6 mark 2 const 0 set 1
9 mark 3 get 0 jz 14 const 1 jump 17 get 1 un ! un ! jz 23 get 1 un ! un ! un ! jump 24 const 0 ret
25 mark 4 const 0 ret
marks 1 3 6 9 25
=== a call with two arguments, and two texts
int add(int a, int b) { printf("add\n"); return a + b; }
int main(void) {
    printf("%d\n", add(2, 3));
    return 0;
}
---
function 2 of 2
0 restore
1 mark 0 flag 0
3 mark 1 print 0
5 mark 2 get 0 get 1 bin + ret
10 mark 3 const 0 ret
marks 1 3 5 10
function 0 of 1
0 restore
1 mark 0 flag 0
3 mark 1 const 2 const 3 call 0 after 1 0
8 mark 2 get 0 print 1
11 mark 3 const 0 ret
14 mark 4 const 0 ret const 0 const 0 call 0 jump 7
marks 1 3 8 11 14
call 1 after 7 rebuilt at 17
text add\n
text %d\n
=== threads and mutexes
pthread_mutex_t a;
pthread_mutex_t b;
void *w(void *x) {
    pthread_mutex_lock(&b);
    pthread_mutex_lock(&a);
    pthread_mutex_unlock(&a);
    pthread_mutex_unlock(&b);
    return NULL;
}
int main(void) {
    pthread_t t;
    pthread_create(&t, NULL, w, NULL);
    pthread_mutex_lock(&a);
    pthread_mutex_lock(&b);
    pthread_mutex_unlock(&b);
    pthread_mutex_unlock(&a);
    pthread_join(t, NULL);
    return 0;
}
---
function 1 of 1
0 restore
1 mark 0 flag 0
3 mark 1 flag 1 lock 1
6 mark 2 flag 2 lock 0
9 mark 3 unlock 0
11 mark 4 unlock 1
13 mark 5 const 0 ret
16 mark 6 const 0 ret
marks 1 3 6 9 11 13 16
function 0 of 1
0 restore
1 mark 0 flag 0
3 mark 1 const 0 spawn 0 set 0
7 mark 2 flag 2 lock 0
10 mark 3 flag 3 lock 1
13 mark 4 unlock 1
15 mark 5 unlock 0
17 mark 6 flag 6 get 0 join
21 mark 7 const 0 ret
24 mark 8 const 0 ret
marks 1 3 7 10 13 15 17 21 24
"#;

/// Adds the instructions of a function.
fn put_body(text: &mut String, body: &[Instr]) -> Result<(), AllocError> {
    for (at, instr) in body.iter().enumerate() {
        if matches!(instr, Instr::Restore | Instr::Mark(_)) {
            write!(text, "\n{at}")?;
        }
        put_instr(text, *instr)?;
    }
    Ok(())
}

fn put_marks(text: &mut String, marks: &[u32]) -> Result<(), AllocError> {
    text.push_str("\nmarks")?;
    for at in marks {
        write!(text, " {at}")?;
    }
    text.push_str("\n")
}

fn put_function(text: &mut String, function: &CodeFunction) -> Result<(), AllocError> {
    let (params, slots) = (function.params, function.slots);
    write!(text, "function {params} of {slots}")?;
    put_body(text, function.body.as_slice())?;
    put_marks(text, function.marks.as_slice())?;
    for call in function.calls.as_slice() {
        let (place, after, rebuild) = (call.place, call.after, call.rebuild);
        write!(text, "call {place} after {after} rebuilt at {rebuild}\n")?;
    }
    Ok(())
}

/// Adds a text, with its newlines as a source writes them.
fn put_printed(text: &mut String, printed: &[u8]) -> Result<(), AllocError> {
    text.push_str("text ")?;
    for part in std::str::from_utf8(printed).unwrap_or("no text").chars() {
        if part == '\n' {
            text.push_str("\\n")?;
        } else {
            text.push(part)?;
        }
    }
    text.push_str("\n")
}

fn put_code(text: &mut String, code: &Code) -> Result<(), AllocError> {
    for function in code.functions().as_slice() {
        put_function(text, function)?;
    }
    for printed in code.texts().as_slice() {
        put_printed(text, printed.as_bytes())?;
    }
    Ok(())
}

/// Adds the code of a program.
fn put_lowered(text: &mut String, alloc: Global, program: &Lifted) -> Result<(), AllocError>
    requires formed { IsFormed program.now }
    requires small { KeepsLimit program.now }
{
    let places = places(alloc, program)?;
    let target = transform(alloc, program, &places)?;
    put_code(text, &lower(alloc, &target)?)
}

/// Adds the code of the program of a source.
fn put_source(text: &mut String, alloc: Global, source: &str) -> Result<(), AllocError> {
    match accepted(alloc, source.as_bytes()) {
        Ok(program) => put_lowered(text, alloc, &program),
        Err(SourceRefused::At(_, _)) => text.push_str("the source is refused\n"),
        Err(SourceRefused::Memory(e)) => Err(e),
    }
}

struct Lowering;

impl Trial for Lowering {
    fn put(&self, differing: &mut String, alloc: Global, row: &Row<'_>) -> Result<(), AllocError> {
        let mut text = String::new(alloc);
        put_source(&mut text, alloc, row.text)?;
        compare(differing, row.name, row.answer, text.trim_end())
    }
}

#[test]
fn programs_have_these_codes(rt: HostRuntime) -> Result<(), RowsDiffer> {
    judged(differing_rows(rt.alloc(), &Lowering, ROWS))
}
