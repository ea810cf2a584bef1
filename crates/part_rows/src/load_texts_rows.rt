//! The texts of two functions, written out.

use load_texts::{mapping, mappings_are_short, new_source, old_source, request_at};
use row_calls::{RowsDiffer, compare, judged};
use std::alloc::{AllocError, Global};
use tree_texts::word;

const HEAD: &str = "int total; pthread_mutex_t m;\n";

const OLD_FUNCTIONS: &[&str] = &[
    "int f1(int x) { int i; i = 0; while (i < 3) { i = i + 1; x = x + 1; } ",
    "return x; }\n",
    "int f2(int x) { int i; i = 0; while (i < 3) { i = i + 1; x = x + 2; } ",
    "return f1(x); }\n",
];

const NEW_FUNCTIONS: &[&str] = &[
    "int f1(int x) { int i; int z; i = 0; while (i < 3) { i = i + 1; x = x + 1; } ",
    "return x; }\n",
    "int f2(int x) { int i; int z; i = 0; while (i < 3) { i = i + 1; x = x + 2; } ",
    "return f1(x); }\n",
];

const THREADS: &[&str] = &[
    "void *work(void *a) { int r; r = f2(0); ",
    "pthread_mutex_lock(&m); total = total + r; pthread_mutex_unlock(&m); return NULL; }\n",
    "int main(void) { pthread_t a; pthread_t b; pthread_t c; pthread_t d; ",
    "pthread_create(&a, NULL, work, NULL); ",
    "pthread_create(&b, NULL, work, NULL); ",
    "pthread_create(&c, NULL, work, NULL); ",
    "pthread_create(&d, NULL, work, NULL); ",
    "pthread_join(a, NULL); ",
    "pthread_join(b, NULL); ",
    "pthread_join(c, NULL); ",
    "pthread_join(d, NULL); ",
];

const OLD_END: &str = "printf(\"old total %d\\n\", total); return 0; }\n";

const NEW_END: &str = "printf(\"new total %d\\n\", total); return 0; }\n";

const MAPPING: &str = r"
point f1 entry -> entry;
point f1 loop 1 -> loop 1 { z = i * 1; };
point f2 entry -> entry;
point f2 loop 1 -> loop 1 { z = i * 2; };
point f2 call 1 -> call 1 { z = i * 2; };
point main entry -> entry;
point main block 1 -> block 1;
point main block 2 -> block 2;
point main block 3 -> block 3;
point main block 4 -> block 4;
";

/// A source: its head, its functions, its threads and its end.
fn source(alloc: Global, functions: &[&str], end: &str) -> Result<String, AllocError> {
    let mut text = String::from_str(alloc, HEAD)?;
    for piece in functions {
        text.push_str(piece)?;
    }
    for piece in THREADS {
        text.push_str(piece)?;
    }
    text.push_str(end)?;
    Ok(text)
}

fn differing_rows(alloc: Global) -> Result<String, AllocError> {
    let mut differing = String::new(alloc);
    let old = source(alloc, OLD_FUNCTIONS, OLD_END)?;
    compare(
        &mut differing,
        "the old source",
        &old,
        word(&old_source(alloc, 2)?),
    )?;
    let new = source(alloc, NEW_FUNCTIONS, NEW_END)?;
    compare(
        &mut differing,
        "the new source",
        &new,
        word(&new_source(alloc, 2)?),
    )?;
    compare(
        &mut differing,
        "the mapping",
        MAPPING,
        word(&mapping(alloc, 2)?),
    )?;
    let at = format!(in alloc; "{}", request_at(1000))?;
    compare(&mut differing, "the request", "34000", &at)?;
    Ok(differing)
}

#[test]
fn the_texts_of_two_functions(rt: HostRuntime) -> Result<(), RowsDiffer> {
    mappings_are_short();
    judged(differing_rows(rt.alloc()))
}
