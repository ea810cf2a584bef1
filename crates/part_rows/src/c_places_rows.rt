//! Places and points, numbered by hand.

use crate::programs::program_of;
use c_places::{keeps_limit, places, points_text};
use c_tree::{Follow, Lifted, PlaceKind, Places};
use row_calls::{RowsDiffer, compare, judged};
use std::alloc::{AllocError, Global};
use tree_texts::{kind_word, word};

const SOURCE: &str = r"
pthread_mutex_t m;
int counts(void) { int i; int j; while (i) { i = 1; j = 1; } return 0; }
void skips(void) {
    int i;
    int j;
    i = 1;
    for (j = 1; i; j = 1) { if (j) continue; i = 1; }
    return;
}
void waits(void) {
    pthread_t t;
    int i;
    pthread_mutex_lock(&m);
    while (counts()) { while (i) break; pthread_join(t, NULL); }
    pthread_mutex_unlock(&m);
    counts();
}
int main(void) { waits(); return 0; }
";

/// The function, the place, its kind, its number among those of the kind, and what follows.
const PLACE_LINES: &str = r"
0 0 entry 1 then 1
0 1 plain 1 then 2 or 5
0 2 plain 2 then 3
0 3 plain 3 then 4
0 4 loop 1 then 1
0 5 plain 4 leaves
0 6 plain 5 leaves
1 0 entry 1 then 1
1 1 plain 1 then 2
1 2 plain 2 then 3
1 3 plain 3 then 4 or 8
1 4 plain 4 then 6 or 5
1 5 plain 5 then 6
1 6 plain 6 then 7
1 7 loop 1 then 3
1 8 plain 7 leaves
1 9 plain 8 leaves
2 0 entry 1 then 1
2 1 block 1 then 2
2 2 call 1 then 3
2 3 plain 1 then 4 or 8
2 4 plain 2 then 6 or 6
2 5 loop 1 then 4
2 6 block 2 then 7
2 7 loop 2 then 2
2 8 plain 3 then 9
2 9 call 2 then 10
2 10 plain 4 leaves
3 0 entry 1 then 1
3 1 call 1 then 2
3 2 plain 1 leaves
3 3 plain 2 leaves
";

const POINT_LINES: &str = r"
counts entry 0
counts loop 1 4
skips entry 0
skips loop 1 7
waits entry 0
waits block 1 1
waits call 1 2
waits loop 1 5
waits block 2 6
waits loop 2 7
waits call 2 9
main entry 0
main call 1 1
";

fn put_follow(text: &mut String, follow: Follow) -> Result<(), AllocError> {
    match follow {
        Follow::One(n) => write!(text, "then {n}\n"),
        Follow::Two(yes, no) => write!(text, "then {yes} or {no}\n"),
        Follow::Leaves => text.push_str("leaves\n"),
    }
}

/// A place, and another line where its kind and its number don't lead back to it.
fn put_place(text: &mut String, places: &Places, f: u32, n: u32) -> Result<(), AllocError> {
    if f as usize >= places.functions.len() || n >= places.count(f) {
        return Ok(());
    }
    let kind = places.kind(f, n);
    let number = places.number(f, n);
    let called = kind_word(kind);
    write!(text, "{f} {n} {called} {number} ")?;
    put_follow(text, places.follow(f, n))?;
    if places.find(f, kind, number) != Some(n) {
        text.push_str("and is not found\n")?;
    }
    Ok(())
}

/// A line where a loop is found under a number that no loop has.
fn put_no_loops(text: &mut String, places: &Places, f: u32) -> Result<(), AllocError> {
    if f as usize >= places.functions.len() {
        return Ok(());
    }
    for number in [0, 3] {
        if places.find(f, PlaceKind::LoopEnd, number).is_some() {
            write!(text, "{f} has a loop {number}\n")?;
        }
    }
    Ok(())
}

/// The places of all functions, and how many functions there are.
fn places_told(alloc: Global, places: &Places) -> Result<String, AllocError> {
    let mut text = String::new(alloc);
    for f in 0..4 {
        for n in 0..11 {
            put_place(&mut text, places, f, n)?;
        }
        put_no_loops(&mut text, places, f)?;
    }
    Ok(text)
}

/// The places and the points of a program.
fn put_program(differing: &mut String, alloc: Global, program: &Lifted) -> Result<(), AllocError> {
    if !keeps_limit(program) {
        return Ok(());
    }
    let places = places(alloc, program)?;
    compare(
        differing,
        "places",
        PLACE_LINES,
        &places_told(alloc, &places)?,
    )?;
    let points = points_text(alloc, program, &places)?;
    compare(differing, "points", POINT_LINES, word(&points))
}

fn differing_places(alloc: Global) -> Result<String, AllocError> {
    let mut differing = String::new(alloc);
    match program_of(alloc, SOURCE)? {
        Some(program) if keeps_limit(&program) => put_program(&mut differing, alloc, &program)?,
        _ => differing.push_str("the source is refused")?,
    }
    Ok(differing)
}

#[test]
fn places_are_numbered(rt: HostRuntime) -> Result<(), RowsDiffer> {
    judged(differing_places(rt.alloc()))
}
