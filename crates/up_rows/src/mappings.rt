//! Mappings between two programs: the canonical text of each, or why it is refused.

mod data;
mod expressions;
mod matches;
mod points;
mod splits;
mod texts;

use crate::tool::Upstare;
use row_calls::{
    Call, Faults, Row, RowsDiffer, Shown, Trial, called, compare, differing_rows, judged, opened,
};
use std::alloc::{AllocError, Global};

const OLD: &str = r"
struct item { int value; struct item *next; };
struct bag { int size; };
int n;
int k;
int a[3];
struct item *head;
pthread_t t;
pthread_mutex_t m;
pthread_mutex_t l;
int add(int x, int y) { int r; r = x + y; return r; }
int sub(int x, int y) { return x - y; }
void *work(void *p) {
    pthread_mutex_lock(&m);
    n = n + 1;
    pthread_mutex_unlock(&m);
    return NULL;
}
void tick(void) { int i; while (n < 3) { int i; i = add(n, 1); n = i; } }
int main(void) {
    pthread_create(&t, NULL, work, NULL);
    tick();
    n = sub(n, 1);
    pthread_join(t, NULL);
    return n;
}
";

const NEW: &str = r"
struct item { int value; int weight; struct item *next; void *tag; };
struct box { int size; };
int n;
int total;
int a[5];
struct item *head;
struct box *top;
void *any;
pthread_t t;
pthread_mutex_t m;
pthread_mutex_t q;
int add(int x, int y) { int r; r = x + y; return r; }
int sub(int x, int y) { int d; d = x - y; return d; }
void *work(void *p) {
    int w;
    pthread_mutex_lock(&m);
    n = n + 2;
    pthread_mutex_unlock(&m);
    return NULL;
}
void *idle(void *p) { return p; }
void tick(void) {
    int i;
    int j;
    struct item *it;
    void *v;
    while (n < 4) { i = add(n, 1); n = i; }
    while (n < 5) { n = n + 1; }
}
int main(void) {
    pthread_create(&t, NULL, work, NULL);
    tick();
    n = add(n, 1);
    pthread_join(t, NULL);
    return n;
}
";

/// The patches from one program to another, by the mapping that is the text of a row.
#[derive(Clone, Copy)]
struct Mapped<'a> {
    old: &'a str,
    new: &'a str,
}

impl Mapped<'_> {
    /// The file of the patch with a canonical mapping.
    fn file_of(&self, alloc: Global, canonical: &str) -> Result<String, AllocError> {
        let (old, new) = (opened(self.old), opened(self.new));
        let (old_len, new_len) = (old.len(), new.len());
        let len = canonical.len();
        format!(in alloc;
            "upstare-patch 2\nold {old_len}\n{old}new {new_len}\n{new}map {len}\n{canonical}end\n"
        )
    }

    /// What the call comes to that makes a patch with a canonical mapping.
    fn patched(&self, alloc: Global, canonical: &str) -> Result<String, AllocError> {
        let file = self.file_of(alloc, canonical)?;
        let bytes = file.len();
        format!(in alloc; "ok bytes {bytes}\nstatus 0\nfile p\n{file}")
    }

    /// What a call comes to that has this answer: the line of the refusal, or the canonical text,
    /// which is `same` where it is the mapping itself and a newline behind it.
    fn wanted_of(&self, alloc: Global, row: &Row<'_>) -> Result<String, AllocError> {
        if row.answer.starts_with("map m ") {
            return format!(in alloc; "err: {}\nstatus 3\n", row.answer);
        }
        if row.answer.is_empty() {
            return self.patched(alloc, "");
        }
        let canonical = if row.answer == "same" {
            row.text
        } else {
            row.answer
        };
        let lines = format!(in alloc; "{canonical}\n")?;
        self.patched(alloc, &lines)
    }

    /// What the call comes to that makes a patch by this mapping.
    fn made(&self, alloc: Global, mapping: &str) -> Result<String, AllocError> {
        let files = [("old.c", self.old), ("new.c", self.new), ("m", mapping)];
        let call = Call {
            words: "patch old.c new.c m -o p",
            files: &files,
            faults: Faults::NONE,
        };
        called(alloc, &Upstare, &call, Shown::All)
    }
}

impl Trial for Mapped<'_> {
    fn put(&self, differing: &mut String, alloc: Global, row: &Row<'_>) -> Result<(), AllocError> {
        let wanted = self.wanted_of(alloc, row)?;
        compare(differing, row.name, &wanted, &self.made(alloc, row.text)?)
    }
}

#[test]
fn mappings_are_canonical_or_refused(rt: HostRuntime) -> Result<(), RowsDiffer> {
    for table in [
        matches::ROWS,
        data::ROWS,
        points::ROWS,
        expressions::ROWS,
        texts::ROWS,
    ] {
        let mapped = Mapped { old: OLD, new: NEW };
        judged(differing_rows(rt.alloc(), &mapped, table))?;
    }
    Ok(())
}

#[test]
fn frames_are_split_or_refused(rt: HostRuntime) -> Result<(), RowsDiffer> {
    let mapped = Mapped {
        old: splits::OLD,
        new: splits::NEW,
    };
    judged(differing_rows(rt.alloc(), &mapped, splits::ROWS))
}
