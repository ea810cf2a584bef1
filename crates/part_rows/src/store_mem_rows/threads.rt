//! The threads that a memory knows.

use c_tree::{ThreadMark, Trap};
use std::alloc::AllocError;
use store_mem::{Store, StoreEnd};

fn put_marks(text: &mut String, name: &str, store: &Store) -> Result<(), AllocError> {
    text.push_str(name)?;
    let mut between = " ";
    for mark in store.threads().as_slice() {
        text.push_str(between)?;
        match mark {
            ThreadMark::Live => text.push_str("live")?,
            ThreadMark::Ended => text.push_str("ended")?,
            ThreadMark::Fresh(function, argument) => write!(text, "{function} with {argument}")?,
        }
        between = ", ";
    }
    text.push_str("\n")
}

/// How many threads were made when no other can be, where those that are made live on, and where
/// they end.
fn threads_made(store: &mut Store, end: bool) -> usize {
    for _ in 0..1001 {
        match store.spawn(0, 0) {
            Ok(t) => if end {
                store.end(t.cast_unsigned());
            },
            Err(StoreEnd::Trap(Trap::Threads)) => return store.threads().len(),
            Err(_) => return 0,
        }
    }
    0
}

/// Puts the threads of a memory as it starts, after each call, and as many as there can be.
pub fn put_threads(text: &mut String, store: &mut Store) -> Result<(), StoreEnd> {
    put_marks(text, "threads", store)?;
    let (first, second) = (store.spawn(3, 7)?, store.spawn(0, -1)?);
    write!(text, "made {first} {second}:")?;
    put_marks(text, "", store)?;
    store.forget();
    put_marks(text, "forgotten:", store)?;
    store.begin(1);
    store.forget();
    put_marks(text, "begun:", store)?;
    store.end(1);
    put_marks(text, "ended:", store)?;
    let live = threads_made(store, false);
    for t in 1..65 {
        store.end(t);
    }
    let all = threads_made(store, true);
    write!(text, "{live} made with 64 live, {all} made in all\n")?;
    Ok(())
}
