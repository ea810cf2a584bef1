//! The marks of threads.

ghost use Rattle.std.specs.Prelude.{◌≡◌, ◌&&◌, ◌∷◌, [], IfOk, length, nat_lt, slice_set};
ghost use Rattle.c_tree.specs.declared.event.ThreadMark.TheVariants.{Live};
ghost use Rattle.c_tree.specs.Limits.{max_live, max_threads};
ghost use Rattle.store_mem.specs.Access as spec;

use c_tree::{Row, ThreadMark};
use std::alloc::{AllocError, Global};

/// How many threads may live at once.
const MAX_LIVE: usize = 64;

/// How many threads a program may make, the first among them.
const MAX_THREADS: usize = 1000;

/// The marks in which a program starts: thread 0 alone.
pub fn first(alloc: Global) -> Result<Row<ThreadMark>, AllocError>
    ensures { IfOk result (λ marks. marks ≡ Live ∷ []) }
{
    let mut marks = Vec::new(alloc);
    marks.push(ThreadMark::Live)?;
    Ok(Row::from_vec(marks))
}

fn is_live(mark: &ThreadMark) -> bool
    ensures { result ≡ spec.is_live_mark mark.now }
{
    match mark {
        ThreadMark::Live => true,
        ThreadMark::Ended => false,
        ThreadMark::Fresh(_, _) => true,
    }
}

fn live_count(marks: &[ThreadMark]) -> usize
    ensures { result ≡ spec.live_marks marks.now }
{
    marks.iter().filter(|mark| is_live(mark)).count()
}

/// Whether one more thread may be made.
pub fn has_room(marks: &[ThreadMark]) -> bool
    ensures { result
        ≡ (nat_lt (spec.live_marks marks.now) max_live && nat_lt (length marks.now) max_threads) }
{
    live_count(marks) < MAX_LIVE && marks.len() < MAX_THREADS
}

/// Sets the mark of a thread. Nothing changes where it isn't there.
pub fn set(marks: &mut Row<ThreadMark>, t: u32, mark: ThreadMark)
    ensures { marks.new ≡ slice_set marks.old t mark }
{
    if (t as usize) < marks.len() {
        marks.set(t as usize, mark);
    }
}

/// Drops the last mark, where its thread is still to begin.
pub fn forget(marks: &mut Row<ThreadMark>)
    ensures { marks.new ≡ spec.forgotten marks.old }
{
    if let Some(ThreadMark::Fresh(_, _)) = marks.as_slice().last() {
        let _ = marks.pop();
    }
}
