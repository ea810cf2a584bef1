//! The frames of all threads.

ghost use Rattle.std.specs.Prelude.{◌≡◌, ◌++◌, ◌∷◌, [], IfOk, MatchResult, OnOk, Ok};
ghost use Rattle.c_tree.specs.Refusal.{first_some};
ghost use Rattle.c_tree.specs.Update as spec;
ghost use Rattle.stack_map.specs.Refusal.{IsRefusal};
ghost use Rattle.stack_map.specs.Moved as moved;

use crate::end::MapEnd;
use crate::frame_map::FrameMap;
use crate::frames::map_frames;
use crate::known::Known;
use crate::stack::{deep_stack, unmapped_frame};
use c_tree::{Frame, Reason, Row, State, narrowed};
use std::alloc::{AllocError, Global};

/// The reason against the first frame of a thread that has no map; one that has ended has no
/// frames.
fn unmapped_in(
    m: &FrameMap<'_, '_>,
    number: usize,
    thread: &Option<Row<Frame>>,
) -> Result<Option<Reason>, AllocError>
    ensures { IfOk result (λ r. r
        ≡ spec.thread_unmapped m.now.link.now m.now.entries.now number thread.now) }
{
    match thread {
        Some(frames) => unmapped_frame(m, narrowed(number)?, frames.as_slice()),
        None => Ok(None),
    }
}

/// The reason against the first frame that has no map, of the first thread that has such a frame.
/// Nothing is made. More than 4,294,967,296 threads, or frames of a thread, count as want of
/// memory.
pub fn unmapped(
    m: &FrameMap<'_, '_>,
    threads: &[Option<Row<Frame>>],
) -> Result<Option<Reason>, AllocError>
    ensures { IfOk result (λ r. r
        ≡ first_some (spec.all_unmapped m.now.link.now m.now.entries.now 0 threads.now)) }
{
    for t in 0..threads.len() {
        if let Some(reason) = unmapped_in(m, t, &threads[t])? {
            return Ok(Some(reason));
        }
    }
    Ok(None)
}

/// The reason against a thread whose new stack is too deep; one that has ended has no frames.
fn deep_in(
    m: &FrameMap<'_, '_>,
    number: usize,
    thread: &Option<Row<Frame>>,
) -> Result<Option<Reason>, AllocError>
    ensures { IfOk result (λ r. r
        ≡ spec.thread_deep m.now.link.now m.now.entries.now number thread.now) }
{
    match thread {
        Some(frames) => Ok(deep_stack(m, narrowed(number)?, frames.as_slice())),
        None => Ok(None),
    }
}

/// The reason against the first thread whose new frames would be more than a thread may have. The
/// parts of its frames are counted, and nothing is made. More than 4,294,967,296 threads count as
/// want of memory.
pub fn deep(
    m: &FrameMap<'_, '_>,
    threads: &[Option<Row<Frame>>],
) -> Result<Option<Reason>, AllocError>
    ensures { IfOk result (λ r. r
        ≡ first_some (spec.all_deep m.now.link.now m.now.entries.now 0 threads.now)) }
{
    for t in 0..threads.len() {
        if let Some(reason) = deep_in(m, t, &threads[t])? {
            return Ok(Some(reason));
        }
    }
    Ok(None)
}

/// The new frames of one thread; one that has ended stays ended.
fn map_thread(
    alloc: Global,
    m: &FrameMap<'_, '_>,
    known: &mut Known,
    state: &State,
    number: usize,
    thread: &Option<Row<Frame>>,
) -> Result<Option<Row<Frame>>, MapEnd>
    requires { moved.Tells m.now.link.now m.now.entries.now known.old }
    ensures maps { let wanted = spec.map_thread m.now.link.now m.now.entries.now state.now number
        thread.now in
        MatchResult result (λ o. wanted ≡ Ok o) (IsRefusal wanted) }
    ensures tells { OnOk result (moved.Tells m.now.link.now m.now.entries.now known.new) }
{
    let frames = match thread {
        Some(frames) => frames,
        None => return Ok(None),
    };
    let number = match narrowed(number) {
        Ok(number) => number,
        Err(e) => return Err(MapEnd::Memory(e)),
    };
    match map_frames(alloc, m, known, state, number, frames.as_slice()) {
        Ok(made) => Ok(Some(made)),
        Err(end) => Err(end),
    }
}

fn put(made: &mut Vec<Option<Row<Frame>>>, thread: Option<Row<Frame>>) -> Result<(), AllocError>
    ensures { OnOk result (made.new.items ≡ made.old.items ++ thread ∷ []) }
{
    made.push(thread)?;
    Ok(())
}

/// The new frames of all threads, beside what is known of a place.
fn threads_from(
    alloc: Global,
    m: &FrameMap<'_, '_>,
    known: &mut Known,
    state: &State,
) -> Result<Row<Option<Row<Frame>>>, MapEnd>
    requires { moved.Tells m.now.link.now m.now.entries.now known.old }
    ensures { let wanted = spec.map_threads m.now.link.now m.now.entries.now state.now 0
        state.now.threads in
        MatchResult result (λ os. wanted ≡ Ok os) (IsRefusal wanted) }
{
    let threads = state.threads.as_slice();
    let mut made = Vec::new(alloc);
    for t in 0..threads.len() {
        match map_thread(alloc, m, known, state, t, &threads[t]) {
            Ok(thread) => match put(&mut made, thread) {
                Ok(()) => {}
                Err(e) => return Err(MapEnd::Memory(e)),
            },
            Err(end) => return Err(end),
        }
    }
    Ok(Row::from_vec(made))
}

/// The new frames of all threads of a state; a thread that has ended stays ended. Refused is the
/// first frame that has no map or a slot that traps. More than 4,294,967,296 threads, or frames of
/// a thread, count as want of memory.
pub fn map_threads(
    alloc: Global,
    m: &FrameMap<'_, '_>,
    state: &State,
) -> Result<Row<Option<Row<Frame>>>, MapEnd>
    ensures { let wanted = spec.map_threads m.now.link.now m.now.entries.now state.now 0
        state.now.threads in
        MatchResult result (λ os. wanted ≡ Ok os) (IsRefusal wanted) }
{
    // Any place will do to begin with.
    match Known::at(alloc, m, 0, 0) {
        Ok(mut known) => threads_from(alloc, m, &mut known, state),
        Err(e) => Err(MapEnd::Memory(e)),
    }
}
