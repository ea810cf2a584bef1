//! The frames of one thread.

ghost use Rattle.std.specs.Prelude.{◌≡◌, IfOk, MatchResult, Ok};
ghost use Rattle.c_tree.specs.MapStack as spec;
ghost use Rattle.stack_map.specs.Refusal.{IsRefusal};

use crate::end::MapEnd;
use crate::frame_map::FrameMap;
use crate::frames::map_frames;
use crate::known::Known;
use crate::parts::{count_at, has_map};
use c_tree::{Frame, Reason, Row, State, narrowed};
use std::alloc::{AllocError, Global};

/// How many frames a thread may have.
const MAX_FRAMES: usize = 10_000;

/// The reason against the first frame of a thread that has no map.
pub fn unmapped_frame(
    m: &FrameMap<'_, '_>,
    thread: u32,
    frames: &[Frame],
) -> Result<Option<Reason>, AllocError>
    ensures { IfOk result (λ r. r
        ≡ spec.unmapped m.now.link.now m.now.entries.now thread 0 frames.now) }
{
    for i in 0..frames.len() {
        if !has_map(m, frames[i].function, frames[i].place) {
            return Ok(Some(Reason::Unmapped(thread, narrowed(i)?)));
        }
    }
    Ok(None)
}

/// The reason against a thread whose new frames are more than a thread may have. Nothing is made.
pub fn deep_stack(m: &FrameMap<'_, '_>, thread: u32, frames: &[Frame]) -> Option<Reason>
    ensures { result ≡ spec.too_deep m.now.link.now m.now.entries.now thread frames.now }
{
    let mut depth = 0usize;
    for i in 0..frames.len() {
        let count = count_at(m, frames[i].function, frames[i].place);
        if count > MAX_FRAMES - depth {
            return Some(Reason::Depth(thread));
        }
        depth += count;
    }
    None
}

/// The new frames of an old thread, outermost first, as its old ones. Refused is the first frame
/// that has no map, else a new stack that is too deep, else the first slot that traps. More than
/// 4,294,967,296 frames count as want of memory.
pub fn map_stack(
    alloc: Global,
    m: &FrameMap<'_, '_>,
    state: &State,
    thread: u32,
    frames: &[Frame],
) -> Result<Row<Frame>, MapEnd>
    ensures { let wanted = spec.map_stack m.now.link.now m.now.entries.now state.now thread
        frames.now in
        MatchResult result (λ fs. wanted ≡ Ok fs) (IsRefusal wanted) }
{
    match unmapped_frame(m, thread, frames) {
        Ok(None) => {}
        Ok(Some(reason)) => return Err(MapEnd::Refused(reason)),
        Err(e) => return Err(MapEnd::Memory(e)),
    }
    if let Some(reason) = deep_stack(m, thread, frames) {
        return Err(MapEnd::Refused(reason));
    }
    // Any place will do to begin with.
    match Known::at(alloc, m, 0, 0) {
        Ok(mut known) => map_frames(alloc, m, &mut known, state, thread, frames),
        Err(e) => Err(MapEnd::Memory(e)),
    }
}
