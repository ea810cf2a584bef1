//! The new frames of old ones.

ghost use Rattle.std.specs.Prelude.{◌≡◌, ◌+◌, ◌++◌, ◌∷◌, [], List, IfOk, MatchResult, OnOk, Ok, length, map};
ghost use Rattle.c_tree.specs.MapStack as spec;
ghost use Rattle.c_tree.specs.Step.{view_of};
ghost use Rattle.stack_map.specs.Added.{after};
ghost use Rattle.stack_map.specs.Filled.{because};
ghost use Rattle.stack_map.specs.Refusal.{IsRefusal};
ghost use Rattle.stack_map.specs.Moved as moved;

use crate::end::MapEnd;
use crate::frame_map::FrameMap;
use crate::known::Known;
use crate::parts::Part;
use crate::values::{Whose, filled};
use c_tree::{Frame, Reason, Row, State, narrowed};
use std::alloc::{AllocError, Global};

/// The number of the slot behind those of a part, of which the first has number `first`.
fn next_slot(first: u32, part: &Part) -> Result<u32, AllocError>
    ensures { IfOk result (λ n. n ≡ first + length part.now.fillings) }
{
    match first.checked_add(narrowed(part.fillings.len())?) {
        Some(next) => Ok(next),
        None => Err(AllocError),
    }
}

fn put(made: &mut Vec<Frame>, frame: Frame) -> Result<(), AllocError>
    ensures { OnOk result (made.new.items ≡ made.old.items ++ frame ∷ []) }
{
    made.push(frame)?;
    Ok(())
}

/// Adds the frame that a part makes of an old frame, whose slots are filled in the old state. The
/// first slot has number `first` among those of all parts; given is the number behind the last.
fn add_part(
    alloc: Global,
    made: &mut Vec<Frame>,
    part: &Part,
    first: u32,
    state: &State,
    whose: Whose,
    frame: &Frame,
) -> Result<u32, MapEnd>
    ensures { let wanted = spec.part_frames (view_of state.now frame.now) (because whose) first
        (moved.part part.now ∷ []) in
        MatchResult result
        (λ next. (next ≡ first + length part.now.fillings)
        × (after made.old.items wanted ≡ Ok made.new.items))
        (IsRefusal wanted) }
{
    let next = match next_slot(first, part) {
        Ok(next) => next,
        Err(e) => return Err(MapEnd::Memory(e)),
    };
    let fillings = part.fillings.as_slice();
    let slots = match filled(
        alloc,
        fillings,
        first,
        frame.slots.as_slice(),
        &[],
        state,
        whose,
    ) {
        Ok(slots) => slots,
        Err(end) => return Err(end),
    };
    let new = Frame {
        function: part.function,
        place: part.place,
        slots,
    };
    match put(made, new) {
        Ok(()) => Ok(next),
        Err(e) => Err(MapEnd::Memory(e)),
    }
}

/// Adds the frames that the parts of an old frame make of it.
fn add_parts(
    alloc: Global,
    made: &mut Vec<Frame>,
    parts: &[Part],
    state: &State,
    whose: Whose,
    frame: &Frame,
) -> Result<(), MapEnd>
    ensures { let wanted = spec.part_frames (view_of state.now frame.now) (because whose) 0
        (map moved.part parts.now) in
        MatchResult result (λ u. after made.old.items wanted ≡ Ok made.new.items)
        (IsRefusal wanted) }
{
    let mut first = 0u32;
    for part in parts {
        first = match add_part(alloc, made, part, first, state, whose, frame) {
            Ok(next) => next,
            Err(end) => return Err(end),
        };
    }
    Ok(())
}

/// Adds the new frames of an old one.
fn map_frame(
    alloc: Global,
    m: &FrameMap<'_, '_>,
    known: &mut Known,
    made: &mut Vec<Frame>,
    state: &State,
    whose: (u32, usize),
    frame: &Frame,
) -> Result<(), MapEnd>
    requires { moved.Tells m.now.link.now m.now.entries.now known.old }
    ensures maps { let wanted = spec.map_frame m.now.link.now m.now.entries.now state.now whose.0
        whose.1 frame.now in
        MatchResult result (λ u. after made.old.items wanted ≡ Ok made.new.items)
        (IsRefusal wanted) }
    ensures tells { OnOk result (moved.Tells m.now.link.now m.now.entries.now known.new) }
{
    let (thread, number) = whose;
    let number = match narrowed(number) {
        Ok(number) => number,
        Err(e) => return Err(MapEnd::Memory(e)),
    };
    match known.turn(alloc, m, frame.function, frame.place) {
        Ok(()) => {}
        Err(e) => return Err(MapEnd::Memory(e)),
    }
    match &known.parts {
        Some(parts) => {
            let whose = Whose::Frame(thread, number);
            add_parts(alloc, made, parts.as_slice(), state, whose, frame)
        }
        None => Err(MapEnd::Refused(Reason::Unmapped(thread, number))),
    }
}

/// The new frames of old ones, or the reason of the first that has none.
pub fn map_frames(
    alloc: Global,
    m: &FrameMap<'_, '_>,
    known: &mut Known,
    state: &State,
    thread: u32,
    frames: &[Frame],
) -> Result<Row<Frame>, MapEnd>
    requires { moved.Tells m.now.link.now m.now.entries.now known.old }
    ensures maps { let wanted = spec.map_frames m.now.link.now m.now.entries.now state.now thread 0
        frames.now in
        MatchResult result (λ fs. wanted ≡ Ok fs) (IsRefusal wanted) }
    ensures tells { OnOk result (moved.Tells m.now.link.now m.now.entries.now known.new) }
{
    let mut made = Vec::new(alloc);
    for i in 0..frames.len() {
        match map_frame(alloc, m, known, &mut made, state, (thread, i), &frames[i]) {
            Ok(()) => {}
            Err(end) => return Err(end),
        }
    }
    Ok(Row::from_vec(made))
}
