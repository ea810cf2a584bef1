//! What a refusal names in the old state.

ghost use Rattle.std.specs.Prelude.{◌≡◌, ◌+◌};
ghost use Rattle.plain_run.specs.Named as spec;

use c_tree::{Reason, State};

/// The function and the place of a frame; zeroes where there is none.
fn place_of_frame(state: &State, t: u32, f: u32) -> (u32, u32)
    ensures { result ≡ spec.place_of_frame state.now t f }
{
    match state.threads.as_slice().get(t as usize) {
        Some(Some(frames)) => match frames.as_slice().get(f as usize) {
            Some(frame) => (frame.function, frame.place),
            None => (0, 0),
        },
        _ => (0, 0),
    }
}

/// The struct of the object at an index; 0 where no object lives there.
fn owner_at(state: &State, i: u32) -> u32
    ensures { result ≡ spec.owner_of state.now (i + 1) }
{
    match state.heap.objects.as_slice().get(i as usize) {
        Some(Some(object)) => object.owner,
        _ => 0,
    }
}

/// The struct of the object of a number, from 1.
fn owner_of(state: &State, object: u32) -> u32
    ensures { result ≡ spec.owner_of state.now object }
{
    if object == 0 {
        return 0;
    }
    owner_at(state, object - 1)
}

/// What a reason names in the old state: of a frame its function and its place, of an object its
/// struct and 0; else zeroes.
pub fn named_in(state: &State, reason: Reason) -> (u32, u32)
    ensures { result ≡ spec.named_in state.now reason }
{
    match reason {
        Reason::Unmapped(t, f) => place_of_frame(state, t, f),
        Reason::Slot(t, f, _, _) => place_of_frame(state, t, f),
        Reason::Field(object, _, _) => (owner_of(state, object), 0),
        Reason::Held(_) => (0, 0),
        Reason::Removed(_) => (0, 0),
        Reason::Check(_, _) => (0, 0),
        Reason::Global(_, _) => (0, 0),
        Reason::Memory => (0, 0),
        Reason::Depth(_) => (0, 0),
    }
}
