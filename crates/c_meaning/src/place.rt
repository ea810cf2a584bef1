//! Where a frame is, and where it goes on.

ghost use Rattle.std.specs.Prelude.{◌≡◌, map, slice_get};
ghost use Rattle.std.specs.Option.{option_map};
ghost use Rattle.c_tree.specs.Layout as layout;
ghost use Rattle.c_tree.specs.Step as spec;

use c_tree::{Follow, Frame, Lifted, Place, Places};

/// The place that follows, after a test the one for true.
pub fn then_of(follow: Follow) -> u32
    ensures { result ≡ spec.then_of follow }
{
    match follow {
        Follow::One(n) => n,
        Follow::Two(n, _) => n,
        Follow::Leaves => 0,
    }
}

/// The place that follows, after a test the one for false.
pub fn else_of(follow: Follow) -> u32
    ensures { result ≡ spec.else_of follow }
{
    match follow {
        Follow::One(n) => n,
        Follow::Two(_, n) => n,
        Follow::Leaves => 0,
    }
}

/// The place at which a frame stands; none behind the last place of its function.
pub fn place_of<'a>(program: &Lifted, places: &'a Places, frame: &Frame) -> Option<&'a Place>
    requires { places.now.functions ≡ map layout.places program.now.functions }
    ensures { option_map (λ r. r.now) result
        ≡ spec.place_in (slice_get program.now.functions frame.now.function) frame.now.place }
{
    match places.functions.as_slice().get(frame.function as usize) {
        Some(row) => row.as_slice().get(frame.place as usize),
        None => None,
    }
}
