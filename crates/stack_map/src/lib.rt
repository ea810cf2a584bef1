//! How the frames of old threads become those of new ones. The layer above asks
//! `unchanged_functions` once for an update and puts what it found into a `FrameMap`. It rests on
//! the contracts of `unmapped`, which gives the first frame without a map, of `deep`, which gives
//! the first thread whose new stack is too deep, and of `map_stack` and `map_threads`, which give
//! the new frames or the reason against them.
#![tactic(auto)]

mod carry;
mod end;
mod entries;
mod expr;
mod forms;
mod frame_map;
mod frames;
mod function;
mod known;
mod parts;
mod slots;
mod stack;
mod stmt;
mod threads;
mod values;

pub use carry::carried;
pub use end::{MapEnd, code};
pub use entries::{Declared, declared, declared_field, declared_init, declared_point};
pub use frame_map::FrameMap;
pub use function::{is_unchanged, unchanged_functions};
pub use stack::map_stack;
pub use threads::{deep, map_threads, unmapped};
pub use values::{Whose, filled};
