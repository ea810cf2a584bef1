//! What became of the last frame.

ghost use Rattle.std.specs.Prelude.{◌≡◌, IfOk, OnOk};
ghost use Rattle.stack_map.specs.Moved.{Tells};

use crate::frame_map::FrameMap;
use crate::parts::{Part, parts_at};
use c_tree::Row;
use std::alloc::{AllocError, Global};

/// The parts that frames at one place of an old function become, kept for the next frame: stacks
/// often hold many frames at one place.
#[derive(Drop)]
pub struct Known {
    /// The old function.
    pub function: u32,
    pub place: u32,
    /// What a frame there becomes; none where the place has no map.
    pub parts: Option<Row<Part>>,
}

impl Known {
    /// What becomes of a frame at a place of an old function.
    pub fn at(
        alloc: Global,
        m: &FrameMap<'_, '_>,
        function: u32,
        place: u32,
    ) -> Result<Known, AllocError>
        ensures at { IfOk result (λ known. (known.function ≡ function) × (known.place ≡ place)) }
        ensures tells { IfOk result (λ known. Tells m.now.link.now m.now.entries.now known) }
    {
        let parts = parts_at(alloc, m, function, place)?;
        Ok(Known {
            function,
            place,
            parts,
        })
    }

    /// Goes on to a place, which is often the same.
    pub fn turn(
        &mut self,
        alloc: Global,
        m: &FrameMap<'_, '_>,
        function: u32,
        place: u32,
    ) -> Result<(), AllocError>
        requires { Tells m.now.link.now m.now.entries.now self.old }
        ensures at { OnOk result ((self.new.function ≡ function) × (self.new.place ≡ place)) }
        ensures tells { OnOk result (Tells m.now.link.now m.now.entries.now self.new) }
    {
        if self.function == function && self.place == place {
            return Ok(());
        }
        *self = Known::at(alloc, m, function, place)?;
        Ok(())
    }
}
