//! What an expression of a mapping may read.

/// What an expression of a mapping reads beside the old globals.
#[derive(Clone, Copy, PartialEq, Eq)]
pub enum Reads {
    Nothing,
    /// The slots of an old function.
    Slots(u32),
    /// The fields of an old struct.
    Fields(u32),
}
