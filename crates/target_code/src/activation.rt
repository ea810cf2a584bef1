//! What a thread of the target machine keeps.

use c_tree::Row;

/// What a thread does with its frames.
#[derive(Clone, Copy)]
pub enum Mode {
    /// It runs the program.
    Running,
    /// It saves its frames, the innermost first.
    Unwinding,
    /// All of its frames are saved, and it has no activation.
    Saved,
    /// It loads the saved frames, the outermost first.
    Rebuilding,
}

/// A call that has not returned: its function, the position of its next instruction, and the
/// values of its slots.
#[derive(Drop)]
pub struct Activation {
    pub function: u32,
    pub pc: u32,
    pub slots: Row<i32>,
}

/// The function and the position of an activation, and how many slots it has.
#[derive(Clone, Copy)]
pub struct FrameInfo {
    pub function: u32,
    pub pc: u32,
    pub slots: u32,
}
