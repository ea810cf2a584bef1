//! Why bytes are no patch file.

/// Why bytes do not have the form of a patch's file.
#[derive(Clone, Copy, PartialEq, Eq)]
pub enum FrameFault {
    /// The bytes end before the file does.
    Short,
    /// No patch file goes on with the byte at this offset.
    BadHead(usize),
}
