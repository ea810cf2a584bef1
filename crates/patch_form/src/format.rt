//! The formats of a patch file.

/// The format of a patch file, which its first line names.
#[derive(Clone, Copy, PartialEq, Eq)]
pub enum Format {
    /// Format 1: each frame of the old program becomes one frame of the new one.
    One,
    /// Format 2: a frame of the old program becomes one to four frames of the new one.
    Two,
}
