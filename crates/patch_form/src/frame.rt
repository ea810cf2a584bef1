//! The texts of a patch file.

ghost use Rattle.std.specs.Prelude.{◌≡◌, ◌+◌, ◌<◌, ◌^◌, length};

use crate::format::Format;

/// A text of a file, and the offset at which it begins there.
#[derive(Clone, Copy)]
pub struct Part<'a> {
    /// The offset in the file, in bytes.
    pub at: usize,
    pub text: &'a [u8],
}

/// The format of a patch's file, and the texts that it holds.
#[derive(Clone, Copy)]
pub struct Frame<'a> {
    pub format: Format,
    /// The source of the old program.
    pub old: Part<'a>,
    /// The source of the new program.
    pub new: Part<'a>,
    /// The mapping between them.
    pub map: Part<'a>,
}

impl Part<'_> {
    /// The offset behind the text.
    pub fn end(&self) -> usize
        requires { self.now.at + length self.now.text.now < 2 ^ 64 }
        ensures { result ≡ self.now.at + length self.now.text.now }
    {
        self.at + self.text.len()
    }
}
