//! The first line of a patch file.

ghost use Rattle.std.specs.Prelude.{◌≡◌, ◌≤◌, ◌+◌, ◌++◌, ◌∷◌, length, drop, MatchResult};
ghost use Rattle.patch_form.specs.Framing.{digit, head};
ghost use Rattle.patch_form.specs.Parts.{IsDigit, IsHead, IsFaultOf};

use crate::fault::FrameFault;
use crate::format::Format;
use crate::word::take_word;

/// The first line of a file.
#[derive(Clone, Copy)]
pub struct Head {
    /// The format that the line names.
    pub format: Format,
    /// The offset behind the line.
    pub end: usize,
}

/// The format whose digit stands at an offset.
fn take_digit(bytes: &[u8], at: usize) -> Result<Format, FrameFault>
    requires { at ≤ length bytes.now }
    ensures { MatchResult result
        (λ f. (at + 1 ≤ length bytes.now)
        × (drop at bytes.now ≡ digit f ∷ drop (at + 1) bytes.now))
        (IsFaultOf IsDigit at (drop at bytes.now)) }
{
    match bytes.get(at) {
        None => Err(FrameFault::Short),
        Some(b'1') => Ok(Format::One),
        Some(b'2') => Ok(Format::Two),
        Some(_) => Err(FrameFault::BadHead(at)),
    }
}

/// The first line of the bytes.
pub fn take_head(bytes: &[u8]) -> Result<Head, FrameFault>
    ensures { MatchResult result
        (λ h. (h.end ≡ length (head h.format)) × (h.end ≤ length bytes.now)
        × (bytes.now ≡ head h.format ++ drop h.end bytes.now))
        (IsFaultOf IsHead 0 bytes.now) }
{
    let at = take_word(bytes, 0, b"upstare-patch ")?;
    let format = take_digit(bytes, at)?;
    let end = take_word(bytes, at + 1, b"\n")?;
    Ok(Head { format, end })
}
