//! The texts of a patch file.

ghost use Rattle.std.specs.Prelude.{◌≡◌, ◌≤◌, ◌<◌, ◌+◌, ◌↔◌, ◌++◌, ℕ, length, drop, IfOk, IsOk, MatchResult, Err};
ghost use Rattle.patch_form.specs.Framing.{number_line, IsFraming, IsCutShort, IsBadAt};
ghost use Rattle.patch_form.specs.Answer.{IsFrame, IsFault};
ghost use Rattle.patch_form.specs.Parts.{IsPart, IsFaultOf};

use crate::fault::FrameFault;
use crate::frame::{Frame, Part};
use crate::head::take_head;
use crate::number::take_length;
use crate::word::take_word;

/// The text behind a word and the line of its length, which stand at an offset.
fn take_part<'a>(bytes: &'a [u8], at: usize, word: &[u8]) -> Result<Part<'a>, FrameFault>
    requires { at ≤ length bytes.now }
    ensures { MatchResult result
        (λ p. (p.at ≡ at + length (word.now ++ number_line (length p.text.now)))
        × (p.at + length p.text.now ≤ length bytes.now)
        × (drop at bytes.now ≡ word.now ++ number_line (length p.text.now) ++ p.text.now
        ++ drop (p.at + length p.text.now) bytes.now))
        (IsFaultOf (IsPart word.now) at (drop at bytes.now)) }
{
    let at = take_word(bytes, at, word)?;
    let length = take_length(bytes, at)?;
    let rest = &bytes[length.end..];
    if rest.len() < length.value {
        return Err(FrameFault::Short);
    }
    Ok(Part {
        at: length.end,
        text: &rest[..length.value],
    })
}

/// The texts of the bytes, or why they have none.
fn find_frame(bytes: &[u8]) -> Result<Frame<'_>, FrameFault>
    ensures { MatchResult result (IsFrame bytes.now) (IsFault bytes.now) }
{
    let head = take_head(bytes)?;
    let old = take_part(bytes, head.end, b"old ")?;
    let new = take_part(bytes, old.end(), b"new ")?;
    let map = take_part(bytes, new.end(), b"map ")?;
    let end = take_word(bytes, map.end(), b"end\n")?;
    if end < bytes.len() {
        return Err(FrameFault::BadHead(end));
    }
    Ok(Frame {
        format: head.format,
        old,
        new,
        map,
    })
}

/// The format and the texts of a patch file: `upstare-patch 1` or `upstare-patch 2` and a newline,
/// then `old L`, `new L` and `map L`, each with a newline and L bytes, then `end` and a newline. L
/// is a decimal number without leading zeros, and nothing stands behind the last newline.
///
/// # Errors
///
/// `Short` where the bytes end before the file does, and `BadHead` at the first byte with which no
/// file goes on.
pub fn read_frame(bytes: &[u8]) -> Result<Frame<'_>, FrameFault>
    ensures frame { IfOk result (IsFrame bytes.now) }
    ensures framing { IsOk result ↔ IsFraming bytes.now }
    ensures short { (result ≡ Err (FrameFault.Short)) ↔ IsCutShort bytes.now }
    ensures bad { (at : ℕ) → (result ≡ Err (FrameFault.BadHead at)) ↔ IsBadAt at bytes.now }
{
    find_frame(bytes)
}
