//! Words that stand in every patch file.

ghost use Rattle.std.specs.Prelude.{◌≡◌, ◌≤◌, ◌+◌, ◌++◌, length, drop, MatchResult};
ghost use Rattle.patch_form.specs.Parts.{Is, IsFaultOf};

use crate::fault::FrameFault;

/// The offset behind a word that stands at an offset.
pub fn take_word(bytes: &[u8], at: usize, word: &[u8]) -> Result<usize, FrameFault>
    requires { at ≤ length bytes.now }
    ensures { MatchResult result
        (λ end. (end ≡ at + length word.now) × (end ≤ length bytes.now)
        × (drop at bytes.now ≡ word.now ++ drop end bytes.now))
        (IsFaultOf (Is word.now) at (drop at bytes.now)) }
{
    let rest = &bytes[at..];
    for (i, wanted) in word.iter().enumerate() {
        if i == rest.len() {
            return Err(FrameFault::Short);
        }
        if rest[i] != *wanted {
            return Err(FrameFault::BadHead(at + i));
        }
    }
    Ok(at + word.len())
}
