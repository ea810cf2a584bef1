//! The lines of lengths.

ghost use Rattle.std.specs.Prelude.{◌≡◌, ◌≢◌, ◌≤◌, ◌<◌, ◌+◌, ◌-◌, ◌^◌, ◌++◌, ℕ, length, take, drop, min, slice_index, MatchResult};
ghost use Rattle.std.specs.Str.Parse.{AllDigits, digits_value};
ghost use Rattle.patch_form.specs.Framing.{number_line};
ghost use Rattle.patch_form.specs.Parts.{IsNumberLine, IsFaultOf, NoDigit};

use crate::fault::FrameFault;

/// A length that a file gives.
#[derive(Clone, Copy)]
pub struct Length {
    /// The length, or the largest `usize` where it is above that.
    pub value: usize,
    /// The offset behind the line.
    pub end: usize,
}

/// How many bytes at the front are those of a number, or begin one: no digit follows a `0`.
#[tactic(auto, using(crate::proofs::Numbers::length_rules))]
fn number_len(bytes: &[u8]) -> usize
    ensures within { result ≤ length bytes.now }
    ensures digits { AllDigits 10 (take result bytes.now) }
    ensures zero { slice_index bytes.now 0 ≡ 48 → result ≡ 1 }
    ensures whole { slice_index bytes.now 0 ≢ 48 → NoDigit (drop result bytes.now) }
{
    if bytes.first() == Some(&b'0') {
        return 1;
    }
    for (i, byte) in bytes.iter().enumerate() {
        if *byte < b'0' || b'9' < *byte {
            return i;
        }
    }
    bytes.len()
}

/// The number that the digits write, or the largest `usize` where it is above that.
fn value_of(digits: &[u8]) -> usize
    requires { AllDigits 10 digits.now }
    ensures { result ≡ min (digits_value 10 digits.now) (2 ^ 64 - 1) }
{
    let mut value: usize = 0;
    for digit in digits {
        value = value
            .saturating_mul(10)
            .saturating_add((*digit - b'0') as usize);
    }
    value
}

/// The length whose line stands at an offset.
pub fn take_length(bytes: &[u8], at: usize) -> Result<Length, FrameFault>
    requires { at ≤ length bytes.now }
    ensures { MatchResult result
        (λ l. (l.end ≤ length bytes.now) × ((n : ℕ) × (l.value ≡ min n (2 ^ 64 - 1))
        × (drop at bytes.now ≡ number_line n ++ drop l.end bytes.now)))
        (IsFaultOf IsNumberLine at (drop at bytes.now)) }
{
    let rest = &bytes[at..];
    let len = number_len(rest);
    if len == rest.len() {
        return Err(FrameFault::Short);
    }
    if len == 0 || rest[len] != b'\n' {
        return Err(FrameFault::BadHead(at + len));
    }
    Ok(Length {
        value: value_of(&rest[..len]),
        end: at + len + 1,
    })
}
