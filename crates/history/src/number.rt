//! Numbers in decimal without leading zeros, from 0 to 4294967295.

ghost use Rattle.std.specs.Prelude.{◌≡◌, ◌≤◌, ◌<◌, ◌^◌, [], ◌∷◌, ◌++◌, take, MatchOption};
ghost use Rattle.std.specs.Str.Parse.{AllDigits, digits_value};
ghost use Rattle.history.specs.Taken as taken;

/// The digits that the bytes begin with, and the rest.
#[tactic(auto, using(crate::proofs::DigitLemmas::all_digits_more))]
fn split_digits(bytes: &[u8]) -> (&[u8], &[u8])
    ensures whole { bytes.now ≡ result.0.now ++ result.1.now }
    ensures digits { AllDigits 10 result.0.now }
    ensures rest { taken.NoDigit result.1.now }
{
    for (i, byte) in bytes.iter().enumerate() {
        if *byte < b'0' || b'9' < *byte {
            return bytes.split_at(i);
        }
    }
    bytes.split_at(bytes.len())
}

/// The number that the digits write, or none where it is above 4294967295.
fn number_of(digits: &[u8]) -> Option<u32>
    requires { AllDigits 10 digits.now }
    ensures { MatchOption result
        (2 ^ 32 ≤ digits_value 10 digits.now)
        (λ n. (n ≡ digits_value 10 digits.now) × (n < 2 ^ 32)) }
{
    let mut number: u64 = 0;
    for digit in digits {
        number = number * 10 + u64::from(*digit - b'0');
        if number > 4294967295 {
            return None;
        }
    }
    Some(number as u32)
}

/// The number at the front and what follows it, which begins with no digit.
pub fn take_number(bytes: &[u8]) -> Option<(u32, &[u8])>
    ensures { MatchOption result
        (taken.LacksNumber bytes.now)
        (λ r. taken.TakesNumber bytes.now r.0 r.1.now) }
{
    let (digits, rest) = split_digits(bytes);
    if digits.is_empty() || (digits.len() > 1 && digits[0] == b'0') {
        return None;
    }
    let number = number_of(digits)?;
    Some((number, rest))
}

/// What follows a space at the front.
pub fn take_space(bytes: &[u8]) -> Option<&[u8]>
    ensures { MatchOption result
        (taken.LacksSpace bytes.now)
        (λ rest. bytes.now ≡ 32 ∷ rest.now) }
{
    bytes.strip_prefix(b" ")
}

/// The number after a space at the front, and what follows it.
pub fn take_spaced(bytes: &[u8]) -> Option<(u32, &[u8])>
    ensures { MatchOption result
        (taken.LacksSpaced bytes.now)
        (λ r. taken.TakesSpaced bytes.now r.0 r.1.now) }
{
    let rest = take_space(bytes)?;
    take_number(rest)
}

/// What follows a newline at the front.
pub fn take_newline(bytes: &[u8]) -> Option<&[u8]>
    ensures { MatchOption result
        (taken.LacksNumbers 0 bytes.now)
        (λ rest. taken.TakesNumbers bytes.now [] rest.now) }
{
    bytes.strip_prefix(b"\n")
}

/// So many numbers, each after a space, and then a newline; and what follows it. The places of the
/// array after the numbers are 0.
pub fn take_numbers(count: usize, bytes: &[u8]) -> Option<([u32; 4], &[u8])>
    requires { count ≤ 4 }
    ensures { MatchOption result
        (taken.LacksNumbers count bytes.now)
        (λ r. taken.TakesNumbers bytes.now (take count r.0) r.1.now) }
{
    let mut numbers = [0; 4];
    let mut rest = bytes;
    for i in 0..count {
        let (number, more) = take_spaced(rest)?;
        numbers[i] = number;
        rest = more;
    }
    let rest = take_newline(rest)?;
    Some((numbers, rest))
}
