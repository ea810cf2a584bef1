//! Integer constants and their numbers (ISO C11, 6.4.4.1): decimal, octal and hexadecimal ones,
//! without a suffix.
ghost use Rattle.std.specs.Prelude.{◌≡◌, ◌≤◌, ◌<◌, ◌^◌, length, min, IfOk, nat_lt};
ghost use Rattle.std.specs.List.{list_all};
ghost use Rattle.c_tokens.specs.Literal as text;

use crate::class::is_digit;
use c_tree::ReadCause;

/// The largest number of an `int`.
const LIMIT: u32 = 2147483647;

/// What a byte counts as a digit: 0 to 15, and 16 where it is none.
fn digit_of(b: u8) -> u32
    ensures digit { result ≡ text.digit_of b }
    ensures within { result ≤ 16 }
{
    if is_digit(b) {
        b as u32 - 48
    } else if 97 <= b && b <= 102 {
        b as u32 - 87
    } else if 65 <= b && b <= 70 {
        b as u32 - 55
    } else {
        16
    }
}

/// Whether a byte is a digit of the base.
fn is_digit_of(base: u32, b: u8) -> bool
    ensures { result ≡ nat_lt (text.digit_of b) base }
{
    digit_of(b) < base
}

/// Whether each byte is a digit of the base.
fn all_digits(base: u32, bytes: &[u8]) -> bool
    ensures { result ≡ list_all (λ b. nat_lt (text.digit_of b) base) bytes.now }
{
    bytes.iter().all(|b| is_digit_of(base, *b))
}

/// Whether the bytes are one digit of the base or more.
fn are_digits(base: u32, bytes: &[u8]) -> bool
    ensures { result ≡ text.are_digits base bytes.now }
{
    !bytes.is_empty() && all_digits(base, bytes)
}

/// The number that digits spell, or 2147483648 where it is above 2147483647.
fn capped_number(base: u32, digits: &[u8]) -> u32
    requires base { 0 < base }
    requires small { base ≤ 16 }
    ensures { result ≡ min (text.number_of base digits.now) 2147483648 }
{
    let mut number: u64 = 0;
    'digits: for b in digits {
        number = (u64::from(base) * number + u64::from(digit_of(*b))).min(2147483648);
    }
    number as u32
}

/// The number that digits of the base spell, or why they spell none.
fn in_base(base: u32, digits: &[u8]) -> Result<u32, ReadCause>
    requires base { 0 < base }
    requires small { base ≤ 16 }
    ensures number { result ≡ text.in_base base digits.now }
    ensures within { IfOk result (λ n. n ≤ 2147483647) }
{
    if !are_digits(base, digits) {
        return Err(ReadCause::BadToken);
    }
    let number = capped_number(base, digits);
    if number > LIMIT {
        return Err(ReadCause::Literal);
    }
    Ok(number)
}

/// The number of an integer constant, from 0 to 2147483647, or why it has none.
pub fn literal(run: &[u8]) -> Result<u32, ReadCause>
    ensures number { result ≡ text.literal run.now }
    ensures within { IfOk result (λ n. n ≤ 2147483647) }
{
    if run.starts_with(b"0x") || run.starts_with(b"0X") {
        in_base(16, &run[2..])
    } else if run.starts_with(b"0") {
        in_base(8, run)
    } else {
        in_base(10, run)
    }
}
