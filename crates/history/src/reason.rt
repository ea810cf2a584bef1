//! Reasons: a code from 1 to 9, and the numbers that the code asks for.

ghost use Rattle.std.specs.Prelude.{◌≡◌, ◌≤◌, MatchOption};
ghost use Rattle.history.specs.History.{reason_numbers};
ghost use Rattle.history.specs.Taken as taken;

use crate::number::{take_numbers, take_spaced};
use c_tree::Reason;

/// How many numbers stand after a code, or none where no reason has the code.
fn numbers_after(code: u32) -> Option<usize>
    ensures { result ≡ taken.numbers_after code }
{
    match code {
        8 => Some(0),
        2 | 3 | 9 => Some(1),
        1 | 4 | 5 => Some(2),
        6 => Some(3),
        7 => Some(4),
        _ => None,
    }
}

/// The reason of a code, with the numbers after it.
fn reason_of(code: u32, numbers: [u32; 4]) -> Reason
    requires low { 1 ≤ code }
    requires high { code ≤ 9 }
    ensures { reason_numbers result ≡ taken.coded code numbers }
{
    let [a, b, c, d] = numbers;
    match code {
        1 => Reason::Unmapped(a, b),
        2 => Reason::Held(a),
        3 => Reason::Removed(a),
        4 => Reason::Check(a, b),
        5 => Reason::Global(a, b),
        6 => Reason::Field(a, b, c),
        7 => Reason::Slot(a, b, c, d),
        8 => Reason::Memory,
        _ => Reason::Depth(a),
    }
}

/// The reason at the front with the newline after it, and what follows.
pub fn take_reason(bytes: &[u8]) -> Option<(Reason, &[u8])>
    ensures { MatchOption result
        (taken.LacksReason bytes.now)
        (λ r. taken.TakesReason bytes.now r.0 r.1.now) }
{
    let (code, rest) = take_spaced(bytes)?;
    let count = numbers_after(code)?;
    let (numbers, rest) = take_numbers(count, rest)?;
    Some((reason_of(code, numbers), rest))
}
