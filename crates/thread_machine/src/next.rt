//! What a thread does next.

ghost use Rattle.std.specs.Prelude.{◌≡◌, ◌+◌, slice_get};
ghost use Rattle.thread_machine.specs.Next.{behind_flag, next_at};

use crate::place::body_of;
use target_code::{Code, Instr};

/// What a thread does next.
#[derive(Clone, Copy)]
pub enum Next {
    /// It goes on, and isn't at an update place.
    Runs,
    /// It is at an update place, and goes on.
    Stands,
    /// It is at an update place, and takes the mutex or waits.
    Locks(u32),
    /// It is at an update place, and waits for the end of a thread.
    Joins,
    /// It has ended.
    Gone,
}

/// What comes next at an update place, by the instruction at a position.
fn flagged(body: &[Instr], at: usize) -> Next
    ensures { result ≡ behind_flag (slice_get body.now at) }
{
    match body.get(at) {
        Some(Instr::Lock(mutex)) => Next::Locks(*mutex),
        Some(Instr::Mark(_)) => Next::Stands,
        Some(Instr::Jump(_)) => Next::Stands,
        _ => Next::Joins,
    }
}

/// What comes next behind a function's mark at a position.
pub fn next_in(code: &Code, function: u32, pc: u32) -> Next
    ensures { result ≡ next_at code.now function pc }
{
    let body = body_of(code, function);
    let mark = pc as usize;
    match body.get(mark + 1) {
        Some(Instr::Flag(_)) => flagged(body, mark + 2),
        _ => Next::Runs,
    }
}
