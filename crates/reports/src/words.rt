//! Words with numbers.

ghost use Rattle.std.specs.Prelude.{◌≡◌, ◌++◌, OnOk, codes};
ghost use Rattle.std.specs.Fmt.{decimal};
ghost use Rattle.reports.specs.Trap as traps;
ghost use Rattle.reports.specs.Words as spec;

use crate::trap::numbered;
use itoa::Buffer;
use std::alloc::AllocError;

/// What a check came to: 0, or a trap.
pub fn check_word(code: u32) -> &'static [u8]
    ensures { result.now ≡ spec.check_word code }
{
    match code {
        0 => b"is 0",
        _ => numbered(code).as_bytes(),
    }
}

/// Appends a space and the word of a trap.
pub fn append_trap(code: u32, out: &mut Vec<u8>) -> Result<(), AllocError>
    ensures { OnOk result (out.new.items ≡ out.old.items ++ (codes " " ++ traps.numbered code)) }
{
    out.extend_from_slice(b" ")?;
    out.extend_from_slice(numbered(code).as_bytes())
}

/// Appends a word and a number.
pub fn append_counted(word: &[u8], number: u32, out: &mut Vec<u8>) -> Result<(), AllocError>
    ensures { OnOk result (out.new.items ≡ out.old.items ++ (word.now ++ decimal number)) }
{
    let mut buffer = Buffer::new();
    out.extend_from_slice(word)?;
    out.extend_from_slice(buffer.format(number).as_bytes())?;
    Ok(())
}

/// Appends a frame of a thread.
pub fn append_frame(thread: u32, frame: u32, out: &mut Vec<u8>) -> Result<(), AllocError>
    ensures { OnOk result (out.new.items ≡ out.old.items ++ spec.frame thread frame) }
{
    append_counted(b"thread ", thread, out)?;
    append_counted(b" frame ", frame, out)
}
