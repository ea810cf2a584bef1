//! The text of the marks of a trace.

ghost use Rattle.std.specs.Prelude.{◌≡◌, ◌++◌, codes, IfOk, OnOk};
ghost use Rattle.std.specs.Fmt.{decimal};
ghost use Rattle.traces.specs.Trace.{line, place, program_of, trace, word};

use c_tree::{Text, TraceMark, function_name};
use itoa::Buffer;
use map_text::Points;
use std::alloc::{AllocError, Global};

fn push_number(out: &mut Vec<u8>, number: u32) -> Result<(), AllocError>
    ensures { OnOk result (out.new.items ≡ out.old.items ++ decimal number) }
{
    let mut buffer = Buffer::new();
    out.extend_from_slice(buffer.format(number).as_bytes())
}

/// The function and the point of a place.
fn push_place(
    out: &mut Vec<u8>,
    points: &Points<'_>,
    function: u32,
    n: u32,
) -> Result<(), AllocError>
    ensures { OnOk result (out.new.items ≡ out.old.items ++ place points.now function n) }
{
    out.extend_from_slice(function_name(points.program(), function))?;
    out.extend_from_slice(b" ")?;
    points.append(function, n, out)
}

fn push_word(out: &mut Vec<u8>, save: bool) -> Result<(), AllocError>
    ensures { OnOk result (out.new.items ≡ out.old.items ++ word save) }
{
    if save {
        out.extend_from_slice(b"save ")
    } else {
        out.extend_from_slice(b"load ")
    }
}

/// The line of a mark in a program.
fn push_line(out: &mut Vec<u8>, points: &Points<'_>, mark: &TraceMark) -> Result<(), AllocError>
    ensures { OnOk result (out.new.items ≡ out.old.items ++ line points.now mark.now) }
{
    push_word(out, mark.save)?;
    push_number(out, mark.thread)?;
    out.extend_from_slice(b" ")?;
    push_place(out, points, mark.function, mark.place)?;
    out.extend_from_slice(b"\n")
}

fn push_mark(
    out: &mut Vec<u8>,
    old: &Points<'_>,
    new: &Points<'_>,
    mark: &TraceMark,
) -> Result<(), AllocError>
    ensures { OnOk result (out.new.items
        ≡ out.old.items ++ line (program_of old.now new.now mark.now.new) mark.now) }
{
    if mark.new {
        push_line(out, new, mark)
    } else {
        push_line(out, old, mark)
    }
}

/// The text of a trace: a line `save THREAD FUNCTION POINT` or `load THREAD FUNCTION POINT` for
/// each frame that a thread saved or loaded, in their order. The frames are those of two programs:
/// of the one that ran first, and of the new one. Where there was no update both may be the same.
///
/// # Errors
///
/// Where the memory for the text is wanting.
pub fn trace_text(
    alloc: Global,
    old: &Points<'_>,
    new: &Points<'_>,
    marks: &[TraceMark],
) -> Result<Text, AllocError>
    ensures { IfOk result (λ t. t ≡ trace old.now new.now marks.now) }
{
    let mut out = Vec::new(alloc);
    for mark in marks {
        push_mark(&mut out, old, new, mark)?;
    }
    Ok(Text::from_vec(out))
}
