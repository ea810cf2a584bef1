//! Lines, and texts that are made of like parts.

ghost use Rattle.std.specs.Prelude.{◌≡◌, ◌++◌, codes, OnOk};
ghost use Rattle.std.specs.Fmt.{decimal};
ghost use Rattle.frame_transform.specs.Line as spec;

use itoa::Buffer;
use std::alloc::AllocError;

/// Appends a text so many times.
#[tactic(auto, using(crate::proofs::LineLemmas::times_rules))]
pub fn append_times(count: u32, text: &[u8], out: &mut Vec<u8>) -> Result<(), AllocError>
    ensures { OnOk result (out.new.items ≡ out.old.items ++ spec.times count text.now) }
{
    'times: for i in 0..count {
        out.extend_from_slice(text)?;
    }
    Ok(())
}

/// Appends what a line of a depth begins with.
pub fn append_indent(depth: u32, out: &mut Vec<u8>) -> Result<(), AllocError>
    ensures { OnOk result (out.new.items ≡ out.old.items ++ spec.times depth (codes "  ")) }
{
    append_times(depth, b"  ", out)
}

/// Appends a line.
#[tactic(auto, using(crate::proofs::LineLemmas::line_rules))]
pub fn append_line(depth: u32, text: &[u8], out: &mut Vec<u8>) -> Result<(), AllocError>
    ensures { OnOk result (out.new.items ≡ out.old.items ++ spec.line depth text.now) }
{
    append_indent(depth, out)?;
    out.extend_from_slice(text)?;
    out.extend_from_slice(b"\n")
}

/// Appends a number.
pub fn append_number(n: usize, out: &mut Vec<u8>) -> Result<(), AllocError>
    ensures { OnOk result (out.new.items ≡ out.old.items ++ decimal n) }
{
    let mut buffer = Buffer::new();
    out.extend_from_slice(buffer.format(n).as_bytes())?;
    Ok(())
}

/// Appends a number between two texts.
pub fn append_numbered(
    before: &[u8],
    n: usize,
    after: &[u8],
    out: &mut Vec<u8>,
) -> Result<(), AllocError>
    ensures { OnOk result (out.new.items
        ≡ out.old.items ++ spec.numbered before.now n after.now) }
{
    out.extend_from_slice(before)?;
    append_number(n, out)?;
    out.extend_from_slice(after)
}

/// Appends a line of a number between two texts.
#[tactic(auto, using(crate::proofs::LineLemmas::line_rules))]
pub fn append_numbered_line(
    depth: u32,
    before: &[u8],
    n: usize,
    after: &[u8],
    out: &mut Vec<u8>,
) -> Result<(), AllocError>
    ensures { OnOk result (out.new.items
        ≡ out.old.items ++ spec.line depth (spec.numbered before.now n after.now)) }
{
    append_indent(depth, out)?;
    append_numbered(before, n, after, out)?;
    out.extend_from_slice(b"\n")
}
