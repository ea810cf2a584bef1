//! The lines that rebuild the frames inside the calls of a function.

ghost use Rattle.std.specs.Prelude.{◌≡◌, ◌≤◌, ◌++◌, length, OnOk, Some};
ghost use Rattle.c_tree.specs.Step.{function_of};
ghost use Rattle.frame_transform.specs.TargetText as spec;

use crate::line::{append_indent, append_numbered, append_times};
use c_tree::{Lifted, Place, function_name};
use std::alloc::AllocError;

/// How many parameters a function has; 0 where it is not there.
fn parameter_count(program: &Lifted, function: u32) -> u32
    ensures { result ≡ (function_of program.now function).params }
{
    match program.functions.as_slice().get(function as usize) {
        Some(function) => function.params,
        None => 0,
    }
}

fn append_zeros(count: u32, out: &mut Vec<u8>) -> Result<(), AllocError>
    ensures { OnOk result (out.new.items ≡ out.old.items ++ spec.zeros count) }
{
    match count.checked_sub(1) {
        None => Ok(()),
        Some(more) => {
            out.extend_from_slice(b"0")?;
            append_times(more, b", 0", out)
        }
    }
}

/// Appends a call of a function whose arguments play no part.
fn append_empty_call(program: &Lifted, function: u32, out: &mut Vec<u8>) -> Result<(), AllocError>
    ensures { OnOk result (out.new.items
        ≡ out.old.items ++ spec.empty_call program.now function) }
{
    out.extend_from_slice(function_name(program, function))?;
    out.extend_from_slice(b"(")?;
    append_zeros(parameter_count(program, function), out)?;
    out.extend_from_slice(b");")
}

fn append_rebuild_call(
    program: &Lifted,
    n: u32,
    function: u32,
    out: &mut Vec<u8>,
) -> Result<(), AllocError>
    ensures { OnOk result (out.new.items
        ≡ out.old.items ++ spec.rebuild_text program.now n function) }
{
    append_numbered(b"UP_REBUILD(", n as usize, b"): ", out)?;
    append_empty_call(program, function, out)
}

#[tactic(auto, using(crate::proofs::LineLemmas::line_rules))]
fn append_rebuild(
    program: &Lifted,
    n: u32,
    function: u32,
    out: &mut Vec<u8>,
) -> Result<(), AllocError>
    ensures { OnOk result (out.new.items
        ≡ out.old.items ++ spec.rebuild_line program.now n (Some function)) }
{
    append_indent(1, out)?;
    append_rebuild_call(program, n, function, out)?;
    out.extend_from_slice(b"\n")
}

fn append_rebuild_at(
    program: &Lifted,
    n: u32,
    function: Option<u32>,
    out: &mut Vec<u8>,
) -> Result<(), AllocError>
    ensures { OnOk result (out.new.items
        ≡ out.old.items ++ spec.rebuild_line program.now n function) }
{
    match function {
        None => Ok(()),
        Some(function) => append_rebuild(program, n, function, out),
    }
}

/// Appends the lines that rebuild the frames inside the calls of a function.
pub fn append_rebuilds(program: &Lifted, row: &[Place], out: &mut Vec<u8>) -> Result<(), AllocError>
    requires { length row.now ≤ 10000 }
    ensures { OnOk result (out.new.items
        ≡ out.old.items ++ spec.rebuild_lines program.now row.now) }
{
    'places: for n in 0..row.len() {
        append_rebuild_at(program, n as u32, row[n].act.callee(), out)?;
    }
    Ok(())
}
