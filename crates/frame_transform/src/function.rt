//! The text of a function.

ghost use Rattle.std.specs.Prelude.{◌≡◌, ◌≤◌, ◌+◌, ◌++◌, length, OnOk};
ghost use Rattle.c_tree.specs.Layout as layout;
ghost use Rattle.c_tree.specs.Step.{function_of};
ghost use Rattle.frame_transform.specs.Declarations.{head_text};
ghost use Rattle.frame_transform.specs.Inside.{reads};
ghost use Rattle.frame_transform.specs.Blocks.{text_of};
ghost use Rattle.frame_transform.specs.Line.{line};
ghost use Rattle.frame_transform.specs.TargetText as spec;

use crate::blocks::append_block;
use crate::declarations::{append_head, append_locals};
use crate::expressions::Inside;
use crate::line::{append_indent, append_line, append_numbered_line};
use crate::rebuild::append_rebuilds;
use crate::statements::append_mark;
use c_tree::{LFunction, LStmt, Lifted, Place, Ty};
use std::alloc::AllocError;

/// The return at the end of a function with a result of a type.
fn implied_return(ty: &Ty) -> &'static [u8]
    ensures { result.now ≡ spec.implied_return ty.now }
{
    match ty {
        Ty::Void => b"return;",
        Ty::AnyPtr => b"return NULL;",
        Ty::Ptr(_) => b"return NULL;",
        Ty::Int => b"return 0;",
        Ty::Thread => b"return 0;",
    }
}

#[tactic(auto, using(crate::proofs::LineLemmas::line_rules))]
fn append_head_line(function: &LFunction, out: &mut Vec<u8>) -> Result<(), AllocError>
    ensures { OnOk result (out.new.items
        ≡ out.old.items ++ line 0 (head_text function.now)) }
{
    append_indent(0, out)?;
    append_head(function, out)?;
    out.extend_from_slice(b"\n")
}

/// Appends what stands before the statements.
fn append_opening(function: &LFunction, out: &mut Vec<u8>) -> Result<(), AllocError>
    ensures { OnOk result (out.new.items ≡ out.old.items ++ spec.opening function.now) }
{
    append_head_line(function, out)?;
    append_locals(function, out)?;
    append_numbered_line(1, b"UP_RESTORE(", function.slots.len(), b");", out)?;
    append_mark(1, 0, out)
}

/// Appends what stands behind the statements.
fn append_closing(
    program: &Lifted,
    function: &LFunction,
    row: &[Place],
    out: &mut Vec<u8>,
) -> Result<(), AllocError>
    requires row { row.now ≡ layout.places function.now }
    requires short { length row.now ≤ 10000 }
    ensures { OnOk result (out.new.items
        ≡ out.old.items ++ spec.closing program.now function.now) }
{
    append_line(1, implied_return(&function.ret), out)?;
    append_rebuilds(program, row, out)?;
    append_line(0, b"}", out)
}

/// Appends the statements of a function.
fn append_body(inside: &Inside<'_>, body: &[LStmt], out: &mut Vec<u8>) -> Result<(), AllocError>
    requires { layout.size_of body.now + 2 ≤ 10000 }
    ensures { OnOk result (out.new.items
        ≡ out.old.items ++ text_of (reads inside.now) 1 0 1 0 body.now) }
{
    append_block(inside, 1, 0, 1, 0, body, out)
}

/// Appends the function of a number, whose places are the row.
pub fn append_function(
    inside: &Inside<'_>,
    function: &LFunction,
    row: &[Place],
    out: &mut Vec<u8>,
) -> Result<(), AllocError>
    requires numbered { function.now
        ≡ function_of inside.now.program.now inside.now.function }
    requires row { row.now ≡ layout.places function.now }
    requires short { length row.now ≤ 10000 }
    ensures { OnOk result (out.new.items
        ≡ out.old.items ++ spec.function_text inside.now.program.now function.now) }
{
    append_opening(function, out)?;
    append_body(inside, function.body.as_slice(), out)?;
    append_closing(inside.program, function, row, out)
}
