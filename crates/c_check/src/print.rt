//! Statements of `printf`.

ghost use Rattle.std.specs.Prelude.{◌≡◌, IfOk, OnOk};
ghost use Rattle.c_tree.specs.Typing as typing;
ghost use Rattle.c_check.specs.Inner.{around};
ghost use Rattle.c_check.specs.Words.{noted};
ghost use Rattle.c_check.specs.Statements.{printed, all_ints};

use crate::expr::value;
use crate::locals::Locals;
use crate::note::note_unless;
use crate::types::Test;
use c_tree::{CheckCause, Expr, Fault};
use name_index::File;
use std::alloc::AllocError;

/// The number of `%d` in a text, if there is no directive but `%d` and `%%`.
fn directives(text: &[u8]) -> Option<usize>
    ensures { result ≡ typing.directives text.now }
{
    let mut count = 0usize;
    let mut is_open = false;
    for b in text {
        if is_open {
            match *b {
                b'd' => count += 1,
                b'%' => {}
                _ => return None,
            }
            is_open = false;
        } else {
            is_open = *b == b'%';
        }
    }
    if is_open { None } else { Some(count) }
}

fn has_count(text: &[u8], count: usize) -> bool
    ensures { result ≡ typing.is_count count (typing.directives text.now) }
{
    match directives(text) {
        Some(n) => n == count,
        None => false,
    }
}

fn all_ints(
    args: &[Expr],
    file: &File<'_>,
    locals: &Locals,
    first: &mut Option<Fault>,
) -> Result<(), AllocError>
    ensures { OnOk result (first.new ≡ noted first.old
        (all_ints (around file.now locals.now) args.now)) }
{
    for arg in args {
        value(arg, Test::Int, file, locals, first)?;
    }
    Ok(())
}

#[tactic(auto, using(crate::proofs::NoteLemmas::noting), unfolding(crate::specs::Statements::printed))]
/// Notes the faults of a `printf`: its text has one `%d` for each argument, and no directive but
/// `%d` and `%%`, and the arguments are `int`s.
pub fn print(
    at: u32,
    text: &[u8],
    args: &[Expr],
    file: &File<'_>,
    locals: &Locals,
    first: &mut Option<Fault>,
) -> Result<(), AllocError>
    ensures { OnOk result (first.new ≡ noted first.old
        (printed (around file.now locals.now) at text.now args.now)) }
{
    note_unless(first, has_count(text, args.len()), at, CheckCause::BadCall);
    all_ints(args, file, locals, first)
}
