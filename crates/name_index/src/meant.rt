//! What stands behind a name that was found.

ghost use Rattle.std.specs.Prelude.{◌≡◌, IfOk};
ghost use Rattle.std.specs.Option.{option_copied};
ghost use Rattle.c_tree.specs.Scope as scope;
ghost use Rattle.c_tree.specs.Types as types;

use c_tree::{Define, Function, Meaning, Program, Ty};
use std::alloc::AllocError;

/// The function that a name stands for.
pub fn routine(program: &Program, what: Meaning) -> Option<&Function>
    ensures { option_copied result ≡ scope.routine program.now what }
{
    match what {
        Meaning::Routine(i) => program.functions.as_slice().get(i as usize),
        _ => None,
    }
}

/// The type of the elements of the array that a name stands for.
pub fn element_type(program: &Program, what: Meaning) -> Result<Option<Ty>, AllocError>
    ensures { IfOk result (λ t. t ≡ types.element_type program.now what) }
{
    match what {
        Meaning::Global(i) => match program.globals.as_slice().get(i as usize) {
            Some(global) => if global.count.is_some() {
                Ok(Some(global.ty.clone()?))
            } else {
                Ok(None)
            },
            None => Ok(None),
        },
        _ => Ok(None),
    }
}

/// Whether a number is 0.
pub fn is_zero_number(n: i32) -> bool
    ensures { result ≡ types.is_zero_number n }
{
    n == 0
}

/// Whether a define is of the literal 0, without a minus.
pub fn is_zero_define(define: Option<&Define>) -> bool
    ensures { result ≡ types.is_zero_define (option_copied define.entry) }
{
    match define {
        Some(define) => !define.minus && is_zero_number(define.value),
        None => false,
    }
}
