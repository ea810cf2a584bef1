//! The lengths of arrays.

ghost use Rattle.std.specs.Prelude.{◌≡◌};
ghost use Rattle.std.specs.Option.{option_copied};
ghost use Rattle.c_tree.specs.Scope as scope;
ghost use Rattle.c_tree.specs.Typing as typing;

use crate::file::File;
use c_tree::{Count, Define};

/// A number that is not below 0, and else 0.
fn magnitude(minus: bool, n: i32) -> u32
    ensures { result ≡ typing.magnitude minus n }
{
    if minus || n < 0 { 0 } else { n as u32 }
}

/// The length that a define gives, and 1 where there is none.
fn named_length(define: Option<&Define>) -> u32
    ensures { result ≡ typing.named_length (option_copied define.entry) }
{
    match define {
        Some(define) => magnitude(define.minus, define.value),
        None => 1,
    }
}

/// The length of an array in words, 0 where it is negative, and 1 where its name is no define's.
pub fn length_of_array(file: &File<'_>, count: &Count) -> u32
    ensures { result ≡ typing.length_of_array (scope.file_scope file.now) count.now }
{
    match count {
        Count::Number(n) => magnitude(false, *n),
        Count::Named(name) => named_length(file.define(file.meaning(name))),
    }
}
