//! Names that a file declares again.

ghost use Rattle.std.specs.Prelude.{◌≡◌, ◌&&◌, if◌then◌else◌, List, [], ◌∷◌, ◌++◌, find, IfOk, OnOk};
ghost use Rattle.std.specs.List.{list_any};
ghost use Rattle.std.specs.Option.{option_copied};
ghost use Rattle.c_tree.specs.Scope as scope;
ghost use Rattle.c_tree.specs.Typing as typing;
ghost use Rattle.c_tree.specs.declared.scope.Named.{Named};
ghost use Rattle.c_check.specs.Words.{noted};
ghost use Rattle.c_check.specs.Files.{repeats, may_stand};

use crate::note::note_twice;
use c_tree::{Fault, Field, Function, Index, Named, at_number};
use name_index::{File, routine};
use std::alloc::{AllocError, Global};

fn are_same_types(a: &[Field], b: &[Field]) -> bool
    ensures { result ≡ typing.are_same_types a.now b.now }
{
    let mut left = b;
    for x in a {
        match left {
            [] => return false,
            [y, rest @ ..] => {
                if !x.ty.is_same(&y.ty) {
                    return false;
                }
                left = rest;
            }
        }
    }
    left.is_empty()
}

fn agree(a: Option<&Function>, b: Option<&Function>) -> bool
    ensures { result ≡ typing.agree (option_copied a.entry) (option_copied b.entry) }
{
    match (a, b) {
        (Some(f), Some(g)) => f.ret.is_same(&g.ret)
            && are_same_types(f.params.as_slice(), g.params.as_slice()),
        _ => false,
    }
}

fn has_body(function: Option<&Function>) -> bool
    ensures { result ≡ typing.has_body (option_copied function.entry) }
{
    match function {
        Some(function) => function.body.is_some(),
        None => false,
    }
}

/// Whether a name may stand where another is the first of its name. The flag tells that a function
/// of its name has a body already.
#[tactic(auto, unfolding(crate::specs::Files::may_stand))]
fn may_follow(other: Option<&Named>, x: &Named, is_defined: bool, file: &File<'_>) -> bool
    ensures { (seen : List Named) → option_copied other.entry
        ≡ find (scope.has_name x.now.name) seen →
        is_defined ≡ list_any (λ z. scope.has_name x.now.name z && typing.has_body
        (scope.routine file.now z.meaning)) seen →
        result ≡ may_stand file.now seen x.now }
{
    match other {
        None => true,
        Some(y) => {
            let function = routine(file.program(), x.meaning);
            agree(routine(file.program(), y.meaning), function)
                && !(has_body(function) && is_defined)
        }
    }
}

/// The names of functions with a body, with one more where it is such a name.
fn with_body(bodies: Index, x: &Named, file: &File<'_>) -> Result<Index, AllocError>
    ensures { IfOk result (λ s. s ≡ (if typing.has_body (scope.routine file.now x.now.meaning) then
        bodies ++ x.now.name ∷ [] else bodies)) }
{
    if has_body(routine(file.program(), x.meaning)) {
        bodies.with(&x.name)
    } else {
        Ok(bodies)
    }
}

/// Notes each name that may not be declared again.
pub fn repeated_names(
    alloc: Global,
    file: &File<'_>,
    first: &mut Option<Fault>,
) -> Result<(), AllocError>
    ensures { OnOk result (first.new ≡ noted first.old
        (repeats file.now [] (scope.names_of file.now))) }
{
    let names = file.names();
    let mut seen = Index::new(alloc);
    let mut bodies = Index::new(alloc);
    for (i, x) in names.iter().enumerate() {
        let other = at_number(&seen, &x.name, &names[..i]);
        let is_defined = bodies.number(&x.name).is_some();
        let may = may_follow(other, x, is_defined, file);
        note_twice(first, !may, x.at, &x.name)?;
        seen = seen.with(&x.name)?;
        bodies = with_body(bodies, x, file)?;
    }
    Ok(())
}
