//! What is called, started and locked.

ghost use Rattle.std.specs.Prelude.{◌≡◌, codes, Some, IfOk, OnOk};
ghost use Rattle.c_tree.specs.declared.ty.Ty.TheVariants as ty;
ghost use Rattle.c_tree.specs.Scope.{is_same_name};
ghost use Rattle.c_tree.specs.Typing as typing;
ghost use Rattle.c_check.specs.Inner.{around};
ghost use Rattle.c_check.specs.Words.{noted, lvalued, started, locked};

use crate::locals::Locals;
use crate::note::{note, note_known, note_unless};
use crate::scope::meaning;
use c_tree::{At, CheckCause, Expr, ExprKind, Fault, Field, Function, Meaning, Name, Ty};
use name_index::{File, routine};
use std::alloc::AllocError;

/// Whether a name is `main`.
pub fn is_main(name: &Name) -> bool
    ensures { result ≡ is_same_name name.now (codes "main") }
{
    name.as_bytes() == b"main".as_slice()
}

/// Notes what is wrong with a call of a function with so many arguments.
#[tactic(auto, using(crate::proofs::NoteLemmas::noting))]
pub fn note_call(
    at: u32,
    name: &Name,
    count: usize,
    function: &Function,
    file: &File<'_>,
    first: &mut Option<Fault>,
) -> Result<(), AllocError>
    ensures { OnOk result (first.new ≡ noted first.old
        (typing.call_faults file.now at name.now count (Some function.now))) }
{
    note_known(first, file.is_defined(name), at, name)?;
    let may_be_called = !is_main(name) && count == function.params.len();
    note_unless(first, may_be_called, at, CheckCause::BadCall);
    Ok(())
}

fn takes_any_pointer(params: &[Field]) -> bool
    ensures { result ≡ typing.takes_any_pointer params.now }
{
    match params {
        [param] => param.ty.is_any_pointer(),
        _ => false,
    }
}

/// Notes what is wrong with a function that is started.
#[tactic(auto, using(crate::proofs::NoteLemmas::noting), unfolding(crate::specs::Words::started))]
pub fn note_start(
    name: &At<Name>,
    file: &File<'_>,
    locals: &Locals,
    first: &mut Option<Fault>,
) -> Result<(), AllocError>
    ensures { OnOk result (first.new ≡ noted first.old
        (started (around file.now locals.now) name.now)) }
{
    match routine(file.program(), meaning(file, locals, &name.it)) {
        None => note(first, name.at, CheckCause::Unknown(name.it.clone()?)),
        Some(function) => {
            note_known(first, file.is_defined(&name.it), name.at, &name.it)?;
            let may_start = function.ret.is_any_pointer()
                && takes_any_pointer(function.params.as_slice());
            note_unless(first, may_start, name.at, CheckCause::BadStart);
        }
    }
    Ok(())
}

/// Notes what is wrong with a mutex that is locked or unlocked.
#[tactic(auto, unfolding(crate::specs::Words::locked, crate::specs::Words::noted))]
fn note_lock(
    at: u32,
    name: &At<Name>,
    file: &File<'_>,
    locals: &Locals,
    first: &mut Option<Fault>,
) -> Result<(), AllocError>
    ensures { OnOk result (first.new ≡ noted first.old
        (locked (around file.now locals.now) at name.now)) }
{
    match meaning(file, locals, &name.it) {
        Meaning::Nothing => note(first, name.at, CheckCause::Unknown(name.it.clone()?)),
        Meaning::Mutex(_) => {}
        _ => note(first, at, CheckCause::BadCall),
    }
    Ok(())
}

/// The type that a lock or an unlock gives.
pub fn lock(
    at: u32,
    name: &At<Name>,
    file: &File<'_>,
    locals: &Locals,
    first: &mut Option<Fault>,
) -> Result<Option<Ty>, AllocError>
    ensures ty { IfOk result (λ t. t ≡ Some ty.Int) }
    ensures faults { OnOk result (first.new
        ≡ noted first.old (locked (around file.now locals.now) at name.now)) }
{
    note_lock(at, name, file, locals, first)?;
    Ok(Some(Ty::Int))
}

/// Notes a define that stands as an lvalue.
#[tactic(auto, unfolding(crate::specs::Words::lvalued, crate::specs::Words::noted))]
pub fn note_lvalue(x: &Expr, file: &File<'_>, locals: &Locals, first: &mut Option<Fault>)
    ensures { first.new ≡ noted first.old (lvalued (around file.now locals.now) x.now) }
{
    if let ExprKind::Name(name) = &x.kind {
        let is_lvalue = !matches!(meaning(file, locals, name), Meaning::Constant(_));
        note_unless(first, is_lvalue, x.at, CheckCause::BadInit);
    }
}
