//! Functions.

ghost use Rattle.std.specs.Prelude.{◌≡◌, ℕ, List, [], ◌∷◌, ◌&&◌, OnOk};
ghost use Rattle.c_tree.specs.Types as types;
ghost use Rattle.c_tree.specs.Typing as typing;
ghost use Rattle.c_tree.specs.declared.program.Function.{Function};
ghost use Rattle.c_check.specs.Words.{noted};
ghost use Rattle.c_check.specs.Files.{all_declared, parametered, bodied, of_function, of_functions, past};

use crate::calls::is_main;
use crate::locals::Locals;
use crate::note::{note, note_known, note_unless};
use crate::simple::declare;
use crate::stand::Stand;
use crate::stmt::statements;
use crate::structs::note_type;
use c_tree::{CheckCause, Fault, Field, Function, LimitKind, Row, Stmt, Ty};
use name_index::File;
use std::alloc::{AllocError, Global};

/// The most functions that a file may define.
const MAX_FUNCTIONS: usize = 2000;

/// Notes the faults of the functions of a file.
pub fn functions(
    alloc: Global,
    functions: &[Function],
    file: &File<'_>,
    first: &mut Option<Fault>,
) -> Result<(), AllocError>
    ensures { OnOk result (first.new ≡ noted first.old (of_functions file.now functions.now)) }
{
    for f in functions {
        function(alloc, f, file, first)?;
    }
    Ok(())
}

#[tactic(auto, using(crate::proofs::FileLemmas::function_rules))]
fn function(
    alloc: Global,
    function: &Function,
    file: &File<'_>,
    first: &mut Option<Fault>,
) -> Result<(), AllocError>
    ensures { OnOk result (first.new ≡ noted first.old (of_function file.now function.now)) }
{
    let at = function.name.at;
    let name = &function.name.it;
    note_known(first, file.is_defined(name), at, name)?;
    let may_stand = !is_main(name) || may_be_main(&function.ret, function.params.as_slice());
    note_unless(first, may_stand, at, CheckCause::BadMain);
    note_type(at, &function.ret, file, first)?;
    let mut locals = Locals::new(alloc);
    parameters(function.params.as_slice(), file, &mut locals, first)?;
    body(&function.ret, &function.body, file, &mut locals, first)
}

fn may_be_main(ret: &Ty, params: &[Field]) -> bool
    ensures { result ≡ (types.is_int ret.now && typing.has_no_parameters params.now) }
{
    match params {
        [] => ret.is_int(),
        _ => false,
    }
}

/// Declares the parameters of a function.
fn parameters(
    params: &[Field],
    file: &File<'_>,
    locals: &mut Locals,
    first: &mut Option<Fault>,
) -> Result<(), AllocError>
    ensures locals { OnOk result (locals.new ≡ all_declared locals.old params.now) }
    ensures faults { OnOk result (first.new ≡ noted first.old
        (parametered file.now locals.old params.now)) }
{
    for param in params {
        declare(
            param.name.at,
            &param.name.it,
            &param.ty,
            file,
            locals,
            first,
        )?;
    }
    Ok(())
}

/// Notes the faults of a function's body, where it has one.
#[tactic(auto, using(crate::proofs::FileLemmas::function_rules))]
fn body(
    ret: &Ty,
    body: &Option<Row<Stmt>>,
    file: &File<'_>,
    locals: &mut Locals,
    first: &mut Option<Fault>,
) -> Result<(), AllocError>
    ensures { OnOk result (first.new ≡ noted first.old
        (bodied file.now locals.old ret.now body.now)) }
{
    match body {
        None => Ok(()),
        Some(body) => {
            let stand = Stand {
                file,
                ret,
                in_loop: false,
            };
            statements(body.as_slice(), &stand, locals, first)?;
            Ok(())
        }
    }
}

/// Notes each function that is defined past the limit.
pub fn too_many(functions: &[Function], first: &mut Option<Fault>)
    ensures { first.new ≡ noted first.old (past MAX_FUNCTIONS functions.now) }
{
    let mut room = MAX_FUNCTIONS;
    for f in functions {
        room = room_after(f, room, first);
    }
}

/// The number of definitions that may follow a function, of which there may be so many from it on.
#[tactic(auto, using(crate::proofs::FileLemmas::passing))]
fn room_after(function: &Function, room: usize, first: &mut Option<Fault>) -> usize
    ensures { (rest : List Function) → noted first.old (past room (function.now ∷ rest))
        ≡ noted first.new (past result rest) }
{
    if function.body.is_none() {
        return room;
    }
    if room == 0 {
        note(
            first,
            function.name.at,
            CheckCause::Limit(LimitKind::Functions),
        );
        return 0;
    }
    room - 1
}
