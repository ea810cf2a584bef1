//! Programs are lifted.

ghost use Rattle.std.specs.Prelude.{◌≡◌, [], ◌∷◌, ◌++◌, map, None, codes, IfOk, IfErr, OnOk};
ghost use Rattle.c_tree.specs.Formed.{IsFormed};
ghost use Rattle.c_tree.specs.Lifting as lifting;
ghost use Rattle.c_tree.specs.Typing.{definitions};
ghost use Rattle.c_lift.specs.Refusal.{IsDue, IsDueAt};

use crate::function::lift_function;
use crate::global::{lift_globals, lift_mutexes, lift_structs};
use crate::places::passed_limit;
use crate::refusal::LiftRefused;
use c_tree::{Checked, Function, LFunction, Lifted, Name, Program, Row};
use name_index::File;
use std::alloc::{AllocError, Global};

/// A function within the limits.
fn lift_within(alloc: Global, file: &File, function: &Function) -> Result<LFunction, LiftRefused>
    ensures lifted { IfOk result (λ g. g ≡ lifting.lift_function file.now
        function.now) }
    ensures within { IfOk result (λ g. lifting.passed_limit g ≡ None) }
    ensures limit { IfErr result (IsDueAt file.now function.now) }
{
    let lifted = lift_function(alloc, file, function)?;
    match passed_limit(&lifted) {
        None => Ok(lifted),
        Some(kind) => Err(LiftRefused::Limit(function.name.at, kind)),
    }
}

fn add_function(functions: &mut Vec<LFunction>, function: LFunction) -> Result<(), AllocError>
    ensures { OnOk result (functions.new.items ≡ functions.old.items ++ function ∷ []) }
{
    functions.push(function)?;
    Ok(())
}

/// The functions that have a body, in their order.
fn lift_functions(alloc: Global, file: &File) -> Result<Vec<LFunction>, LiftRefused>
    ensures lifted { IfOk result (λ v. v.items ≡ map (lifting.lift_function
        file.now) (definitions file.now)) }
    ensures within { OnOk result (lifting.lift_limit file.now ≡ None) }
    ensures limit { IfErr result (IsDue file.now) }
{
    let functions = file.program().functions.as_slice();
    let mut lifted = Vec::new(alloc);
    for function in functions {
        if function.body.is_some() {
            let function = lift_within(alloc, file, function)?;
            add_function(&mut lifted, function)?;
        }
    }
    Ok(lifted)
}

/// The number of `main`.
fn main_number(alloc: Global, file: &File) -> Result<u32, AllocError>
    ensures { IfOk result (λ n. n ≡ lifting.function_number file.now (codes "main")) }
{
    let main = Name::from_vec(b"main".to_vec(alloc)?);
    Ok(file.function_number(&main))
}

/// The lifting of a program, of which the names are at hand.
fn lift_file(alloc: Global, file: &File) -> Result<Lifted, LiftRefused>
    ensures lifted { IfOk result (λ l. l ≡ lifting.lift file.now) }
    ensures within { OnOk result (lifting.lift_limit file.now ≡ None) }
    ensures limit { IfErr result (IsDue file.now) }
{
    let functions = lift_functions(alloc, file)?;
    let main = main_number(alloc, file)?;
    let program = file.program();
    Ok(Lifted {
        structs: lift_structs(alloc, program.structs.as_slice())?,
        globals: lift_globals(alloc, file)?,
        mutexes: lift_mutexes(alloc, program.mutexes.as_slice())?,
        functions: Row::from_vec(functions),
        main,
    })
}

/// The lifting of a program, well typed or not.
fn lift_program(alloc: Global, program: &Program) -> Result<Lifted, LiftRefused>
    ensures lifted { IfOk result (λ l. l ≡ lifting.lift program.now) }
    ensures within { OnOk result (lifting.lift_limit program.now ≡ None) }
    ensures limit { IfErr result (IsDue program.now) }
{
    let file = File::of(alloc, program)?;
    let lifted = lift_file(alloc, &file)?;
    Ok(lifted)
}

/// The lifting of a well-typed program: the calls inside its expressions stand alone, its loops are
/// of one form, and its names are numbers.
pub fn lift(alloc: Global, checked: &Checked) -> Result<Lifted, LiftRefused>
    ensures lifted { IfOk result (λ l. l ≡ lifting.lift checked.now) }

    // No function passes a limit, and so the lifting is formed.
    ensures within { OnOk result (lifting.lift_limit checked.now ≡ None) }
    ensures formed { IfOk result IsFormed }

    // The limit is that of the first function that passes one.
    ensures limit { IfErr result (IsDue checked.now) }
{
    let lifted = lift_program(alloc, checked.program())?;
    Ok(lifted)
}
