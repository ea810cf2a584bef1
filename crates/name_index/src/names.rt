//! The names that a file declares, in text order.

ghost use Rattle.std.specs.Prelude.{◌≡◌, [], ◌∷◌, ◌++◌, map, IfOk, OnOk};
ghost use Rattle.std.specs.List.{enumerate_from};
ghost use Rattle.c_tree.specs.Scope as scope;
ghost use Rattle.c_tree.specs.declared.scope.Meaning.TheVariants as m;

use c_tree::{At, Define, Function, GlobalDecl, Meaning, Name, Named, Program, narrowed};
use std::alloc::{AllocError, Global};

/// The names of a file. Those at one offset stand kind by kind.
pub fn names_of(alloc: Global, program: &Program) -> Result<Vec<Named>, AllocError>
    ensures { IfOk result (λ v. v.items ≡ scope.names_of program.now) }
{
    let mut names = Vec::new(alloc);
    add_defines(&mut names, program.defines.as_slice())?;
    add_globals(&mut names, program.globals.as_slice())?;
    add_mutexes(&mut names, program.mutexes.as_slice())?;
    add_functions(&mut names, program.functions.as_slice())?;
    in_text_order(names)
}

/// The names in text order. Those at one offset stay in their order.
fn in_text_order(mut names: Vec<Named>) -> Result<Vec<Named>, AllocError>
    ensures { IfOk result (λ v. v.items ≡ scope.in_order names.items) }
{
    names.sort_by_key(|n| n.at)?;
    Ok(names)
}

fn add(names: &mut Vec<Named>, name: &At<Name>, meaning: Meaning) -> Result<(), AllocError>
    ensures { OnOk result (names.new.items ≡ names.old.items ++ scope.named name.now meaning ∷ []) }
{
    names.push(Named {
        at: name.at,
        name: name.it.clone()?,
        meaning,
    })?;
    Ok(())
}

fn add_defines(names: &mut Vec<Named>, defines: &[Define]) -> Result<(), AllocError>
    ensures { OnOk result (names.new.items ≡ names.old.items ++
        map (λ x. scope.named x.1.name (m.Constant x.0)) (enumerate_from 0 defines.now)) }
{
    for (i, define) in defines.iter().enumerate() {
        add(names, &define.name, Meaning::Constant(narrowed(i)?))?;
    }
    Ok(())
}

fn add_globals(names: &mut Vec<Named>, globals: &[GlobalDecl]) -> Result<(), AllocError>
    ensures { OnOk result (names.new.items ≡ names.old.items ++
        map (λ x. scope.named x.1.name (m.Global x.0)) (enumerate_from 0 globals.now)) }
{
    for (i, global) in globals.iter().enumerate() {
        add(names, &global.name, Meaning::Global(narrowed(i)?))?;
    }
    Ok(())
}

fn add_mutexes(names: &mut Vec<Named>, mutexes: &[At<Name>]) -> Result<(), AllocError>
    ensures { OnOk result (names.new.items ≡ names.old.items ++
        map (λ x. scope.named x.1 (m.Mutex x.0)) (enumerate_from 0 mutexes.now)) }
{
    for (i, mutex) in mutexes.iter().enumerate() {
        add(names, mutex, Meaning::Mutex(narrowed(i)?))?;
    }
    Ok(())
}

fn add_functions(names: &mut Vec<Named>, functions: &[Function]) -> Result<(), AllocError>
    ensures { OnOk result (names.new.items ≡ names.old.items ++
        map (λ x. scope.named x.1.name (m.Routine x.0)) (enumerate_from 0 functions.now)) }
{
    for (i, function) in functions.iter().enumerate() {
        add(names, &function.name, Meaning::Routine(narrowed(i)?))?;
    }
    Ok(())
}
