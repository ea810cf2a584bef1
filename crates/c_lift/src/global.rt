//! Globals and structs.

ghost use Rattle.std.specs.Prelude.{◌≡◌, map, IfOk};
ghost use Rattle.c_tree.specs.Scope as spec;
ghost use Rattle.std.specs.Option.{option_copied};
ghost use Rattle.c_tree.specs.Lifting as lifting;

use c_tree::{
    At, Const, Count, Define, Field, GlobalDecl, LGlobal, LStruct, Name, Row, Slot, Struct,
};
use name_index::{File, length_of_array};
use std::alloc::{AllocError, Global};

fn signed(minus: bool, n: i32) -> i32
    ensures { result ≡ lifting.signed minus n }
{
    if minus && n > 0 { -n } else { n }
}

/// The value of a define, and 0 where there is none.
fn value_of(define: Option<&Define>) -> i32
    ensures { result ≡ lifting.value_of (option_copied define.entry) }
{
    match define {
        Some(define) => signed(define.minus, define.value),
        None => 0,
    }
}

fn first_value(file: &File, value: &Const) -> i32
    ensures { result ≡ lifting.first_value (spec.file_scope file.now) value.now }
{
    match value {
        Const::Number(minus, n) => signed(*minus, *n),
        Const::Named(name) => value_of(file.define(file.meaning(name))),
        Const::Null => 0,
    }
}

fn start_of(file: &File, init: &Option<At<Const>>) -> i32
    ensures { result ≡ lifting.start_of (spec.file_scope file.now) init.now }
{
    match init {
        Some(init) => first_value(file, &init.it),
        None => 0,
    }
}

fn array_length(file: &File, count: &Option<At<Count>>) -> Option<u32>
    ensures { result ≡ lifting.array_length (spec.file_scope file.now) count.now }
{
    match count {
        Some(count) => Some(length_of_array(file, &count.it)),
        None => None,
    }
}

fn lift_global(file: &File, global: &GlobalDecl) -> Result<LGlobal, AllocError>
    ensures { IfOk result (λ g. g ≡ lifting.lift_global (spec.file_scope file.now)
        global.now) }
{
    Ok(LGlobal {
        name: global.name.it.clone()?,
        ty: global.ty.clone()?,
        count: array_length(file, &global.count),
        init: start_of(file, &global.init),
    })
}

/// The globals in their order, with their lengths and first values.
pub fn lift_globals(alloc: Global, file: &File) -> Result<Row<LGlobal>, AllocError>
    ensures { IfOk result (λ r. r ≡ map (lifting.lift_global (spec.file_scope
        file.now)) file.now.globals) }
{
    let globals = file.program().globals.as_slice();
    let mut lifted = Vec::new(alloc);
    for global in globals {
        lifted.push(lift_global(file, global)?)?;
    }
    Ok(Row::from_vec(lifted))
}

fn lift_fields(alloc: Global, fields: &[Field]) -> Result<Row<Slot>, AllocError>
    ensures { IfOk result (λ r. r ≡ map (λ f. record { name = f.name.it; ty = f.ty }) fields.now) }
{
    let mut lifted = Vec::new(alloc);
    for field in fields {
        lifted.push(Slot {
            name: field.name.it.clone()?,
            ty: field.ty.clone()?,
        })?;
    }
    Ok(Row::from_vec(lifted))
}

fn lift_struct(alloc: Global, each: &Struct) -> Result<LStruct, AllocError>
    ensures { IfOk result (λ s. s ≡ lifting.lift_struct each.now) }
{
    Ok(LStruct {
        name: each.name.it.clone()?,
        fields: lift_fields(alloc, each.fields.as_slice())?,
    })
}

/// The structs in their order, with the names and types of their fields.
pub fn lift_structs(alloc: Global, structs: &[Struct]) -> Result<Row<LStruct>, AllocError>
    ensures { IfOk result (λ r. r ≡ map lifting.lift_struct structs.now) }
{
    let mut lifted = Vec::new(alloc);
    for each in structs {
        lifted.push(lift_struct(alloc, each)?)?;
    }
    Ok(Row::from_vec(lifted))
}

/// The names of the mutexes in their order.
pub fn lift_mutexes(alloc: Global, mutexes: &[At<Name>]) -> Result<Row<Name>, AllocError>
    ensures { IfOk result (λ r. r ≡ map (λ m. m.it) mutexes.now) }
{
    let mut lifted = Vec::new(alloc);
    for mutex in mutexes {
        lifted.push(mutex.it.clone()?)?;
    }
    Ok(Row::from_vec(lifted))
}
