//! The actions that make the parts of a file.

ghost use Rattle.std.specs.Prelude.{◌≡◌, ◌∷◌, reverse, OnOk};
ghost use Rattle.c_grammar.specs.Effects.{Does};
ghost use Rattle.c_grammar.specs.Effects as spec;
ghost use Rattle.c_grammar.specs.Values.{third, fourth, fifth, program_in};
ghost use Rattle.c_grammar.specs.declared.action.Action.TheVariants as action;
ghost use Rattle.c_grammar.specs.declared.value.Value.TheVariants as value;

use crate::actions::pop::{
    drop_value, no_program, pop_const, pop_count, pop_define, pop_fields, pop_name, pop_program,
    pop_stmts, pop_ty, push_value,
};
use crate::value::Value;
use c_tree::{At, Const, Count, Function, GlobalDecl, Row, Stmt, Struct};
use std::alloc::{AllocError, Global};

/// A program without anything, of a file of no bytes.
pub fn start_program(alloc: Global, values: &mut Vec<Value>) -> Result<(), AllocError>
    ensures { OnOk result (Does action.StartProgram values.old.items values.new.items) }
{
    push_value(values, Value::Program(no_program(alloc)))
}

/// A define (ISO C11, 6.10.3), behind the others of the program.
pub fn define(alloc: Global, values: &mut Vec<Value>) -> Result<(), AllocError>
    ensures { OnOk result (Does action.DefineItem values.old.items values.new.items) }
{
    let define = pop_define(alloc, values);
    let mut program = pop_program(alloc, values);
    program.defines.push(define)?;
    push_value(values, Value::Program(program))
}

/// A struct with its fields (ISO C11, 6.7.2.1).
pub fn structure(alloc: Global, values: &mut Vec<Value>) -> Result<(), AllocError>
    ensures { OnOk result (Does action.StructItem values.old.items values.new.items) }
{
    let fields = pop_fields(alloc, values);
    let name = pop_name(alloc, values);
    let mut program = pop_program(alloc, values);
    program.structs.push(Struct { name, fields })?;
    push_value(values, Value::Program(program))
}

/// Takes the type and the name of a global, and puts it into the program.
fn push_global(
    alloc: Global,
    values: &mut Vec<Value>,
    count: Option<At<Count>>,
    init: Option<At<Const>>,
) -> Result<(), AllocError>
    ensures { OnOk result (let vs = reverse values.old.items in reverse values.new.items
        ≡ value.Program (spec.with_global (program_in (third vs)) (spec.global vs count init))
        ∷ fourth vs) }
{
    let name = pop_name(alloc, values);
    let ty = pop_ty(values);
    let mut program = pop_program(alloc, values);
    program.globals.push(GlobalDecl {
        name,
        ty,
        count,
        init,
    })?;
    push_value(values, Value::Program(program))
}

/// A global array, whose elements start at 0 (ISO C11, 6.7.9).
pub fn array(alloc: Global, values: &mut Vec<Value>) -> Result<(), AllocError>
    ensures { OnOk result (Does action.ArrayItem values.old.items values.new.items) }
{
    let count = pop_count(values);
    push_global(alloc, values, Some(count), None)
}

/// A global scalar with its initialiser (ISO C11, 6.7.9).
pub fn scalar_with_start(alloc: Global, values: &mut Vec<Value>) -> Result<(), AllocError>
    ensures { OnOk result (Does action.InitItem values.old.items values.new.items) }
{
    let init = pop_const(values);
    push_global(alloc, values, None, Some(init))
}

/// A global scalar without an initialiser, which starts at 0 (ISO C11, 6.7.9).
pub fn scalar(alloc: Global, values: &mut Vec<Value>) -> Result<(), AllocError>
    ensures { OnOk result (Does action.PlainItem values.old.items values.new.items) }
{
    push_global(alloc, values, None, None)
}

/// A mutex (POSIX).
pub fn mutex(alloc: Global, values: &mut Vec<Value>) -> Result<(), AllocError>
    ensures { OnOk result (Does action.MutexItem values.old.items values.new.items) }
{
    let name = pop_name(alloc, values);
    let mut program = pop_program(alloc, values);
    program.mutexes.push(name)?;
    push_value(values, Value::Program(program))
}

/// Takes the type, the name and the parameters of a function, and puts it into the program.
fn push_function(
    alloc: Global,
    values: &mut Vec<Value>,
    body: Option<Row<Stmt>>,
) -> Result<(), AllocError>
    ensures { OnOk result (let vs = reverse values.old.items in reverse values.new.items
        ≡ value.Program (spec.with_function (program_in (fourth vs)) (spec.function vs body))
        ∷ fifth vs) }
{
    let params = pop_fields(alloc, values);
    let name = pop_name(alloc, values);
    let ret = pop_ty(values);
    let mut program = pop_program(alloc, values);
    program.functions.push(Function {
        name,
        ret,
        params,
        body,
    })?;
    push_value(values, Value::Program(program))
}

/// A function with its body (ISO C11, 6.9.1).
pub fn function(alloc: Global, values: &mut Vec<Value>) -> Result<(), AllocError>
    ensures { OnOk result (Does action.FunctionItem values.old.items values.new.items) }
{
    let body = pop_stmts(alloc, values);
    drop_value(values);
    push_function(alloc, values, Some(body))
}

/// A function that is declared without its body (ISO C11, 6.7.6.3).
pub fn prototype(alloc: Global, values: &mut Vec<Value>) -> Result<(), AllocError>
    ensures { OnOk result (Does action.PrototypeItem values.old.items values.new.items) }
{
    push_function(alloc, values, None)
}
