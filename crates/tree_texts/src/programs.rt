//! A whole program as text: each declaration with the offsets of its names, and its length.

use crate::causes::word;
use crate::trees::{put_body, put_type};
use c_tree::{At, Const, Count, Define, Field, Function, GlobalDecl, Name, Program, Struct, Ty};
use std::alloc::{AllocError, Global};

fn put_at(text: &mut String, name: &At<Name>) -> Result<(), AllocError> {
    let it = word(&name.it);
    write!(text, "{it}@{} ", name.at)
}

fn put_declared(text: &mut String, ty: &Ty, name: &At<Name>) -> Result<(), AllocError> {
    put_type(text, ty)?;
    put_at(text, name)
}

fn put_fields(text: &mut String, fields: &[Field]) -> Result<(), AllocError> {
    for field in fields {
        put_declared(text, &field.ty, &field.name)?;
    }
    Ok(())
}

fn put_struct(text: &mut String, declared: &Struct) -> Result<(), AllocError> {
    text.push_str("struct ")?;
    put_at(text, &declared.name)?;
    put_fields(text, declared.fields.as_slice())
}

fn put_count(text: &mut String, count: &Count) -> Result<(), AllocError> {
    match count {
        Count::Number(n) => write!(text, "[{n}]"),
        Count::Named(name) => write!(text, "[{}]", word(name)),
    }
}

fn put_const(text: &mut String, init: &Const) -> Result<(), AllocError> {
    match init {
        Const::Number(true, n) => write!(text, "-{n}"),
        Const::Number(false, n) => write!(text, "{n}"),
        Const::Named(name) => text.push_str(word(name)),
        Const::Null => text.push_str("NULL"),
    }
}

fn put_global(text: &mut String, global: &GlobalDecl) -> Result<(), AllocError> {
    put_declared(text, &global.ty, &global.name)?;
    if let Some(count) = &global.count {
        put_count(text, &count.it)?;
        write!(text, "@{} ", count.at)?;
    }
    if let Some(init) = &global.init {
        put_const(text, &init.it)?;
        write!(text, "@{} ", init.at)?;
    }
    Ok(())
}

fn put_define(text: &mut String, define: &Define) -> Result<(), AllocError> {
    text.push_str("define ")?;
    put_at(text, &define.name)
}

fn put_function(text: &mut String, alloc: Global, function: &Function) -> Result<(), AllocError> {
    put_declared(text, &function.ret, &function.name)?;
    put_fields(text, function.params.as_slice())?;
    match &function.body {
        Some(body) => put_body(text, alloc, body.as_slice()),
        None => Ok(()),
    }
}

fn put_data(text: &mut String, program: &Program) -> Result<(), AllocError> {
    for declared in program.structs.as_slice() {
        put_struct(text, declared)?;
        text.push_str("; ")?;
    }
    for global in program.globals.as_slice() {
        put_global(text, global)?;
        text.push_str("; ")?;
    }
    for mutex in program.mutexes.as_slice() {
        text.push_str("mutex ")?;
        put_at(text, mutex)?;
        text.push_str("; ")?;
    }
    Ok(())
}

/// A program: its structs, globals, mutexes, defines and functions, and its length.
///
/// # Errors
/// Memory for the text.
pub fn put_program(text: &mut String, alloc: Global, program: &Program) -> Result<(), AllocError> {
    put_data(text, program)?;
    for define in program.defines.as_slice() {
        put_define(text, define)?;
        text.push_str("; ")?;
    }
    for function in program.functions.as_slice() {
        put_function(text, alloc, function)?;
        text.push_str("; ")?;
    }
    write!(text, "{}", program.len)
}
