//! The actions that make types and what is declared with them.

ghost use Rattle.std.specs.Prelude.{◌≡◌, [], ◌∷◌, ◌++◌, reverse, OnOk};
ghost use Rattle.c_grammar.specs.Effects.{Does};
ghost use Rattle.c_grammar.specs.Effects as spec;
ghost use Rattle.c_grammar.specs.Values.{older, third, stmts_in};
ghost use Rattle.c_grammar.specs.declared.action.Action.TheVariants as action;
ghost use Rattle.c_grammar.specs.declared.value.Value.TheVariants as value;

use crate::actions::pop::{
    drop_value, pop_fields, pop_maybe_expr, pop_name, pop_stmts, pop_ty, pop_word, push_value,
};
use crate::token::text_of;
use crate::value::Value;
use c_tree::{Expr, Field, Row, Stmt, StmtKind, Token, Ty};
use std::alloc::{AllocError, Global};

/// The type `int` (ISO C11, 6.7.2).
pub fn int_type(values: &mut Vec<Value>) -> Result<(), AllocError>
    ensures { OnOk result (Does action.IntType values.old.items values.new.items) }
{
    push_value(values, Value::Ty(Ty::Int))
}

/// The type `pthread_t` (POSIX).
pub fn thread_type(values: &mut Vec<Value>) -> Result<(), AllocError>
    ensures { OnOk result (Does action.ThreadType values.old.items values.new.items) }
{
    push_value(values, Value::Ty(Ty::Thread))
}

/// The type `void`, of functions without a result (ISO C11, 6.2.5).
pub fn void_type(values: &mut Vec<Value>) -> Result<(), AllocError>
    ensures { OnOk result (Does action.VoidType values.old.items values.new.items) }
{
    push_value(values, Value::Ty(Ty::Void))
}

/// The type `void *`, which fits each pointer (ISO C11, 6.3.2.3).
pub fn any_type(values: &mut Vec<Value>) -> Result<(), AllocError>
    ensures { OnOk result (Does action.AnyType values.old.items values.new.items) }
{
    push_value(values, Value::Ty(Ty::AnyPtr))
}

/// The type `struct NAME *` (ISO C11, 6.7.6.1).
pub fn pointer_type(alloc: Global, values: &mut Vec<Value>) -> Result<(), AllocError>
    ensures { OnOk result (Does action.PtrType values.old.items values.new.items) }
{
    let name = pop_word(values);
    push_value(values, Value::Ty(Ty::Ptr(text_of(alloc, name.kind))))
}

/// Adds the declaration of a local to the newest statements.
fn push_declared(
    alloc: Global,
    values: &mut Vec<Value>,
    ty: &Ty,
    name: Token,
    start: Option<Expr>,
) -> Result<(), AllocError>
    ensures { OnOk result (let vs = reverse values.old.items in reverse values.new.items
        ≡ value.Stmts (stmts_in vs ++ spec.declared ty.now name start ∷ []) ∷ older vs) }
{
    let ty = ty.clone()?;
    let kind = StmtKind::Declare(ty, text_of(alloc, name.kind), start);
    let mut stmts = pop_stmts(alloc, values);
    stmts.push(Stmt { at: name.at, kind })?;
    push_value(values, Value::Stmts(stmts))
}

/// A local by its name, with its initialiser (ISO C11, 6.7.9): a statement that stands at the name.
/// The type stays for the names that follow it.
pub fn declare(alloc: Global, values: &mut Vec<Value>) -> Result<(), AllocError>
    ensures { OnOk result (Does action.DeclItem values.old.items values.new.items) }
{
    let start = pop_maybe_expr(values);
    let name = pop_word(values);
    let ty = pop_ty(values);
    push_declared(alloc, values, &ty, name, start)?;
    push_value(values, Value::Ty(ty))
}

/// The end of a declaration, which lets its type go.
pub fn end_declaration(values: &mut Vec<Value>) -> Result<(), AllocError>
    ensures { OnOk result (Does action.EndDecl values.old.items values.new.items) }
{
    drop_value(values);
    Ok(())
}

/// No fields or parameters yet: the empty list, to which `more_fields` adds.
pub fn no_fields(alloc: Global, values: &mut Vec<Value>) -> Result<(), AllocError>
    ensures { OnOk result (Does action.NoFields values.old.items values.new.items) }
{
    push_value(values, Value::Fields(Row::from_vec(Vec::new(alloc))))
}

/// Pops a declared name with its type.
fn pop_field(alloc: Global, values: &mut Vec<Value>) -> Field
    ensures value { result ≡ spec.field (reverse values.old.items) }
    ensures rest { reverse values.new.items ≡ third (reverse values.old.items) }
{
    let name = pop_name(alloc, values);
    let ty = pop_ty(values);
    Field { name, ty }
}

/// The first parameter of a function (ISO C11, 6.7.6.3).
pub fn one_field(alloc: Global, values: &mut Vec<Value>) -> Result<(), AllocError>
    ensures { OnOk result (Does action.OneField values.old.items values.new.items) }
{
    let field = pop_field(alloc, values);
    let mut fields = Row::from_vec(Vec::new(alloc));
    fields.push(field)?;
    push_value(values, Value::Fields(fields))
}

/// One more field of a struct (ISO C11, 6.7.2.1), or one more parameter of a function.
pub fn more_fields(alloc: Global, values: &mut Vec<Value>) -> Result<(), AllocError>
    ensures { OnOk result (Does action.MoreField values.old.items values.new.items) }
{
    let field = pop_field(alloc, values);
    let mut fields = pop_fields(alloc, values);
    fields.push(field)?;
    push_value(values, Value::Fields(fields))
}
