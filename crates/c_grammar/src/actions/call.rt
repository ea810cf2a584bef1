//! The actions that make calls, and lists of expressions.

ghost use Rattle.std.specs.Prelude.{OnOk};
ghost use Rattle.c_grammar.specs.Effects.{Does};
ghost use Rattle.c_grammar.specs.declared.action.Action.TheVariants as action;

use crate::actions::expr::push_expr;
use crate::actions::pop::{pop_exprs, pop_name, pop_operand, pop_word, push_value};
use crate::token::text_of;
use crate::value::Value;
use c_tree::{Boxed, ExprKind, Items, Row};
use std::alloc::{AllocError, Global};

/// No arguments yet: the empty list, to which `more_exprs` adds.
pub fn no_exprs(alloc: Global, values: &mut Vec<Value>) -> Result<(), AllocError>
    ensures { OnOk result (Does action.NoArgs values.old.items values.new.items) }
{
    push_value(values, Value::Exprs(Row::from_vec(Vec::new(alloc))))
}

/// The first argument of a call (ISO C11, 6.5.2.2).
pub fn one_expr(alloc: Global, values: &mut Vec<Value>) -> Result<(), AllocError>
    ensures { OnOk result (Does action.OneArg values.old.items values.new.items) }
{
    let only = pop_operand(values);
    let mut exprs = Row::from_vec(Vec::new(alloc));
    exprs.push(only.expr)?;
    push_value(values, Value::Exprs(exprs))
}

/// One more argument, behind the others.
pub fn more_exprs(alloc: Global, values: &mut Vec<Value>) -> Result<(), AllocError>
    ensures { OnOk result (Does action.MoreArg values.old.items values.new.items) }
{
    let last = pop_operand(values);
    let mut exprs = pop_exprs(alloc, values);
    exprs.push(last.expr)?;
    push_value(values, Value::Exprs(exprs))
}

/// An expression that is left out, as in `return;` or `for (;;)`.
pub fn no_expr(values: &mut Vec<Value>) -> Result<(), AllocError>
    ensures { OnOk result (Does action.NoExpr values.old.items values.new.items) }
{
    push_value(values, Value::MaybeExpr(None))
}

/// An expression that may be left out, and is there.
pub fn some_expr(values: &mut Vec<Value>) -> Result<(), AllocError>
    ensures { OnOk result (Does action.SomeExpr values.old.items values.new.items) }
{
    let operand = pop_operand(values);
    push_value(values, Value::MaybeExpr(Some(operand.expr)))
}

/// A call of a function by its name (ISO C11, 6.5.2.2).
pub fn call(alloc: Global, values: &mut Vec<Value>) -> Result<(), AllocError>
    ensures { OnOk result (Does action.Call values.old.items values.new.items) }
{
    let arguments = Items::from_vec(pop_exprs(alloc, values).into_vec());
    let name = pop_word(values);
    push_expr(
        values,
        name.at,
        ExprKind::Call(text_of(alloc, name.kind), arguments),
    )
}

/// `malloc(sizeof(struct NAME))`: a new object of the struct (ISO C11, 7.22.3.4).
pub fn malloc(alloc: Global, values: &mut Vec<Value>) -> Result<(), AllocError>
    ensures { OnOk result (Does action.Malloc values.old.items values.new.items) }
{
    let name = pop_name(alloc, values);
    let word = pop_word(values);
    push_expr(values, word.at, ExprKind::Malloc(name))
}

/// `getchar()`: the next byte of the input, or EOF (ISO C11, 7.21.7.6).
pub fn getchar(values: &mut Vec<Value>) -> Result<(), AllocError>
    ensures { OnOk result (Does action.Getchar values.old.items values.new.items) }
{
    let word = pop_word(values);
    push_expr(values, word.at, ExprKind::Getchar)
}

/// `pthread_create(&PLACE, NULL, NAME, ARGUMENT)` (POSIX): a new thread that calls the function.
pub fn create(alloc: Global, values: &mut Vec<Value>) -> Result<(), AllocError>
    ensures { OnOk result (Does action.Create values.old.items values.new.items) }
{
    let argument = Boxed::new(alloc, pop_operand(values).expr)?;
    let started = pop_name(alloc, values);
    let thread = Boxed::new(alloc, pop_operand(values).expr)?;
    let word = pop_word(values);
    push_expr(values, word.at, ExprKind::Create(thread, started, argument))
}

/// `pthread_join(THREAD, NULL)` (POSIX): waits for the end of a thread.
pub fn join(alloc: Global, values: &mut Vec<Value>) -> Result<(), AllocError>
    ensures { OnOk result (Does action.Join values.old.items values.new.items) }
{
    let thread = Boxed::new(alloc, pop_operand(values).expr)?;
    let word = pop_word(values);
    push_expr(values, word.at, ExprKind::Join(thread))
}

/// `pthread_mutex_lock(&NAME)` (POSIX).
pub fn lock(alloc: Global, values: &mut Vec<Value>) -> Result<(), AllocError>
    ensures { OnOk result (Does action.Lock values.old.items values.new.items) }
{
    let mutex = pop_name(alloc, values);
    let word = pop_word(values);
    push_expr(values, word.at, ExprKind::Lock(mutex))
}

/// `pthread_mutex_unlock(&NAME)` (POSIX).
pub fn unlock(alloc: Global, values: &mut Vec<Value>) -> Result<(), AllocError>
    ensures { OnOk result (Does action.Unlock values.old.items values.new.items) }
{
    let mutex = pop_name(alloc, values);
    let word = pop_word(values);
    push_expr(values, word.at, ExprKind::Unlock(mutex))
}
