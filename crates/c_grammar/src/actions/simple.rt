//! The actions that make statements out of expressions.

ghost use Rattle.std.specs.Prelude.{◌≡◌, ◌∷◌, reverse, OnOk};
ghost use Rattle.c_grammar.specs.Effects.{Does};
ghost use Rattle.c_grammar.specs.Effects as spec;
ghost use Rattle.c_grammar.specs.declared.action.Action.TheVariants as action;
ghost use Rattle.c_grammar.specs.declared.value.Value.TheVariants as value;

use crate::actions::pop::{pop_exprs, pop_operand, pop_word};
use crate::actions::sign::{assigned_of, stepped_of};
use crate::actions::stmt::push_stmt;
use crate::token::{kind_of, text_of};
use crate::value::{Operand, Value};
use c_tree::{Expr, ExprKind, StmtKind, Token};
use std::alloc::{AllocError, Global};

/// An assignment, of `=` or with an operator (ISO C11, 6.5.16), as a statement.
pub fn assign(alloc: Global, values: &mut Vec<Value>) -> Result<(), AllocError>
    ensures { OnOk result (Does action.Assign values.old.items values.new.items) }
{
    let right = pop_operand(values);
    let sign = pop_word(values);
    let left = pop_operand(values);
    let op = assigned_of(kind_of(&sign.kind));
    push_stmt(
        alloc,
        values,
        left.first,
        StmtKind::Assign(left.expr, op, right.expr),
    )
}

/// Pushes the assignment by which a place is made one more, or one less.
fn push_step(
    alloc: Global,
    values: &mut Vec<Value>,
    begin: u32,
    place: Operand,
    sign: &Token,
) -> Result<(), AllocError>
    ensures { OnOk result (reverse values.new.items
        ≡ value.Stmt (spec.stepped begin place sign.now) ∷ reverse values.old.items) }
{
    let op = stepped_of(kind_of(&sign.kind));
    let one = Expr {
        at: sign.at,
        kind: ExprKind::Num(1),
    };
    push_stmt(
        alloc,
        values,
        begin,
        StmtKind::Assign(place.expr, Some(op), one),
    )
}

/// A place with `++` or `--` behind it (ISO C11, 6.5.2.4), as a statement.
pub fn step_after(alloc: Global, values: &mut Vec<Value>) -> Result<(), AllocError>
    ensures { OnOk result (Does action.Post values.old.items values.new.items) }
{
    let sign = pop_word(values);
    let place = pop_operand(values);
    let begin = place.first;
    push_step(alloc, values, begin, place, &sign)
}

/// A place with `++` or `--` before it (ISO C11, 6.5.3.1), as a statement.
pub fn step_before(alloc: Global, values: &mut Vec<Value>) -> Result<(), AllocError>
    ensures { OnOk result (Does action.Pre values.old.items values.new.items) }
{
    let place = pop_operand(values);
    let sign = pop_word(values);
    push_step(alloc, values, sign.at, place, &sign)
}

/// A call whose result is let go (ISO C11, 6.8.3).
pub fn run(alloc: Global, values: &mut Vec<Value>) -> Result<(), AllocError>
    ensures { OnOk result (Does action.Run values.old.items values.new.items) }
{
    let call = pop_operand(values);
    push_stmt(alloc, values, call.first, StmtKind::Run(call.expr))
}

/// `free(POINTER)` (ISO C11, 7.22.3.3).
pub fn free(alloc: Global, values: &mut Vec<Value>) -> Result<(), AllocError>
    ensures { OnOk result (Does action.Free values.old.items values.new.items) }
{
    let freed = pop_operand(values).expr;
    let word = pop_word(values);
    push_stmt(alloc, values, word.at, StmtKind::Free(freed))
}

/// `printf(TEXT, ..)` (ISO C11, 7.21.6.3).
pub fn print(alloc: Global, values: &mut Vec<Value>) -> Result<(), AllocError>
    ensures { OnOk result (Does action.Print values.old.items values.new.items) }
{
    let arguments = pop_exprs(alloc, values);
    let text = pop_word(values);
    let word = pop_word(values);
    push_stmt(
        alloc,
        values,
        word.at,
        StmtKind::Print(text_of(alloc, text.kind), arguments),
    )
}
