//! The actions that make statements out of words, blocks and other statements.

ghost use Rattle.std.specs.Prelude.{◌≡◌, ◌∷◌, reverse, OnOk};
ghost use Rattle.c_grammar.specs.Effects.{Does};
ghost use Rattle.c_grammar.specs.Values as spec;
ghost use Rattle.c_grammar.specs.declared.action.Action.TheVariants as action;
ghost use Rattle.c_grammar.specs.declared.value.Value.TheVariants as value;

use crate::actions::pop::{
    pop_maybe_expr, pop_maybe_stmt, pop_operand, pop_stmt, pop_stmts, pop_word, push_value,
};
use crate::value::Value;
use c_tree::{Boxed, Items, Row, Stmt, StmtKind};
use std::alloc::{AllocError, Global};

/// Pushes a statement that begins at this offset.
pub fn push_stmt(
    alloc: Global,
    values: &mut Vec<Value>,
    at: u32,
    kind: StmtKind,
) -> Result<(), AllocError>
    ensures { OnOk result (reverse values.new.items
        ≡ value.Stmt (spec.statement at kind) ∷ reverse values.old.items) }
{
    let stmt = Boxed::new(alloc, Stmt { at, kind })?;
    push_value(values, Value::Stmt(stmt))
}

/// No statements yet: the empty list, to which `more_stmts` adds.
pub fn no_stmts(alloc: Global, values: &mut Vec<Value>) -> Result<(), AllocError>
    ensures { OnOk result (Does action.NoStmts values.old.items values.new.items) }
{
    push_value(values, Value::Stmts(Row::from_vec(Vec::new(alloc))))
}

/// One more statement, behind the others.
pub fn more_stmts(alloc: Global, values: &mut Vec<Value>) -> Result<(), AllocError>
    ensures { OnOk result (Does action.MoreStmt values.old.items values.new.items) }
{
    let last = pop_stmt(alloc, values)?;
    let mut stmts = pop_stmts(alloc, values);
    stmts.push(last.into_inner())?;
    push_value(values, Value::Stmts(stmts))
}

/// A statement that is left out, as the step of `for (;;)`.
pub fn no_stmt(values: &mut Vec<Value>) -> Result<(), AllocError>
    ensures { OnOk result (Does action.NoStmt values.old.items values.new.items) }
{
    push_value(values, Value::MaybeStmt(None))
}

/// A statement that may be left out, and is there.
pub fn some_stmt(alloc: Global, values: &mut Vec<Value>) -> Result<(), AllocError>
    ensures { OnOk result (Does action.SomeStmt values.old.items values.new.items) }
{
    let stmt = pop_stmt(alloc, values)?;
    push_value(values, Value::MaybeStmt(Some(stmt)))
}

/// The empty statement (ISO C11, 6.8.3).
pub fn empty(alloc: Global, values: &mut Vec<Value>) -> Result<(), AllocError>
    ensures { OnOk result (Does action.EmptyStmt values.old.items values.new.items) }
{
    let sign = pop_word(values);
    push_stmt(alloc, values, sign.at, StmtKind::Empty)
}

/// A block (ISO C11, 6.8.2); it stands at its opening brace.
pub fn block(alloc: Global, values: &mut Vec<Value>) -> Result<(), AllocError>
    ensures { OnOk result (Does action.BlockStmt values.old.items values.new.items) }
{
    let stmts = Items::from_vec(pop_stmts(alloc, values).into_vec());
    let bracket = pop_word(values);
    push_stmt(alloc, values, bracket.at, StmtKind::Block(stmts))
}

/// An `if` without an `else` (ISO C11, 6.8.4.1).
pub fn branch(alloc: Global, values: &mut Vec<Value>) -> Result<(), AllocError>
    ensures { OnOk result (Does action.If values.old.items values.new.items) }
{
    let then = pop_stmt(alloc, values)?;
    let test = pop_operand(values).expr;
    let word = pop_word(values);
    push_stmt(alloc, values, word.at, StmtKind::If(test, then, None))
}

/// An `if` with an `else` (ISO C11, 6.8.4.1).
pub fn branches(alloc: Global, values: &mut Vec<Value>) -> Result<(), AllocError>
    ensures { OnOk result (Does action.IfElse values.old.items values.new.items) }
{
    let other = pop_stmt(alloc, values)?;
    let then = pop_stmt(alloc, values)?;
    let test = pop_operand(values).expr;
    let word = pop_word(values);
    push_stmt(
        alloc,
        values,
        word.at,
        StmtKind::If(test, then, Some(other)),
    )
}

/// A `while` (ISO C11, 6.8.5.1).
pub fn repeat(alloc: Global, values: &mut Vec<Value>) -> Result<(), AllocError>
    ensures { OnOk result (Does action.While values.old.items values.new.items) }
{
    let body = pop_stmt(alloc, values)?;
    let test = pop_operand(values).expr;
    let word = pop_word(values);
    push_stmt(alloc, values, word.at, StmtKind::While(test, body))
}

/// A `for` (ISO C11, 6.8.5.3); each of its three parts may be left out.
pub fn count(alloc: Global, values: &mut Vec<Value>) -> Result<(), AllocError>
    ensures { OnOk result (Does action.For values.old.items values.new.items) }
{
    let body = pop_stmt(alloc, values)?;
    let step = pop_maybe_stmt(values);
    let test = pop_maybe_expr(values);
    let start = Items::from_vec(pop_stmts(alloc, values).into_vec());
    let word = pop_word(values);
    push_stmt(
        alloc,
        values,
        word.at,
        StmtKind::For(start, test, step, body),
    )
}

/// A `break` (ISO C11, 6.8.6.3).
pub fn leave_loop(alloc: Global, values: &mut Vec<Value>) -> Result<(), AllocError>
    ensures { OnOk result (Does action.Break values.old.items values.new.items) }
{
    let word = pop_word(values);
    push_stmt(alloc, values, word.at, StmtKind::Break)
}

/// A `continue` (ISO C11, 6.8.6.2).
pub fn next_turn(alloc: Global, values: &mut Vec<Value>) -> Result<(), AllocError>
    ensures { OnOk result (Does action.Continue values.old.items values.new.items) }
{
    let word = pop_word(values);
    push_stmt(alloc, values, word.at, StmtKind::Continue)
}

/// A `return`, with a result or without one (ISO C11, 6.8.6.4).
pub fn give_back(alloc: Global, values: &mut Vec<Value>) -> Result<(), AllocError>
    ensures { OnOk result (Does action.Return values.old.items values.new.items) }
{
    let result = pop_maybe_expr(values);
    let word = pop_word(values);
    push_stmt(alloc, values, word.at, StmtKind::Return(result))
}
