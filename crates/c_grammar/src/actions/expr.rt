//! The actions that make expressions without calls.

ghost use Rattle.std.specs.Prelude.{◌≡◌, ◌∷◌, reverse, OnOk};
ghost use Rattle.c_grammar.specs.Effects.{Does};
ghost use Rattle.c_grammar.specs.Values as spec;
ghost use Rattle.c_grammar.specs.declared.action.Action.TheVariants as action;
ghost use Rattle.c_grammar.specs.declared.value.Value.TheVariants as value;

use crate::actions::pop::{pop_operand, pop_ty, pop_word, push_value};
use crate::actions::sign::{binary_of, unary_of};
use crate::token::{kind_of, natural, number_of, text_of};
use crate::value::{Operand, Value};
use c_tree::{Boxed, Expr, ExprKind, Text};
use std::alloc::{AllocError, Global};

/// Pushes an expression that begins at this offset.
pub fn push_expr(values: &mut Vec<Value>, at: u32, kind: ExprKind) -> Result<(), AllocError>
    ensures { OnOk result (reverse values.new.items
        ≡ value.Operand (spec.operand at kind) ∷ reverse values.old.items) }
{
    push_value(
        values,
        Value::Operand(Operand {
            expr: Expr { at, kind },
            first: at,
        }),
    )
}

/// A number or a character constant (ISO C11, 6.4.4).
pub fn number(values: &mut Vec<Value>) -> Result<(), AllocError>
    ensures { OnOk result (Does action.Num values.old.items values.new.items) }
{
    let token = pop_word(values);
    push_expr(values, token.at, ExprKind::Num(number_of(&token.kind)))
}

/// The word `NULL`, the null pointer (ISO C11, 7.19).
pub fn null(values: &mut Vec<Value>) -> Result<(), AllocError>
    ensures { OnOk result (Does action.NullExpr values.old.items values.new.items) }
{
    let token = pop_word(values);
    push_expr(values, token.at, ExprKind::Null)
}

/// The word `EOF` (ISO C11, 7.21.1).
pub fn end_of_file(values: &mut Vec<Value>) -> Result<(), AllocError>
    ensures { OnOk result (Does action.EofExpr values.old.items values.new.items) }
{
    let token = pop_word(values);
    push_expr(values, token.at, ExprKind::Eof)
}

/// A variable or a define by its name (ISO C11, 6.5.1).
pub fn name(alloc: Global, values: &mut Vec<Value>) -> Result<(), AllocError>
    ensures { OnOk result (Does action.NameExpr values.old.items values.new.items) }
{
    let token = pop_word(values);
    push_expr(values, token.at, ExprKind::Name(text_of(alloc, token.kind)))
}

/// The slot of a name that another one hides, `NAME.NUMBER`; in mappings alone.
pub fn hidden_slot(alloc: Global, values: &mut Vec<Value>) -> Result<(), AllocError>
    ensures { OnOk result (Does action.HiddenSlot values.old.items values.new.items) }
{
    let number = natural(number_of(&pop_word(values).kind));
    let name = pop_word(values);
    let slot = ExprKind::Slot(text_of(alloc, name.kind), number);
    push_expr(values, name.at, slot)
}

/// The slot of a temporary, which has no name, `.NUMBER`; in mappings alone.
pub fn temporary(alloc: Global, values: &mut Vec<Value>) -> Result<(), AllocError>
    ensures { OnOk result (Does action.TempSlot values.old.items values.new.items) }
{
    let number = natural(number_of(&pop_word(values).kind));
    let dot = pop_word(values);
    let slot = ExprKind::Slot(Text::from_vec(Vec::new(alloc)), number);
    push_expr(values, dot.at, slot)
}

/// An element of an array, `NAME[INDEX]` (ISO C11, 6.5.2.1).
pub fn index(alloc: Global, values: &mut Vec<Value>) -> Result<(), AllocError>
    ensures { OnOk result (Does action.Index values.old.items values.new.items) }
{
    let index = Boxed::new(alloc, pop_operand(values).expr)?;
    let name = pop_word(values);
    push_expr(
        values,
        name.at,
        ExprKind::Index(text_of(alloc, name.kind), index),
    )
}

/// A field of what a pointer leads to, `BASE->NAME` (ISO C11, 6.5.2.3); it stands at its first
/// token.
pub fn field(alloc: Global, values: &mut Vec<Value>) -> Result<(), AllocError>
    ensures { OnOk result (Does action.Field values.old.items values.new.items) }
{
    let name = pop_word(values);
    let base = pop_operand(values);
    let first = base.first;
    let base = Boxed::new(alloc, base.expr)?;
    push_expr(
        values,
        first,
        ExprKind::Field(base, text_of(alloc, name.kind)),
    )
}

/// An expression in brackets (ISO C11, 6.5.1), which leave no trace in it but where it begins.
pub fn group(values: &mut Vec<Value>) -> Result<(), AllocError>
    ensures { OnOk result (Does action.Group values.old.items values.new.items) }
{
    let inner = pop_operand(values);
    let bracket = pop_word(values);
    push_value(
        values,
        Value::Operand(Operand {
            expr: inner.expr,
            first: bracket.at,
        }),
    )
}

/// A prefix operator and its operand (ISO C11, 6.5.3.3).
pub fn unary(alloc: Global, values: &mut Vec<Value>) -> Result<(), AllocError>
    ensures { OnOk result (Does action.Un values.old.items values.new.items) }
{
    let operand = pop_operand(values);
    let sign = pop_word(values);
    let inner = Boxed::new(alloc, operand.expr)?;
    push_expr(
        values,
        sign.at,
        ExprKind::Un(unary_of(kind_of(&sign.kind)), inner),
    )
}

/// A cast to a pointer type (ISO C11, 6.5.4).
pub fn cast(alloc: Global, values: &mut Vec<Value>) -> Result<(), AllocError>
    ensures { OnOk result (Does action.Cast values.old.items values.new.items) }
{
    let inner = Boxed::new(alloc, pop_operand(values).expr)?;
    let ty = pop_ty(values);
    let bracket = pop_word(values);
    push_expr(values, bracket.at, ExprKind::Cast(ty, inner))
}

/// An operator between two operands (ISO C11, 6.5.5 to 6.5.14); it stands at the operator.
pub fn binary(alloc: Global, values: &mut Vec<Value>) -> Result<(), AllocError>
    ensures { OnOk result (Does action.Bin values.old.items values.new.items) }
{
    let right = Boxed::new(alloc, pop_operand(values).expr)?;
    let sign = pop_word(values);
    let left = pop_operand(values);
    let first = left.first;
    let left = Boxed::new(alloc, left.expr)?;
    push_value(
        values,
        Value::Operand(Operand {
            expr: Expr {
                at: sign.at,
                kind: ExprKind::Bin(binary_of(kind_of(&sign.kind)), left, right),
            },
            first,
        }),
    )
}
