//! The actions that make the counts and the constants of globals.

ghost use Rattle.std.specs.Prelude.{OnOk};
ghost use Rattle.c_grammar.specs.Effects.{Does};
ghost use Rattle.c_grammar.specs.declared.action.Action.TheVariants as action;

use crate::actions::pop::{pop_name, pop_word, push_value};
use crate::token::number_of;
use crate::value::Value;
use c_tree::{At, Const, Count};
use std::alloc::{AllocError, Global};

/// The length of an array as a number (ISO C11, 6.7.6.2).
pub fn number_count(values: &mut Vec<Value>) -> Result<(), AllocError>
    ensures { OnOk result (Does action.NumberCount values.old.items values.new.items) }
{
    let token = pop_word(values);
    push_value(
        values,
        Value::Count(At {
            at: token.at,
            it: Count::Number(number_of(&token.kind)),
        }),
    )
}

/// The length of an array as the name of a define.
pub fn name_count(alloc: Global, values: &mut Vec<Value>) -> Result<(), AllocError>
    ensures { OnOk result (Does action.NameCount values.old.items values.new.items) }
{
    let name = pop_name(alloc, values);
    push_value(
        values,
        Value::Count(At {
            at: name.at,
            it: Count::Named(name.it),
        }),
    )
}

/// A number with a minus before it; it stands at the minus.
pub fn minus(values: &mut Vec<Value>) -> Result<(), AllocError>
    ensures { OnOk result (Does action.MinusConst values.old.items values.new.items) }
{
    let number = number_of(&pop_word(values).kind);
    let sign = pop_word(values);
    push_value(
        values,
        Value::Const(At {
            at: sign.at,
            it: Const::Number(true, number),
        }),
    )
}

/// A number or a character constant (ISO C11, 6.4.4).
pub fn number(values: &mut Vec<Value>) -> Result<(), AllocError>
    ensures { OnOk result (Does action.NumberConst values.old.items values.new.items) }
{
    let token = pop_word(values);
    push_value(
        values,
        Value::Const(At {
            at: token.at,
            it: Const::Number(false, number_of(&token.kind)),
        }),
    )
}

/// A constant by the name of a define.
pub fn name(alloc: Global, values: &mut Vec<Value>) -> Result<(), AllocError>
    ensures { OnOk result (Does action.NameConst values.old.items values.new.items) }
{
    let name = pop_name(alloc, values);
    push_value(
        values,
        Value::Const(At {
            at: name.at,
            it: Const::Named(name.it),
        }),
    )
}

/// The word `NULL`, the null pointer (ISO C11, 7.19).
pub fn null(values: &mut Vec<Value>) -> Result<(), AllocError>
    ensures { OnOk result (Does action.NullConst values.old.items values.new.items) }
{
    let word = pop_word(values);
    push_value(
        values,
        Value::Const(At {
            at: word.at,
            it: Const::Null,
        }),
    )
}

/// The word `EOF`, which is the number -1 (ISO C11, 7.21.1).
pub fn end_of_file(values: &mut Vec<Value>) -> Result<(), AllocError>
    ensures { OnOk result (Does action.EofConst values.old.items values.new.items) }
{
    let word = pop_word(values);
    push_value(
        values,
        Value::Const(At {
            at: word.at,
            it: Const::Number(true, 1),
        }),
    )
}
