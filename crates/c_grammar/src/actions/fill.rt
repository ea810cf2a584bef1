//! The actions that make the points of a mapping, and what fills the slots there.

ghost use Rattle.std.specs.Prelude.{◌≡◌, ◌∷◌, ◌++◌, codes, reverse, string_bytes, IfOk, OnOk};
ghost use Rattle.std.specs.Fmt.{decimal};
ghost use Rattle.c_grammar.specs.Effects as spec;
ghost use Rattle.c_grammar.specs.Effects.{Does};
ghost use Rattle.c_grammar.specs.declared.action.Action.TheVariants as action;
ghost use Rattle.c_grammar.specs.declared.value.Value.TheVariants as value;
ghost use Rattle.c_tree.specs.declared.token.TokenKind.TheVariants as token;

use crate::actions::pop::{pop_fills, pop_name, pop_operand, pop_pt, pop_word, push_value};
use crate::actions::sign::place_of;
use crate::token::{map_kind_of, natural, number_of, text_of};
use crate::value::Value;
use c_tree::{Fill, Name, PlaceKind, Pt, Row, Token, TokenKind};
use std::alloc::{AllocError, Global};

/// The point where a function is entered, which is number 1.
pub fn entry_point(values: &mut Vec<Value>) -> Result<(), AllocError>
    ensures { OnOk result (Does action.EntryPt values.old.items values.new.items) }
{
    push_value(
        values,
        Value::Pt(Pt {
            kind: PlaceKind::Entry,
            number: 1,
        }),
    )
}

/// The point of a loop, a call or a block, by its number.
pub fn numbered_point(values: &mut Vec<Value>) -> Result<(), AllocError>
    ensures { OnOk result (Does action.NumberPt values.old.items values.new.items) }
{
    let number = natural(number_of(&pop_word(values).kind));
    let kind = place_of(map_kind_of(&pop_word(values).kind));
    push_value(values, Value::Pt(Pt { kind, number }))
}

/// No fills yet: the empty list, to which `more_fills` adds.
pub fn no_fills(alloc: Global, values: &mut Vec<Value>) -> Result<(), AllocError>
    ensures { OnOk result (Does action.NoFills values.old.items values.new.items) }
{
    push_value(values, Value::Fills(Row::from_vec(Vec::new(alloc))))
}

/// What one more slot is filled with.
pub fn more_fills(alloc: Global, values: &mut Vec<Value>) -> Result<(), AllocError>
    ensures { OnOk result (Does action.MoreFill values.old.items values.new.items) }
{
    let expr = pop_operand(values).expr;
    let slot = pop_name(alloc, values).it;
    let mut fills = pop_fills(alloc, values);
    fills.push(Fill { slot, expr })?;
    push_value(values, Value::Fills(fills))
}

/// A dot and a number.
fn dotted(alloc: Global, number: u32) -> Result<String, AllocError>
    ensures { IfOk result (λ s. string_bytes s ≡ codes "." ++ decimal number) }
{
    format!(in alloc; ".{number}")
}

/// A name with a dot and a number behind it.
fn numbered(alloc: Global, mut name: Name, number: u32) -> Result<Name, AllocError>
    ensures { IfOk result (λ n. n ≡ spec.numbered name number) }
{
    name.append(dotted(alloc, number)?.as_bytes())?;
    Ok(name)
}

/// Pushes a word of this text at the place of another.
fn push_renamed(values: &mut Vec<Value>, name: Name, at: u32, len: u32) -> Result<(), AllocError>
    ensures { OnOk result (reverse values.new.items
        ≡ value.Word (record { kind = token.Word name; at = at; len = len })
        ∷ reverse values.old.items) }
{
    push_value(
        values,
        Value::Word(Token {
            kind: TokenKind::Word(name),
            at,
            len,
        }),
    )
}

/// The slot of a name that another one hides, as one word.
pub fn hidden_name(alloc: Global, values: &mut Vec<Value>) -> Result<(), AllocError>
    ensures { OnOk result (Does action.HiddenName values.old.items values.new.items) }
{
    let number = natural(number_of(&pop_word(values).kind));
    let Token { kind, at, len } = pop_word(values);
    let name = numbered(alloc, text_of(alloc, kind), number)?;
    push_renamed(values, name, at, len)
}

/// The slot of a temporary, which has no name, as one word.
pub fn temporary_name(alloc: Global, values: &mut Vec<Value>) -> Result<(), AllocError>
    ensures { OnOk result (Does action.TempName values.old.items values.new.items) }
{
    let Token { kind, at, len } = pop_word(values);
    let number = natural(number_of(&kind));
    let name = numbered(alloc, Name::from_vec(Vec::new(alloc)), number)?;
    push_renamed(values, name, at, len)
}
