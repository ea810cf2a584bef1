//! The actions that make the entries of a mapping.

ghost use Rattle.std.specs.Prelude.{◌≡◌, ◌∷◌, reverse, OnOk};
ghost use Rattle.c_grammar.specs.Effects.{Does, with_entry};
ghost use Rattle.c_grammar.specs.Values.{older, mapping_in};
ghost use Rattle.c_grammar.specs.declared.action.Action.TheVariants as action;
ghost use Rattle.c_grammar.specs.declared.value.Value.TheVariants as value;

use crate::actions::pop::{
    no_mapping, pop_mapping, pop_name, pop_operand, pop_parts, pop_pt, pop_word, push_value,
};
use crate::actions::sign::side_of;
use crate::token::map_kind_of;
use crate::value::Value;
use c_tree::{At, Entry};
use std::alloc::{AllocError, Global};

/// A mapping without entries.
pub fn start_mapping(alloc: Global, values: &mut Vec<Value>) -> Result<(), AllocError>
    ensures { OnOk result (Does action.StartMapping values.old.items values.new.items) }
{
    push_value(values, Value::Mapping(no_mapping(alloc)))
}

/// Adds an entry to the mapping.
fn push_entry(alloc: Global, values: &mut Vec<Value>, at: u32, it: Entry) -> Result<(), AllocError>
    ensures { OnOk result (let vs = reverse values.old.items in reverse values.new.items
        ≡ value.Mapping (with_entry (mapping_in vs) at it) ∷ older vs) }
{
    let mut mapping = pop_mapping(alloc, values);
    mapping.entries.push(At { at, it })?;
    push_value(values, Value::Mapping(mapping))
}

/// A match of an old name and a new one, on the side that the word in front says.
pub fn matched(alloc: Global, values: &mut Vec<Value>) -> Result<(), AllocError>
    ensures { OnOk result (Does action.MatchEntry values.old.items values.new.items) }
{
    let new = pop_name(alloc, values).it;
    let old = pop_name(alloc, values).it;
    let side = pop_word(values);
    let entry = Entry::Match(side_of(map_kind_of(&side.kind)), old, Some(new));
    push_entry(alloc, values, side.at, entry)
}

/// An old name that has no match.
pub fn unmatched(alloc: Global, values: &mut Vec<Value>) -> Result<(), AllocError>
    ensures { OnOk result (Does action.UnmatchedEntry values.old.items values.new.items) }
{
    let old = pop_name(alloc, values).it;
    let side = pop_word(values);
    let entry = Entry::Match(side_of(map_kind_of(&side.kind)), old, None);
    push_entry(alloc, values, side.at, entry)
}

/// What a field of a new struct is filled with.
pub fn field(alloc: Global, values: &mut Vec<Value>) -> Result<(), AllocError>
    ensures { OnOk result (Does action.FieldEntry values.old.items values.new.items) }
{
    let expr = pop_operand(values).expr;
    let field = pop_name(alloc, values).it;
    let structure = pop_name(alloc, values).it;
    let word = pop_word(values);
    push_entry(alloc, values, word.at, Entry::Field(structure, field, expr))
}

/// What a new global is filled with.
pub fn init(alloc: Global, values: &mut Vec<Value>) -> Result<(), AllocError>
    ensures { OnOk result (Does action.InitEntry values.old.items values.new.items) }
{
    let expr = pop_operand(values).expr;
    let global = pop_name(alloc, values).it;
    let word = pop_word(values);
    push_entry(alloc, values, word.at, Entry::Init(global, expr))
}

/// An old point, and the parts that a frame there becomes.
pub fn point(alloc: Global, values: &mut Vec<Value>) -> Result<(), AllocError>
    ensures { OnOk result (Does action.PointEntry values.old.items values.new.items) }
{
    let parts = pop_parts(alloc, values);
    let old = pop_pt(values);
    let function = pop_name(alloc, values).it;
    let word = pop_word(values);
    push_entry(alloc, values, word.at, Entry::Point(function, old, parts))
}

/// A condition of the update, which is made only where the expression is not 0.
pub fn check(alloc: Global, values: &mut Vec<Value>) -> Result<(), AllocError>
    ensures { OnOk result (Does action.CheckEntry values.old.items values.new.items) }
{
    let expr = pop_operand(values).expr;
    let word = pop_word(values);
    push_entry(alloc, values, word.at, Entry::Check(expr))
}
