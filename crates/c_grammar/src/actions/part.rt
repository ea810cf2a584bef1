//! The actions that make the parts of a point.

ghost use Rattle.std.specs.Prelude.{◌≡◌, ◌∷◌, reverse, OnOk};
ghost use Rattle.c_grammar.specs.Effects as spec;
ghost use Rattle.c_grammar.specs.Effects.{Does};
ghost use Rattle.c_grammar.specs.Values.{third};
ghost use Rattle.c_grammar.specs.declared.action.Action.TheVariants as action;
ghost use Rattle.c_grammar.specs.declared.value.Value.TheVariants as value;

use crate::actions::pop::{pop_fills, pop_name, pop_part, pop_pt, push_value};
use crate::value::Value;
use c_tree::{Part, Row};
use std::alloc::{AllocError, Global};

/// Takes the place and the fills of the first part, whose function is the match of the old one.
fn pop_first(alloc: Global, values: &mut Vec<Value>) -> Part
    ensures value { result ≡ spec.first_part (reverse values.old.items) }
    ensures rest { reverse values.new.items ≡ third (reverse values.old.items) }
{
    let fills = pop_fills(alloc, values);
    let point = pop_pt(values);
    Part {
        function: None,
        point,
        fills,
    }
}

/// The one part of a point.
pub fn one_part(alloc: Global, values: &mut Vec<Value>) -> Result<(), AllocError>
    ensures { OnOk result (Does action.OnePart values.old.items values.new.items) }
{
    let mut parts = Row::from_vec(Vec::new(alloc));
    parts.push(pop_first(alloc, values))?;
    push_value(values, Value::Parts(parts))
}

/// The two parts of a point.
pub fn two_parts(alloc: Global, values: &mut Vec<Value>) -> Result<(), AllocError>
    ensures { OnOk result (Does action.TwoParts values.old.items values.new.items) }
{
    let second = pop_part(alloc, values);
    let mut parts = Row::from_vec(Vec::new(alloc));
    parts.push(pop_first(alloc, values))?;
    parts.push(second)?;
    push_value(values, Value::Parts(parts))
}

/// The three parts of a point.
pub fn three_parts(alloc: Global, values: &mut Vec<Value>) -> Result<(), AllocError>
    ensures { OnOk result (Does action.ThreeParts values.old.items values.new.items) }
{
    let third = pop_part(alloc, values);
    let second = pop_part(alloc, values);
    let mut parts = Row::from_vec(Vec::new(alloc));
    parts.push(pop_first(alloc, values))?;
    parts.push(second)?;
    parts.push(third)?;
    push_value(values, Value::Parts(parts))
}

/// The four parts of a point.
pub fn four_parts(alloc: Global, values: &mut Vec<Value>) -> Result<(), AllocError>
    ensures { OnOk result (Does action.FourParts values.old.items values.new.items) }
{
    let fourth = pop_part(alloc, values);
    let third = pop_part(alloc, values);
    let second = pop_part(alloc, values);
    let mut parts = Row::from_vec(Vec::new(alloc));
    parts.push(pop_first(alloc, values))?;
    parts.push(second)?;
    parts.push(third)?;
    parts.push(fourth)?;
    push_value(values, Value::Parts(parts))
}

/// A part behind the first, which names its function.
pub fn added_part(alloc: Global, values: &mut Vec<Value>) -> Result<(), AllocError>
    ensures { OnOk result (Does action.AddPart values.old.items values.new.items) }
{
    let fills = pop_fills(alloc, values);
    let point = pop_pt(values);
    let function = pop_name(alloc, values).it;
    push_value(
        values,
        Value::Part(Part {
            function: Some(function),
            point,
            fills,
        }),
    )
}
