//! How the globals of an old state become those of a new one.

ghost use Rattle.std.specs.Prelude.{◌≡◌, ◌++◌, ◌∷◌, [], pos, slice_index_or, IfOk, OnOk, MatchResult, Ok};
ghost use Rattle.std.specs.Option.{option_map};
ghost use Rattle.c_tree.specs.Link as link;
ghost use Rattle.c_tree.specs.MapGlobals as spec;
ghost use Rattle.c_tree.specs.Value as values;
ghost use Rattle.stack_map.specs.Subjects.{GivesFirst};
ghost use Rattle.stack_map.specs.Refusal.{IsRefusal};
ghost use Rattle.patch_match.specs.Origins.{GivesOrigins};

use c_tree::value::value;
use c_tree::{LEntry, LExpr, LGlobal, Reason, Row, State, Trap, Ty, narrowed};
use patch_match::{Link, Origins, origin_in};
use stack_map::{Declared, MapEnd, code, declared_init};
use std::alloc::{AllocError, Global};

/// Whether an old global carries its values over to a new one: it has the same image type, and both
/// or neither are arrays.
fn carries(k: &Link<'_>, old: &LGlobal, new: &LGlobal) -> bool
    ensures { result ≡ spec.carries k.now old.now new.now }
{
    let alike = if old.count.is_some() {
        new.count.is_some()
    } else {
        new.count.is_none()
    };
    alike && k.is_image(&old.ty, &new.ty)
}

/// Whether the old global of a number carries its values over to a new one. One that is not there
/// counts as a scalar of type `void`.
fn carries_at(k: &Link<'_>, old: u32, new: &LGlobal) -> bool
    ensures { result ≡
        spec.carries k.now (slice_index_or k.now.old.globals old spec.no_global) new.now }
{
    match k.old().program().globals.as_slice().get(old as usize) {
        Some(global) => carries(k, global, new),
        None => new.count.is_none() && k.is_image(&Ty::Void, &new.ty),
    }
}

/// The old global that is matched with a new one, where it carries its values over.
fn if_carried(k: &Link<'_>, new: &LGlobal, matched: Option<u32>) -> Option<u32>
    ensures { result ≡ spec.if_carried k.now new.now matched }
{
    match matched {
        Some(old) => if carries_at(k, old, new) {
            Some(old)
        } else {
            None
        },
        None => None,
    }
}

/// The value at an index; 0 past the end.
fn value_at(values: &[i32], i: usize) -> i32
    ensures { result ≡ slice_index_or values.now i (pos 0) }
{
    match values.get(i) {
        Some(value) => *value,
        None => 0,
    }
}

/// The first `count` values, and 0 after them.
fn resized(alloc: Global, values: &[i32], count: u32) -> Result<Row<i32>, AllocError>
    ensures { IfOk result (λ row. row ≡ spec.resized count values.now) }
{
    let mut made = Vec::new(alloc);
    for i in 0..count as usize {
        made.push(value_at(values, i))?;
    }
    Ok(Row::from_vec(made))
}

/// The values of an old global; none where there is none.
fn values_at(state: &State, old: Option<u32>) -> &[i32]
    ensures { result.now ≡ spec.values_at state.now old }
{
    let old = match old {
        Some(old) => old,
        None => return &[],
    };
    match state.globals.as_slice().get(old as usize) {
        Some(values) => values.as_slice(),
        None => &[],
    }
}

/// The value of an expression in the old state, which reads globals and the heap.
fn value_in(state: &State, filling: &LExpr) -> Result<i32, Trap>
    ensures { result ≡ values.value (spec.global_view state.now) filling.now }
{
    value(
        filling,
        &[],
        &[],
        state.globals.as_slice(),
        state.heap.objects.as_slice(),
    )
}

/// The value of a new scalar: of its declared expression, else of the old scalar, else its
/// initialiser.
fn scalar_value(
    state: &State,
    declared: Option<&LExpr>,
    old: Option<u32>,
    init: i32,
) -> Result<i32, Trap>
    ensures { result ≡ values.value (spec.global_view state.now)
        (spec.global_filling (option_map (λ r. r.now) declared.entry) old init) }
{
    match declared {
        Some(declared) => value_in(state, declared),
        None => match old {
            Some(old) => value_in(state, &LExpr::Global(old)),
            None => value_in(state, &LExpr::Num(init)),
        },
    }
}

/// The value of a scalar as a list of one.
fn one_value(alloc: Global, value: i32) -> Result<Row<i32>, AllocError>
    ensures { IfOk result (λ row. row ≡ value ∷ []) }
{
    let mut made = Vec::new(alloc);
    made.push(value)?;
    Ok(Row::from_vec(made))
}

/// The value of a new scalar, or the reason that its expression traps.
fn map_scalar(
    alloc: Global,
    state: &State,
    g: u32,
    declared: Option<&LExpr>,
    old: Option<u32>,
    init: i32,
) -> Result<Row<i32>, MapEnd>
    ensures { let wanted = spec.map_scalar state.now g
        (spec.global_filling (option_map (λ r. r.now) declared.entry) old init) in
        MatchResult result (λ vs. wanted ≡ Ok vs) (IsRefusal wanted) }
{
    match scalar_value(state, declared, old, init) {
        Ok(value) => match one_value(alloc, value) {
            Ok(values) => Ok(values),
            Err(e) => Err(MapEnd::Memory(e)),
        },
        Err(trap) => Err(MapEnd::Refused(Reason::Global(g, code(trap)))),
    }
}

/// The values of the new global of number `g`, by the old one whose values it takes.
fn map_by(
    alloc: Global,
    state: &State,
    entries: &[LEntry],
    declared: &Declared,
    g: u32,
    global: &LGlobal,
    old: Option<u32>,
) -> Result<Row<i32>, MapEnd>
    requires { GivesFirst declared.now entries.now }
    ensures { let wanted =
        spec.map_global_by entries.now state.now g global.now old global.now.count in
        MatchResult result (λ vs. wanted ≡ Ok vs) (IsRefusal wanted) }
{
    let count = match global.count {
        Some(count) => count,
        None => {
            let declared = declared_init(declared, entries, g);
            return map_scalar(alloc, state, g, declared, old, global.init);
        }
    };
    match resized(alloc, values_at(state, old), count) {
        Ok(values) => Ok(values),
        Err(e) => Err(MapEnd::Memory(e)),
    }
}

/// The old global whose values the new one of number `g` takes.
fn taken(k: &Link<'_>, origins: &Origins, g: u32, global: &LGlobal) -> Option<u32>
    requires { GivesOrigins origins.now k.now.globals }
    ensures { result ≡ spec.if_carried k.now global.now (link.origin k.now.globals g) }
{
    if_carried(k, global, origin_in(origins, g))
}

/// The values of the new global of number `g`.
fn map_global(
    alloc: Global,
    k: &Link<'_>,
    entries: &[LEntry],
    declared: &Declared,
    origins: &Origins,
    state: &State,
    g: usize,
    global: &LGlobal,
) -> Result<Row<i32>, MapEnd>
    requires first { GivesFirst declared.now entries.now }
    requires origins { GivesOrigins origins.now k.now.globals }
    ensures { let wanted = spec.map_global k.now entries.now state.now g global.now in
        MatchResult result (λ vs. wanted ≡ Ok vs) (IsRefusal wanted) }
{
    let g = match narrowed(g) {
        Ok(g) => g,
        Err(e) => return Err(MapEnd::Memory(e)),
    };
    let old = taken(k, origins, g, global);
    map_by(alloc, state, entries, declared, g, global, old)
}

fn put(made: &mut Vec<Row<i32>>, values: Row<i32>) -> Result<(), AllocError>
    ensures { OnOk result (made.new.items ≡ made.old.items ++ values ∷ []) }
{
    made.push(values)?;
    Ok(())
}

/// The values of all new globals in the old state. A scalar has its declared expression's, else
/// that of the old scalar that is matched with it and has its image type, else its initialiser. An
/// array has as many values of such an old array as it has room for, and 0 after them. Refused is
/// the first expression that traps. More than 4,294,967,296 globals count as want of memory.
pub fn map_globals(
    alloc: Global,
    k: &Link<'_>,
    entries: &[LEntry],
    declared: &Declared,
    origins: &Origins,
    state: &State,
) -> Result<Row<Row<i32>>, MapEnd>
    requires first { GivesFirst declared.now entries.now }
    requires origins { GivesOrigins origins.now k.now.globals }
    ensures { let wanted = spec.map_globals k.now entries.now state.now in
        MatchResult result (λ gs. wanted ≡ Ok gs) (IsRefusal wanted) }
{
    let globals = k.new().program().globals.as_slice();
    let mut made = Vec::new(alloc);
    for g in 0..globals.len() {
        match map_global(alloc, k, entries, declared, origins, state, g, &globals[g]) {
            Ok(values) => match put(&mut made, values) {
                Ok(()) => {}
                Err(e) => return Err(MapEnd::Memory(e)),
            },
            Err(end) => return Err(end),
        }
    }
    Ok(Row::from_vec(made))
}
