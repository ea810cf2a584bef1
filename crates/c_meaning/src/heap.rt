//! Heap objects: they are made and freed.

ghost use Rattle.std.specs.Prelude.{◌≡◌, ◌≢◌, pos, IsTrue, IsOk, IfOk, OnErr, MatchBool, length, replicate};
ghost use Rattle.c_tree.specs.Value as v;
ghost use Rattle.c_tree.specs.declared.lifted.LStmt.TheVariants as stmt;
ghost use Rattle.c_tree.specs.Step as spec;
ghost use Rattle.c_meaning.specs.Leads.{Leads};

use crate::change::{free_object, go, push_object};
use crate::read::value_in;
use crate::stepped::Stepped;
use c_tree::{LExpr, Lifted, Object, Row, State, Trap};
use std::alloc::{AllocError, Global};

fn zeros(alloc: Global, n: usize) -> Result<Row<i32>, AllocError>
    ensures { IfOk result (λ r. r ≡ replicate n (pos 0)) }
{
    let mut values = Vec::new(alloc);
    'zeros: for _ in 0..n {
        values.push(0)?;
    }
    Ok(Row::from_vec(values))
}

fn fields_of(program: &Lifted, owner: u32) -> usize
    ensures { result ≡ spec.field_count program.now owner }
{
    match program.structs.as_slice().get(owner as usize) {
        Some(s) => s.fields.len(),
        None => 0,
    }
}

/// Makes an object of struct `owner` (ISO C11, 7.22.3.4), all of whose fields are 0, puts its
/// number into a slot and goes on at place `n`. It traps where 1,000,000 objects were made.
pub fn make(
    alloc: Global,
    program: &Lifted,
    state: &mut State,
    t: u32,
    n: u32,
    slot: u32,
    owner: u32,
) -> Result<Stepped, AllocError>
    requires { IsTrue (spec.is_live state.old t) }
    ensures ok { IfOk result (λ r. Leads r state.old state.new
        (spec.made (spec.acting program.now t state.old) n slot owner)) }
    ensures err { OnErr result (state.new ≡ state.old) }
{
    let count = state.heap.objects.len();
    if count >= 1000000 {
        return Ok(Stepped::Trapped(Trap::Objects));
    }
    let fields = zeros(alloc, fields_of(program, owner))?;
    push_object(state, Object { owner, fields })?;
    go(state, t, n, Some(slot), count as i32 + 1);
    Ok(Stepped::Done)
}

fn is_object(objects: &[Option<Object>], number: i32) -> bool
    requires { number ≢ pos 0 }
    ensures { MatchBool result (IsOk (v.object objects.now number))
        (v.object objects.now number ≡ Err Trap.Freed) }
{
    if number < 0 {
        return false;
    }
    match objects.get(number as usize - 1) {
        Some(Some(_)) => true,
        _ => false,
    }
}

/// Frees the object that an expression points to (ISO C11, 7.22.3.3), and goes on at place `n`;
/// nothing is freed at a null pointer. It traps where the expression does or where the object is
/// not there.
pub fn free(program: &Lifted, state: &mut State, t: u32, n: u32, e: &LExpr) -> Stepped
    requires { IsTrue (spec.is_live state.old t) }
    ensures { Leads result state.old state.new
        (spec.done (spec.acting program.now t state.old) n (stmt.Free e.now)) }
{
    match value_in(state, t, e) {
        Ok(v) => freed(program, state, t, n, v),
        Err(cause) => Stepped::Trapped(cause),
    }
}

fn freed(program: &Lifted, state: &mut State, t: u32, n: u32, v: i32) -> Stepped
    requires { IsTrue (spec.is_live state.old t) }
    ensures { Leads result state.old state.new
        (spec.freed (spec.acting program.now t state.old) n v) }
{
    if v == 0 {
        go(state, t, n, None, 0);
        return Stepped::Done;
    }
    if !is_object(state.heap.objects.as_slice(), v) {
        return Stepped::Trapped(Trap::Freed);
    }
    free_object(state, v as usize - 1);
    go(state, t, n, None, 0);
    Stepped::Done
}
