//! Threads: their start, their join and their end.

ghost use Rattle.std.specs.Prelude.{◌≡◌, ◌∷◌, ◌&&◌, [], IsTrue, IfOk, OnErr, length, nat_lt};
ghost use Rattle.c_tree.specs.declared.lifted.LStmt.TheVariants as stmt;
ghost use Rattle.c_tree.specs.Step as spec;
ghost use Rattle.c_meaning.specs.Leads.{Leads};

use crate::change::{end_thread, go, push_thread};
use crate::read::{is_live, location, value_in};
use crate::stepped::Stepped;
use crate::store::{can_store, put};
use c_tree::start::{fresh, stack};
use c_tree::{Dest, LExpr, Lifted, Location, Row, State, Trap};
use std::alloc::{AllocError, Global};

/// Joins the thread whose number an expression gives (POSIX, `pthread_join`) and goes on at place
/// `n`. It is blocked while that thread is live. It traps where the expression does, and where the
/// number is the thread's own or that of no thread.
pub fn join(program: &Lifted, state: &mut State, t: u32, n: u32, e: &LExpr) -> Stepped
    requires { IsTrue (spec.is_live state.old t) }
    ensures { Leads result state.old state.new
        (spec.done (spec.acting program.now t state.old) n (stmt.Join e.now)) }
{
    match value_in(state, t, e) {
        Ok(v) => joined(program, state, t, n, v),
        Err(cause) => Stepped::Trapped(cause),
    }
}

fn joined(program: &Lifted, state: &mut State, t: u32, n: u32, v: i32) -> Stepped
    requires { IsTrue (spec.is_live state.old t) }
    ensures { Leads result state.old state.new
        (spec.joined (spec.acting program.now t state.old) n v) }
{
    if v < 0 {
        return Stepped::Trapped(Trap::Join);
    }
    let u = v.cast_unsigned();
    if u == t {
        return Stepped::Trapped(Trap::Join);
    }
    if is_live(state, u) {
        return Stepped::Blocked;
    }
    if (u as usize) < state.threads.len() {
        go(state, t, n, None, 0);
        return Stepped::Done;
    }
    Stepped::Trapped(Trap::Join)
}

fn live_count(state: &State) -> usize
    ensures { result ≡ spec.live_count state.now }
{
    state
        .threads
        .as_slice()
        .iter()
        .filter(|o| o.is_some())
        .count()
}

fn has_room(state: &State) -> bool
    ensures { result ≡ (nat_lt (spec.live_count state.now) 64
        && nat_lt (length state.now.threads) 1000) }
{
    live_count(state) < 64 && state.threads.len() < 1000
}

fn one(alloc: Global, value: i32) -> Result<Row<i32>, AllocError>
    ensures { IfOk result (λ r. r ≡ value ∷ []) }
{
    let mut values = Vec::new(alloc);
    values.push(value)?;
    Ok(Row::from_vec(values))
}

/// Starts a thread in function `f` with a value as its argument (POSIX, `pthread_create`), stores
/// its number and goes on at place `n`. It traps where an operand does, where 64 threads are live
/// or 1,000 were made, and where the store does.
pub fn spawn(
    alloc: Global,
    program: &Lifted,
    state: &mut State,
    t: u32,
    n: u32,
    to: &Dest,
    f: u32,
    e: &LExpr,
) -> Result<Stepped, AllocError>
    requires { IsTrue (spec.is_live state.old t) }
    ensures ok { IfOk result (λ r. Leads r state.old state.new
        (spec.done (spec.acting program.now t state.old) n (stmt.Spawn to.now f e.now))) }
    ensures err { OnErr result (state.new ≡ state.old) }
{
    let to = match location(state, t, to) {
        Ok(to) => to,
        Err(cause) => return Ok(Stepped::Trapped(cause)),
    };
    let value = match value_in(state, t, e) {
        Ok(value) => value,
        Err(cause) => return Ok(Stepped::Trapped(cause)),
    };
    spawned(alloc, program, state, t, n, to, f, value)
}

fn spawned(
    alloc: Global,
    program: &Lifted,
    state: &mut State,
    t: u32,
    n: u32,
    to: Location,
    f: u32,
    value: i32,
) -> Result<Stepped, AllocError>
    requires { IsTrue (spec.is_live state.old t) }
    ensures ok { IfOk result (λ r. Leads r state.old state.new
        (spec.spawned (spec.acting program.now t state.old) n to f value)) }
    ensures err { OnErr result (state.new ≡ state.old) }
{
    if !has_room(state) {
        return Ok(Stepped::Trapped(Trap::Threads));
    }
    let number = state.threads.len();
    if let Err(cause) = can_store(state, to) {
        return Ok(Stepped::Trapped(cause));
    }
    let args = one(alloc, value)?;
    let frame = fresh(alloc, program, f, args)?;
    let frames = stack(alloc, frame)?;
    push_thread(state, frames)?;
    put(program, state, t, n, to, number as i32);
    Ok(Stepped::Done)
}

/// Ends thread `t`. Thread 0 ends the program with the low 8 bits of `v` as its status (ISO C11,
/// 5.1.2.2.3).
pub fn ended(program: &Lifted, state: &mut State, t: u32, v: i32) -> Stepped
    ensures { Leads result state.old state.new
        (spec.ended (spec.acting program.now t state.old) v) }
{
    if t == 0 {
        return Stepped::Finished((v.cast_unsigned() % 256) as u8);
    }
    end_thread(state, t);
    Stepped::Done
}
