//! Calls and returns.

ghost use Rattle.std.specs.Prelude.{◌≡◌, ◌<◌, IsTrue, IfOk, OnErr, Some, length, map};
ghost use Rattle.c_tree.specs.Layout as layout;
ghost use Rattle.c_tree.specs.declared.lifted.LStmt.TheVariants as stmt;
ghost use Rattle.c_tree.specs.Step as spec;
ghost use Rattle.c_meaning.specs.Leads.{Leads};

use crate::change::{push_frame, resume};
use crate::place::{place_of, then_of};
use crate::read::{frames_at, value_in, values_in};
use crate::stepped::Stepped;
use crate::thread::ended;
use c_tree::start::fresh;
use c_tree::{Act, Follow, LExpr, LStmt, Lifted, Places, State, Trap};
use std::alloc::{AllocError, Global};

/// Calls a function (ISO C11, 6.5.2.2): a frame for it, with the values of the arguments, goes onto
/// thread `t`, whose caller keeps its place. It traps where an argument does, first to last, and
/// where the thread has 10,000 frames.
pub fn call(
    alloc: Global,
    program: &Lifted,
    state: &mut State,
    t: u32,
    n: u32,
    to: Option<u32>,
    f: u32,
    args: &[LExpr],
) -> Result<Stepped, AllocError>
    requires { IsTrue (spec.is_live state.old t) }
    ensures ok { IfOk result (λ r. Leads r state.old state.new
        (spec.done (spec.acting program.now t state.old) n (stmt.Call to f args.now))) }
    ensures err { OnErr result (state.new ≡ state.old) }
{
    let values = match values_in(alloc, state, t, args)? {
        Ok(values) => values,
        Err(cause) => return Ok(Stepped::Trapped(cause)),
    };
    if frames_at(state, t).len() >= 10000 {
        return Ok(Stepped::Trapped(Trap::Frames));
    }
    let frame = fresh(alloc, program, f, values)?;
    push_frame(state, t, frame)?;
    Ok(Stepped::Done)
}

/// Returns `v` from the innermost frame of thread `t` (ISO C11, 6.8.6.4): its caller goes on behind
/// the call, with `v` where the call stores its result. With no caller the thread ends.
pub fn returned(program: &Lifted, places: &Places, state: &mut State, t: u32, v: i32) -> Stepped
    requires live { IsTrue (spec.is_live state.old t) }
    requires same { places.now.functions ≡ map layout.places program.now.functions }
    ensures { Leads result state.old state.new
        (spec.returned (spec.acting program.now t state.old) v) }
{
    let frames = frames_at(state, t);
    if frames.len() == 1 {
        return ended(program, state, t, v);
    }
    let outer = &frames[..frames.len() - 1];
    let caller = &outer[outer.len() - 1];
    match place_of(program, places, caller) {
        Some(place) => resumed(program, state, t, &place.act, place.follow, v),
        None => Stepped::Done,
    }
}

fn resumed(
    program: &Lifted,
    state: &mut State,
    t: u32,
    act: &Act,
    follow: Follow,
    v: i32,
) -> Stepped
    requires { 1 < length (spec.frames_at state.old t) }
    ensures { let w = spec.acting program.now t state.old in
        Leads result state.old state.new
        (spec.resumed w (spec.top_of (spec.outer_of w.frames)) act.now follow v) }
{
    match act {
        Act::Do(LStmt::Call(to, _, _)) => {
            resume(state, t, then_of(follow), *to, v);
            Stepped::Done
        }
        _ => Stepped::Done,
    }
}

/// Makes the step of a `return` with a value. It traps where the value's expression does.
pub fn return_value(
    program: &Lifted,
    places: &Places,
    state: &mut State,
    t: u32,
    e: &LExpr,
) -> Stepped
    requires live { IsTrue (spec.is_live state.old t) }
    requires same { places.now.functions ≡ map layout.places program.now.functions }
    ensures { Leads result state.old state.new
        (spec.done (spec.acting program.now t state.old) 0 (stmt.Return (Some e.now))) }
{
    match value_in(state, t, e) {
        Ok(v) => returned(program, places, state, t, v),
        Err(cause) => Stepped::Trapped(cause),
    }
}
