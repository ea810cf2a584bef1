//! Which threads may be parked and resumed, and when the outcome may come.

ghost use Rattle.std.specs.Prelude.{◌≡◌, ◌≤◌, ◌==◌, ◌&&◌, not, map, length, find};
ghost use Rattle.c_tree.specs.Layout as layout;
ghost use Rattle.c_tree.specs.Run as run;
ghost use Rattle.c_tree.specs.Step as step;
ghost use Rattle.std.specs.List.{list_any};
ghost use Rattle.plain_run.specs.CoreAt.{core_at};

use crate::now::{Now, is_after, is_asked, is_parked};
use c_meaning::able::standing;
use c_tree::{Lifted, Places, State};

/// Whether the thread may be parked, where the run isn't over.
pub fn may_park(program: &Lifted, places: &Places, now: &Now, t: u32) -> bool
    requires { places.now.functions ≡ map layout.places program.now.functions }
    ensures { result ≡ run.may_park (core_at program.now now.now) t }
{
    is_asked(now.phase)
        && standing(program, places, &now.state, t)
        && !is_parked(now.parked.as_slice(), t)
}

/// Whether the thread may be resumed, where the run isn't over.
pub fn may_resume(program: &Lifted, now: &Now, t: u32) -> bool
    ensures { result ≡ run.may_resume (core_at program.now now.now) t }
{
    is_after(now.phase) && is_parked(now.parked.as_slice(), t)
}

/// The lowest thread that may be parked. It looks at no thread where no update is asked for.
pub fn next_to_park(program: &Lifted, places: &Places, now: &Now) -> Option<u32>
    requires same { places.now.functions ≡ map layout.places program.now.functions }
    requires few { length now.now.state.threads ≤ 1000 }
    ensures { let c = core_at program.now now.now in
        result ≡ find (run.may_park c) (run.threads c) }
{
    if !is_asked(now.phase) {
        return None;
    }
    let n = now.state.threads.len();
    for t in 0..n {
        if may_park(program, places, now, t as u32) {
            return Some(t as u32);
        }
    }
    None
}

/// The lowest parked thread that may be resumed. It looks at no thread where none is parked.
pub fn next_to_resume(program: &Lifted, now: &Now) -> Option<u32>
    requires { length now.now.state.threads ≤ 1000 }
    ensures { let c = core_at program.now now.now in
        result ≡ find (run.may_resume c) (run.threads c) }
{
    if now.parked.is_empty() {
        return None;
    }
    let n = now.state.threads.len();
    for t in 0..n {
        if may_resume(program, now, t as u32) {
            return Some(t as u32);
        }
    }
    None
}

fn is_live(state: &State, t: u32) -> bool
    ensures { result ≡ step.is_live state.now t }
{
    match state.threads.as_slice().get(t as usize) {
        Some(Some(frames)) => frames.len() > 0,
        _ => false,
    }
}

/// Whether the thread is live and not parked.
fn is_loose(now: &Now, t: u32) -> bool
    ensures { result ≡ (step.is_live now.now.state t
        && not (list_any (λ u. u == t) now.now.parked.items)) }
{
    is_live(&now.state, t) && !is_parked(now.parked.as_slice(), t)
}

/// Whether the outcome of the update may come: all live threads are parked.
pub fn may_decide(program: &Lifted, now: &Now) -> bool
    requires { length now.now.state.threads ≤ 1000 }
    ensures { result ≡ run.may_decide (core_at program.now now.now) }
{
    if !is_asked(now.phase) {
        return false;
    }
    let n = now.state.threads.len();
    for t in 0..n {
        if is_loose(now, t as u32) {
            return false;
        }
    }
    true
}
