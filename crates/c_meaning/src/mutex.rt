//! Locks and unlocks.

ghost use Rattle.std.specs.Prelude.{◌≡◌, IsTrue, None, slice_index_or};
ghost use Rattle.c_tree.specs.declared.lifted.LStmt.TheVariants as stmt;
ghost use Rattle.c_tree.specs.Step as spec;
ghost use Rattle.c_meaning.specs.Leads.{Leads};

use crate::change::{go, set_mutex};
use crate::stepped::Stepped;
use c_tree::{Lifted, State, Trap};

/// The thread that holds mutex `m`, if one does.
pub fn owner_of(state: &State, m: u32) -> Option<u32>
    ensures { result ≡ slice_index_or state.now.mutexes m None }
{
    match state.mutexes.as_slice().get(m as usize) {
        Some(owner) => *owner,
        None => None,
    }
}

/// Locks mutex `m` (POSIX, `pthread_mutex_lock`) and goes on at place `n`. It is blocked while
/// another thread holds it, and traps where thread `t` itself does.
pub fn lock(program: &Lifted, state: &mut State, t: u32, n: u32, m: u32) -> Stepped
    requires { IsTrue (spec.is_live state.old t) }
    ensures { Leads result state.old state.new
        (spec.done (spec.acting program.now t state.old) n (stmt.Lock m)) }
{
    match owner_of(state, m) {
        None => {
            set_mutex(state, m, Some(t));
            go(state, t, n, None, 0);
            Stepped::Done
        }
        Some(owner) => if owner == t {
            Stepped::Trapped(Trap::Relock)
        } else {
            Stepped::Blocked
        },
    }
}

/// Unlocks mutex `m` (POSIX, `pthread_mutex_unlock`) and goes on at place `n`. It traps where
/// thread `t` does not hold it.
pub fn unlock(program: &Lifted, state: &mut State, t: u32, n: u32, m: u32) -> Stepped
    requires { IsTrue (spec.is_live state.old t) }
    ensures { Leads result state.old state.new
        (spec.done (spec.acting program.now t state.old) n (stmt.Unlock m)) }
{
    match owner_of(state, m) {
        None => Stepped::Trapped(Trap::Unlock),
        Some(owner) => if owner == t {
            set_mutex(state, m, None);
            go(state, t, n, None, 0);
            Stepped::Done
        } else {
            Stepped::Trapped(Trap::Unlock)
        },
    }
}
