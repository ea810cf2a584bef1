//! Stores to a slot, a global, an element or a field.

ghost use Rattle.std.specs.Prelude.{◌≡◌, ◌-◌, ℤ, IsTrue, IsOk, MatchResult};
ghost use Rattle.c_tree.specs.Value as v;
ghost use Rattle.c_tree.specs.declared.lifted.LStmt.TheVariants as stmt;
ghost use Rattle.c_tree.specs.declared.state.Frame.{Frame};
ghost use Rattle.c_tree.specs.Step as spec;
ghost use Rattle.c_meaning.specs.Leads.{Leads, CanStore};

use crate::change::{go, set_field, set_global};
use crate::read::{location, value_in};
use crate::stepped::Stepped;
use c_tree::value::{array, element};
use c_tree::{Dest, LExpr, Lifted, Location, State, Trap};
use store_mem::object_of;

/// Whether a store would trap.
pub fn can_store(state: &State, to: Location) -> Result<(), Trap>
    ensures { MatchResult result (λ _. CanStore state.now to)
        (λ cause. (f : Frame) (x : ℤ) → spec.stored state.now f to x ≡ Err cause) }
{
    match to {
        Location::InSlot(_) => Ok(()),
        Location::InGlobal(_) => Ok(()),
        Location::InArray(g, at) => match element(array(state.globals.as_slice(), g), at) {
            Ok(_) => Ok(()),
            Err(cause) => Err(cause),
        },
        Location::InObject(pointer, owner, _) => {
            match object_of(state.heap.objects.as_slice(), pointer, owner) {
                Ok(_) => Ok(()),
                Err(cause) => Err(cause),
            }
        }
    }
}

/// Stores a value where `can_store` allows it, and thread `t` goes on at place `n`.
pub fn put(program: &Lifted, state: &mut State, t: u32, n: u32, to: Location, value: i32)
    requires live { IsTrue (spec.is_live state.old t) }
    requires can { CanStore state.old to }
    ensures { spec.store (spec.acting program.now t state.old) n state.old to value
        ≡ spec.Done state.new }
{
    match to {
        Location::InSlot(i) => go(state, t, n, Some(i), value),
        Location::InGlobal(g) => {
            set_global(state, g, 0, value);
            go(state, t, n, None, 0);
        }
        Location::InArray(g, at) => {
            set_global(state, g, at as usize, value);
            go(state, t, n, None, 0);
        }
        Location::InObject(pointer, _, field) => {
            set_field(state, pointer as usize - 1, field, value);
            go(state, t, n, None, 0);
        }
    }
}

/// Makes an assignment (ISO C11, 6.5.16.1) and goes on at place `n`. It traps where the destination
/// does, else the value, else the store.
pub fn assign(program: &Lifted, state: &mut State, t: u32, n: u32, to: &Dest, e: &LExpr) -> Stepped
    requires { IsTrue (spec.is_live state.old t) }
    ensures { Leads result state.old state.new
        (spec.done (spec.acting program.now t state.old) n (stmt.Assign to.now e.now)) }
{
    let to = match location(state, t, to) {
        Ok(to) => to,
        Err(cause) => return Stepped::Trapped(cause),
    };
    let value = match value_in(state, t, e) {
        Ok(value) => value,
        Err(cause) => return Stepped::Trapped(cause),
    };
    if let Err(cause) = can_store(state, to) {
        return Stepped::Trapped(cause);
    }
    put(program, state, t, n, to, value);
    Stepped::Done
}
