//! The checks of a patch.

ghost use Rattle.std.specs.Prelude.{◌≡◌, IfOk};
ghost use Rattle.std.specs.Option.{option_map};
ghost use Rattle.c_tree.specs.Refusal.{first_some};
ghost use Rattle.c_tree.specs.MapGlobals.{global_view};
ghost use Rattle.c_tree.specs.Update as spec;
ghost use Rattle.c_tree.specs.Value as values;
ghost use Rattle.state_transform.specs.Checked.{check_of};

use c_tree::value::{is_true, value};
use c_tree::{LEntry, LExpr, Reason, State, narrowed};
use stack_map::code;
use std::alloc::AllocError;

/// The expression of an entry that is a check.
fn check_of(entry: &LEntry) -> Option<&LExpr>
    ensures { option_map (λ r. r.now) result ≡ check_of entry.now }
{
    match entry {
        LEntry::Check(check) => Some(check),
        LEntry::Match(_, _, _) => None,
        LEntry::Field(_, _, _) => None,
        LEntry::Init(_, _) => None,
        LEntry::Point(_, _, _) => None,
    }
}

/// A check fails where it is 0 or traps.
fn failed_check(state: &State, number: u32, check: &LExpr) -> Option<Reason>
    ensures { result ≡
        spec.failed_check number (values.value (global_view state.now) check.now) }
{
    match value(
        check,
        &[],
        &[],
        state.globals.as_slice(),
        state.heap.objects.as_slice(),
    ) {
        Ok(v) => if is_true(v) {
            None
        } else {
            Some(Reason::Check(number, 0))
        },
        Err(trap) => Some(Reason::Check(number, code(trap))),
    }
}

/// The first check that fails, as a reason; checks are counted from 1. More than 4,294,967,295
/// checks count as want of memory.
pub fn failed(state: &State, entries: &[LEntry]) -> Result<Option<Reason>, AllocError>
    ensures { IfOk result (λ r. r ≡ first_some (spec.failed_checks state.now 1 entries.now)) }
{
    let mut before = 0usize;
    for i in 0..entries.len() {
        let check = match check_of(&entries[i]) {
            Some(check) => check,
            None => continue,
        };
        let failed = failed_check(state, narrowed(before + 1)?, check);
        if failed.is_some() {
            return Ok(failed);
        }
        before += 1;
    }
    Ok(None)
}
