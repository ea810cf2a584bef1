//! The values of new slots and fields.

ghost use Rattle.std.specs.Prelude.{◌≡◌, ◌≤◌, ◌+◌, ◌∷◌, ◌++◌, [], length, MatchResult, OnOk, Ok};
ghost use Rattle.c_tree.specs.Fillings as spec;
ghost use Rattle.c_tree.specs.Value as values;
ghost use Rattle.stack_map.specs.Refusal.{IsRefusal};
ghost use Rattle.stack_map.specs.Filled.{because};

use crate::end::{MapEnd, code};
use c_tree::value::value;
use c_tree::{LExpr, Reason, Row, State};
use std::alloc::{AllocError, Global};

/// Whose values are filled.
#[derive(Clone, Copy)]
pub enum Whose {
    /// A thread, and a frame of it.
    Frame(u32, u32),
    /// An object, by its number.
    Object(u32),
}

/// The reason that the `i`-th value traps.
fn reason(whose: Whose, i: u32, code: u32) -> Reason
    ensures { result ≡ because whose i code }
{
    match whose {
        Whose::Frame(thread, frame) => Reason::Slot(thread, frame, i, code),
        Whose::Object(object) => Reason::Field(object, i, code),
    }
}

fn put(made: &mut Vec<i32>, v: i32) -> Result<(), AllocError>
    ensures { OnOk result (made.new.items ≡ made.old.items ++ v ∷ []) }
{
    made.push(v)?;
    Ok(())
}

/// The values of fillings in the old state, or the reason of the first that traps. In reasons they
/// are numbered from `first` on.
pub fn filled(
    alloc: Global,
    fillings: &[LExpr],
    first: u32,
    slots: &[i32],
    own: &[i32],
    state: &State,
    whose: Whose,
) -> Result<Row<i32>, MapEnd>
    requires { first + length fillings.now ≤ 4294967295 }
    ensures { let wanted = spec.filled
        (values.view slots.now own.now state.now.globals state.now.heap.objects)
        (because whose) first fillings.now in
        MatchResult result (λ vs. wanted ≡ Ok vs) (IsRefusal wanted) }
{
    let mut made = Vec::new(alloc);
    let mut i = first;
    for x in fillings {
        match value(
            x,
            slots,
            own,
            state.globals.as_slice(),
            state.heap.objects.as_slice(),
        ) {
            Ok(v) => match put(&mut made, v) {
                Ok(()) => {}
                Err(e) => return Err(MapEnd::Memory(e)),
            },
            Err(trap) => return Err(MapEnd::Refused(reason(whose, i, code(trap)))),
        }
        i += 1;
    }
    Ok(Row::from_vec(made))
}
