//! Activations that are taken off a stack, and put back.

ghost use Rattle.std.specs.Prelude.{◌≡◌, ◌≤◌, ◌<◌, ◌+◌, [], ◌∷◌, ◌++◌, length, IfOk, OnOk};
ghost use Rattle.target_code.specs.Stack.{words};
ghost use Rattle.target_code.specs.Target.{top_of};
ghost use Rattle.thread_machine.specs.Room.{words_of_all, HaveFewSlots, with_slots};

use c_tree::Row;
use std::alloc::{AllocError, Global};
use target_code::{Activation, FrameStack};

/// Puts values into all slots of the innermost activation.
fn fill<S: FrameStack>(stack: &mut S, slots: &[i32])
    requires live { 0 < length (S.frames stack.old) }
    requires all { length (top_of (S.frames stack.old)).slots ≡ length slots.now }
    requires few { length slots.now ≤ 128 }
    ensures frames { S.frames stack.new ≡ with_slots slots.now (S.frames stack.old) }
    ensures spare { S.spare stack.new ≡ S.spare stack.old }
{
    for at in 0..slots.len() {
        let value = slots[at];
        stack.set_slot(at as u32, value);
    }
}

/// Pushes an activation, for which there is room.
pub fn put<S: FrameStack>(stack: &mut S, function: u32, pc: u32, slots: &[i32])
    requires few { length slots.now ≤ 128 }
    requires room { words (length slots.now) ≤ S.spare stack.old }
    ensures frames { S.frames stack.new
        ≡ record { function = function; pc = pc; slots = slots.now } ∷ S.frames stack.old }
    ensures spare { S.spare stack.new + words (length slots.now) ≡ S.spare stack.old }
{
    match stack.push_frame(function, slots.len() as u32) {
        Ok(()) => {}
        Err(_) => unreachable!(),
    }
    fill(stack, slots);
    stack.set_pc(pc);
}

/// The innermost activation.
fn top_activation<S: FrameStack>(alloc: Global, stack: &S) -> Result<Activation, AllocError>
    requires { 0 < length (S.frames stack.now) }
    ensures { IfOk result (λ a. a ≡ top_of (S.frames stack.now)) }
{
    let top = stack.top();
    let slots = Row::from_vec(stack.slots().to_vec(alloc)?);
    Ok(Activation {
        function: top.function,
        pc: top.pc,
        slots,
    })
}

/// Takes the innermost activation off.
fn take_one<S: FrameStack>(
    alloc: Global,
    stack: &mut S,
    taken: &mut Row<Activation>,
) -> Result<(), AllocError>
    requires { 0 < length (S.frames stack.old) }
    ensures taken { taken.new ++ S.frames stack.new ≡ taken.old ++ S.frames stack.old }
    ensures ok { OnOk result (length (S.frames stack.new) + 1 ≡ length (S.frames stack.old)) }
    ensures spare { S.spare stack.new + words_of_all taken.old
        ≡ S.spare stack.old + words_of_all taken.new }
{
    let top = top_activation(alloc, stack)?;
    taken.push(top)?;
    stack.pop_frame();
    Ok(())
}

/// Takes all activations off, the innermost first.
///
/// # Errors
/// Want of memory; then some may be taken off, and have left their room.
pub fn take_all<S: FrameStack>(
    alloc: Global,
    stack: &mut S,
    taken: &mut Row<Activation>,
) -> Result<(), AllocError>
    ensures taken { taken.new ++ S.frames stack.new ≡ taken.old ++ S.frames stack.old }
    ensures ok { OnOk result (S.frames stack.new ≡ []) }
    ensures spare { S.spare stack.new + words_of_all taken.old
        ≡ S.spare stack.old + words_of_all taken.new }
{
    let depth = stack.depth();
    for _ in 0..depth {
        take_one(alloc, stack, taken)?;
    }
    Ok(())
}

/// Puts the activation back that was taken last, for which there is room.
fn put_one<S: FrameStack>(stack: &mut S, taken: &mut Row<Activation>)
    requires some { 0 < length taken.old }
    requires few { HaveFewSlots taken.old }
    requires room { words_of_all taken.old ≤ S.spare stack.old }
    ensures taken { taken.new ++ S.frames stack.new ≡ taken.old ++ S.frames stack.old }
    ensures one { length taken.new + 1 ≡ length taken.old }
    ensures few { HaveFewSlots taken.new }
    ensures room { words_of_all taken.new ≤ S.spare stack.new }
{
    match taken.pop() {
        Some(last) => put(stack, last.function, last.pc, last.slots.as_slice()),
        None => unreachable!(),
    }
}

/// Puts activations back, for which there is room; the innermost stands first.
pub fn put_back<S: FrameStack>(stack: &mut S, taken: &mut Row<Activation>)
    requires few { HaveFewSlots taken.old }
    requires room { words_of_all taken.old ≤ S.spare stack.old }
    ensures { S.frames stack.new ≡ taken.old ++ S.frames stack.old }
{
    let all = taken.len();
    for _ in 0..all {
        put_one(stack, taken);
    }
}
