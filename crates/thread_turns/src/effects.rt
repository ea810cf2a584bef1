//! The instructions that change a slot or what the threads share, whichever thread runs them.

ghost use Rattle.std.specs.Prelude.{◌≡◌, ◌≤◌, ◌<◌, List, length};
ghost use Rattle.store_mem.specs.Memory.{Memory};
ghost use Rattle.target_code.specs.declared.activation.Activation.{Activation};
ghost use Rattle.target_code.specs.declared.instr.Instr.TheVariants as instr;
ghost use Rattle.thread_turns.specs.declared.cursor.Did.TheVariants as did;
ghost use Rattle.thread_turns.specs.Now.{Changes, IsAt, IsDropped, NamesSlot};

use crate::cursor::{Cursor, Did, Stop};
use crate::operands::{drop_top, second, top};
use c_tree::Trap;
use store_mem::Store;
use target_code::FrameStack;

/// A value goes to a slot.
#[inline(always)]
pub fn set<S: FrameStack>(k: u32, stack: &mut S, at: &mut Cursor, words: &[i32]) -> Did
    requires at { IsAt at.old words.now }
    requires some { 1 ≤ at.old.depth }
    requires live { 0 < length (S.frames stack.old) }
    requires slot { NamesSlot (instr.Set k) (S.frames stack.old) }
    ensures changes { (memory : Memory)
        → Changes (instr.Set k) result words.now at.old (S.frames stack.old) memory
        at.new (S.frames stack.new) memory }
    ensures goes { result ≡ did.Goes }
    ensures live { 0 < length (S.frames stack.new) }
{
    stack.set_slot(k, top(at, words));
    drop_top(at, words, 1);
    Did::Goes
}

/// The returned value goes to a slot, where one takes it.
#[inline(always)]
pub fn take_result<S: FrameStack>(
    n: u32,
    to: Option<u32>,
    stack: &mut S,
    at: &mut Cursor,
    words: &[i32],
) -> Did
    requires at { IsAt at.old words.now }
    requires live { 0 < length (S.frames stack.old) }
    requires slot { NamesSlot (instr.After n to) (S.frames stack.old) }
    ensures changes { (memory : Memory)
        → Changes (instr.After n to) result words.now at.old (S.frames stack.old) memory
        at.new (S.frames stack.new) memory }
    ensures goes { result ≡ did.Goes }
    ensures live { 0 < length (S.frames stack.new) }
{
    match to {
        Some(k) => stack.set_slot(k, at.returned),
        None => {}
    }
    drop_top(at, words, 0);
    Did::Goes
}

/// A value goes to a global.
#[inline(always)]
pub fn set_global(global: u32, store: &mut Store, at: &mut Cursor, words: &[i32]) -> Did
    requires at { IsAt at.old words.now }
    requires some { 1 ≤ at.old.depth }
    ensures changes { (frames : List Activation)
        → Changes (instr.Gset global) result words.now at.old frames store.old
        at.new frames store.new }
    ensures goes { result ≡ did.Goes }
{
    store.set_scalar(global, top(at, words));
    drop_top(at, words, 1);
    Did::Goes
}

/// What becomes of an instruction that pops so many operands and may trap.
#[inline(always)]
fn dropped(end: Result<(), Trap>, count: usize, at: &mut Cursor, words: &[i32]) -> Did
    requires at { IsAt at.old words.now }
    requires some { count ≤ at.old.depth }
    ensures { IsDropped end result count words.now at.old at.new }
{
    match end {
        Ok(()) => {
            drop_top(at, words, count);
            Did::Goes
        }
        Err(cause) => Did::Ends(Stop::Trapped(cause)),
    }
}

/// A value goes to an element of an array.
#[inline(always)]
pub fn set_element(global: u32, store: &mut Store, at: &mut Cursor, words: &[i32]) -> Did
    requires at { IsAt at.old words.now }
    requires some { 2 ≤ at.old.depth }
    ensures changes { (frames : List Activation)
        → Changes (instr.Aset global) result words.now at.old frames store.old
        at.new frames store.new }
{
    let end = store.write(global, second(at, words), top(at, words));
    dropped(end, 2, at, words)
}

/// A value goes to a field.
#[inline(always)]
pub fn set_field(owner: u32, field: u32, store: &mut Store, at: &mut Cursor, words: &[i32]) -> Did
    requires at { IsAt at.old words.now }
    requires some { 2 ≤ at.old.depth }
    ensures changes { (frames : List Activation)
        → Changes (instr.Fset owner field) result words.now at.old frames store.old
        at.new frames store.new }
{
    let end = store.set_field(second(at, words), owner, field, top(at, words));
    dropped(end, 2, at, words)
}

/// An object is freed.
pub fn free(store: &mut Store, at: &mut Cursor, words: &[i32]) -> Did
    requires at { IsAt at.old words.now }
    requires some { 1 ≤ at.old.depth }
    ensures changes { (frames : List Activation)
        → Changes instr.Free result words.now at.old frames store.old
        at.new frames store.new }
{
    let end = store.free(top(at, words));
    dropped(end, 1, at, words)
}
