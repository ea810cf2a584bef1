//! An instruction that may change the stack or what the threads share.

ghost use Rattle.std.specs.Prelude.{◌≡◌, ◌≤◌, ◌<◌, List, length};
ghost use Rattle.target_code.specs.declared.activation.Activation.{Activation};
ghost use Rattle.target_code.specs.Machine.{Setting};
ghost use Rattle.target_laws.specs.Rows.{calm};
ghost use Rattle.thread_turns.specs.Now.{IsAt, IsWait, NamesSlot, now, popped};
ghost use Rattle.thread_turns.specs.Turns.{CallsFit, IsChange, IsDone};

use crate::calls::{call, end_or_give_back};
use crate::cursor::{Cursor, Did, Stop};
use crate::effects::{free, set, set_element, set_field, set_global, take_result};
use crate::shared::{get_byte, new, print};
use crate::waiting::{join, lock, unlock};
use std::alloc::Global;
use store_mem::Store;
use target_code::{Code, FrameStack, Instr};

/// An instruction that isn't plain, nor a mark. Those that may change what other threads can do are
/// only made as a row's first.
#[inline(always)]
pub fn perform<S: FrameStack>(
    alloc: Global,
    code: &Code,
    number: u32,
    first: bool,
    instr: Instr,
    stack: &mut S,
    store: &mut Store,
    at: &mut Cursor,
    words: &mut [i32],
) -> Did
    requires at { IsAt at.old words.old }
    requires some { popped instr ≤ at.old.depth }
    requires slot { NamesSlot instr (S.frames stack.old) }
    requires live { 0 < length (S.frames stack.old) }
    requires calls { CallsFit code.now instr }
    requires change { IsChange instr }
    ensures done { IsDone (calm code.now number) instr result
        (now at.old words.old (S.frames stack.old) store.old)
        (now at.new words.new (S.frames stack.new) store.new) }
    ensures same { length words.new ≡ length words.old }
    ensures depth { at.new.depth ≤ length words.new }
    ensures live { 0 < length (S.frames stack.new) }
    ensures change { IsChange instr }
{
    match instr {
        Instr::Set(k) => set(k, stack, at, words),
        Instr::After(n, to) => take_result(n, to, stack, at, words),
        Instr::Gset(global) => set_global(global, store, at, words),
        Instr::Aset(global) => set_element(global, store, at, words),
        Instr::Fset(owner, field) => set_field(owner, field, store, at, words),
        Instr::Call(function) => call(code, function, stack, at, words),
        Instr::Ret => end_or_give_back(number, first, stack, at, words),
        Instr::New(owner) => new(owner, store, at, words),
        Instr::Getc => get_byte(store, at, words),
        Instr::Free => free(store, at, words),
        Instr::Print(text) => print(alloc, text, code, store, at, words),
        Instr::Lock(_) => wait(number, first, instr, store, at, words),
        Instr::Unlock(_) => wait(number, first, instr, store, at, words),
        Instr::Join => wait(number, first, instr, store, at, words),
        _ => unreachable!(),
    }
}

/// An instruction by which threads wait for one another, made as a row's first.
fn wait(
    number: u32,
    first: bool,
    instr: Instr,
    store: &mut Store,
    at: &mut Cursor,
    words: &[i32],
) -> Did
    requires at { IsAt at.old words.now }
    requires some { popped instr ≤ at.old.depth }
    requires waits { IsWait instr }
    ensures done { (w : Setting) (frames : List Activation) → w.number ≡ number → IsDone w instr
        result (now at.old words.now frames store.old) (now at.new words.now frames store.new) }
    ensures depth { at.new.depth ≤ length words.now }
{
    if !first {
        return Did::Ends(Stop::Made);
    }
    match instr {
        Instr::Lock(k) => lock(k, number, store, at, words),
        Instr::Unlock(k) => unlock(k, number, store, at, words),
        Instr::Join => join(number, store, at, words),
        _ => unreachable!(),
    }
}
