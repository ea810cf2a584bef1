//! The instructions by which activations come and go.

ghost use Rattle.std.specs.Prelude.{◌≡◌, ◌≢◌, ◌≤◌, ◌<◌, ◌++◌, ◌%◌, drop, length, pos, slice_index_or};
ghost use Rattle.store_mem.specs.Memory.{Memory};
ghost use Rattle.target_code.specs.Machine.{Setting};
ghost use Rattle.target_code.specs.Stack.{with_slot};
ghost use Rattle.target_code.specs.Target.{edited, top_of};
ghost use Rattle.target_code.specs.declared.instr.Instr.TheVariants as instr;
ghost use Rattle.thread_turns.specs.Turns.{EndsSame, IsDone};
ghost use Rattle.thread_turns.specs.declared.cursor.Did.TheVariants as did;
ghost use Rattle.std.specs.Int.{w32, cast_unsigned};
ghost use Rattle.thread_turns.specs.Now.{CallFits, IsAt, Performs, now};

use crate::cursor::{Cursor, Did, Stop};
use crate::operands::top;
use crate::texts::{available, last};
use c_tree::Trap;
use target_code::{Code, FrameStack};

/// The most activations of a thread.
const MOST_FRAMES: u32 = 10000;

#[inline(always)]
fn argument(args: &[i32], k: usize) -> i32
    requires { k < length args.now }
    ensures { result ≡ slice_index_or args.now k (pos 0) }
{
    args[k]
}

#[inline(always)]
fn put_argument<S: FrameStack>(stack: &mut S, k: usize, value: i32)
    requires live { 0 < length (S.frames stack.old) }
    requires fit { k < length (top_of (S.frames stack.old)).slots }
    requires few { k < 128 }
    ensures { S.frames stack.new ≡ with_slot k value (S.frames stack.old) }
{
    stack.set_slot(k as u32, value);
}

/// Arguments go to the first slots.
fn put_arguments<S: FrameStack>(stack: &mut S, args: &[i32])
    requires live { 0 < length (S.frames stack.old) }
    requires fit { length args.now ≤ length (top_of (S.frames stack.old)).slots }
    requires few { length args.now ≤ 128 }
    ensures { S.frames stack.new ≡ edited (λ a. record a {
      slots = args.now ++ drop (length args.now) a.slots;
    }) (S.frames stack.old) }
{
    for k in 0..args.len() {
        put_argument(stack, k, argument(args, k));
    }
}

/// A function is called with the operands that its parameters take.
#[inline(always)]
pub fn call<S: FrameStack>(
    code: &Code,
    function: u32,
    stack: &mut S,
    at: &mut Cursor,
    words: &[i32],
) -> Did
    requires at { IsAt at.old words.now }
    requires live { 0 < length (S.frames stack.old) }
    requires fits { CallFits code.now function }
    ensures performs { (w : Setting) (memory : Memory) → w.code ≡ code.now → Performs w
        (instr.Call function) result (now at.old words.now (S.frames stack.old) memory)
        (now at.new words.now (S.frames stack.new) memory) }
    ensures depth { at.new.depth ≤ length words.now }
    ensures live { 0 < length (S.frames stack.new) }
    ensures moves { result ≢ did.Goes }
    ensures stays { (memory : Memory) → EndsSame result
        (now at.old words.now (S.frames stack.old) memory)
        (now at.new words.now (S.frames stack.new) memory) }
{
    if stack.depth() >= MOST_FRAMES {
        return Did::Ends(Stop::Trapped(Trap::Frames));
    }
    let Ok(back) = u32::try_from(at.pc + 1) else {
        return Did::Ends(Stop::Memory);
    };
    let callee = &code.functions().as_slice()[function as usize];
    let params = available(callee.params as usize, words, at.depth);
    stack.set_pc(back);
    let Ok(()) = stack.push_frame(function, callee.slots) else {
        return Did::Ends(Stop::Memory);
    };
    put_arguments(stack, last(words, at.depth, params));
    at.depth -= params;
    at.pc = 0;
    at.count += 1;
    Did::Moves
}

/// An activation that isn't the outermost one gives its value back.
#[inline(always)]
pub fn give_back<S: FrameStack>(stack: &mut S, at: &mut Cursor, words: &[i32]) -> Did
    requires at { IsAt at.old words.now }
    requires some { 1 ≤ at.old.depth }
    requires callers { 1 < length (S.frames stack.old) }
    ensures performs { (w : Setting) (memory : Memory) → Performs w instr.Ret result
        (now at.old words.now (S.frames stack.old) memory)
        (now at.new words.now (S.frames stack.new) memory) }
    ensures depth { at.new.depth ≤ length words.now }
    ensures live { 0 < length (S.frames stack.new) }
    ensures moves { result ≡ did.Moves }
{
    let value = top(at, words);
    stack.pop_frame();
    at.returned = value;
    at.depth -= 1;
    at.pc = stack.top().pc as usize;
    at.count += 1;
    Did::Moves
}

/// The status of a program whose `main` returned a value.
fn status(value: i32) -> u32
    ensures { result ≡ cast_unsigned w32 value % 256 }
{
    value.cast_unsigned() % 256
}

/// An activation gives its value back. With the outermost one the thread ends, and with thread 0
/// the program; that is only made as a row's first.
#[inline(always)]
pub fn end_or_give_back<S: FrameStack>(
    number: u32,
    first: bool,
    stack: &mut S,
    at: &mut Cursor,
    words: &[i32],
) -> Did
    requires at { IsAt at.old words.now }
    requires some { 1 ≤ at.old.depth }
    requires callers { 0 < length (S.frames stack.old) }
    ensures done { (w : Setting) (memory : Memory) → w.number ≡ number → IsDone w instr.Ret result
        (now at.old words.now (S.frames stack.old) memory)
        (now at.new words.now (S.frames stack.new) memory) }
    ensures depth { at.new.depth ≤ length words.now }
    ensures live { 0 < length (S.frames stack.new) }
{
    if stack.depth() > 1 {
        return give_back(stack, at, words);
    }
    if !first {
        return Did::Ends(Stop::Made);
    }
    if number == 0 {
        return Did::Ends(Stop::Finished(status(top(at, words))));
    }
    Did::Ends(Stop::Ended)
}
