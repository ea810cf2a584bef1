//! The instructions of expressions: they change nothing but operands and the position.

ghost use Rattle.std.specs.Prelude.{◌≡◌, ◌≤◌, ◌∷◌, List, length, pos, slice_index_or};
ghost use Rattle.store_mem.specs.Access.{values_of};
ghost use Rattle.store_mem.specs.Memory.{Memory};
ghost use Rattle.target_code.specs.Machine.{Setting};
ghost use Rattle.target_code.specs.declared.activation.Activation.{Activation};
ghost use Rattle.target_code.specs.declared.instr.Instr.{Instr};
ghost use Rattle.target_code.specs.declared.instr.Instr.TheVariants as instr;
ghost use Rattle.thread_turns.specs.Now.{GoesWith, IsAt, IsEvaluated, IsPlain, Keeps, NamesSlot, Performs, now, operands, popped};

use crate::cursor::{Cursor, Did, Stop};
use crate::operands::{drop_top, push, replace_one, replace_two, second, top};
use c_tree::value::{array, at as value_at, binary, element, field_of, is_true, unary};
use c_tree::{BinOp, UnOp};
use store_mem::Store;
use target_code::{FrameStack, Instr};

/// The value of a global that is no array.
#[inline(always)]
fn scalar(store: &Store, global: u32) -> i32
    ensures { result ≡ slice_index_or (values_of store.now.state global) 0 (pos 0) }
{
    value_at(array(store.globals(), global), 0)
}

/// A value is pushed, where there is a word for it.
#[inline(always)]
fn pushed(at: &mut Cursor, words: &mut [i32], value: i32) -> Did
    requires at { IsAt at.old words.old }
    ensures performs { (x : Instr) (w : Setting) (frames : List Activation) (memory : Memory)
        → GoesWith x (value ∷ operands at.old.depth words.old) w
        (now at.old words.old frames memory)
        → Performs w x result (now at.old words.old frames memory)
        (now at.new words.new frames memory) }
    ensures same { length words.new ≡ length words.old }
    ensures depth { at.new.depth ≤ length words.new }
    ensures keeps { Keeps result at.old at.new }
{
    if at.depth == words.len() {
        return Did::Ends(Stop::Full);
    }
    push(at, words, value);
    Did::Goes
}

/// An operator of two operands.
#[inline(always)]
fn operate(op: BinOp, at: &mut Cursor, words: &mut [i32]) -> Did
    requires at { IsAt at.old words.old }
    requires some { 2 ≤ at.old.depth }
    ensures performs { (w : Setting) (frames : List Activation) (memory : Memory)
        → Performs w (instr.Bin op) result (now at.old words.old frames memory)
        (now at.new words.new frames memory) }
    ensures same { length words.new ≡ length words.old }
    ensures depth { at.new.depth ≤ length words.new }
    ensures keeps { Keeps result at.old at.new }
{
    let right = top(at, words);
    let left = second(at, words);
    match binary(op, left, right) {
        Ok(value) => {
            replace_two(at, words, value);
            Did::Goes
        }
        Err(cause) => Did::Ends(Stop::Trapped(cause)),
    }
}

/// An operator of one operand.
#[inline(always)]
fn operate_one(op: UnOp, at: &mut Cursor, words: &mut [i32]) -> Did
    requires at { IsAt at.old words.old }
    requires some { 1 ≤ at.old.depth }
    ensures performs { (w : Setting) (frames : List Activation) (memory : Memory)
        → Performs w (instr.Un op) result (now at.old words.old frames memory)
        (now at.new words.new frames memory) }
    ensures same { length words.new ≡ length words.old }
    ensures depth { at.new.depth ≤ length words.new }
    ensures keeps { Keeps result at.old at.new }
{
    let value = unary(op, top(at, words));
    replace_one(at, words, value);
    Did::Goes
}

/// An element of an array in place of its index.
#[inline(always)]
fn index(store: &Store, global: u32, at: &mut Cursor, words: &mut [i32]) -> Did
    requires at { IsAt at.old words.old }
    requires some { 1 ≤ at.old.depth }
    ensures performs { (w : Setting) (frames : List Activation)
        → Performs w (instr.Aget global) result (now at.old words.old frames store.now)
        (now at.new words.new frames store.now) }
    ensures same { length words.new ≡ length words.old }
    ensures depth { at.new.depth ≤ length words.new }
    ensures keeps { Keeps result at.old at.new }
{
    match element(array(store.globals(), global), top(at, words)) {
        Ok(value) => {
            replace_one(at, words, value);
            Did::Goes
        }
        Err(cause) => Did::Ends(Stop::Trapped(cause)),
    }
}

/// A field in place of its object.
#[inline(always)]
fn member(store: &Store, owner: u32, field: u32, at: &mut Cursor, words: &mut [i32]) -> Did
    requires at { IsAt at.old words.old }
    requires some { 1 ≤ at.old.depth }
    ensures performs { (w : Setting) (frames : List Activation)
        → Performs w (instr.Fget owner field) result (now at.old words.old frames store.now)
        (now at.new words.new frames store.now) }
    ensures same { length words.new ≡ length words.old }
    ensures depth { at.new.depth ≤ length words.new }
    ensures keeps { Keeps result at.old at.new }
{
    match field_of(store.heap(), top(at, words), owner, field) {
        Ok(value) => {
            replace_one(at, words, value);
            Did::Goes
        }
        Err(cause) => Did::Ends(Stop::Trapped(cause)),
    }
}

/// Goes to a position.
#[inline(always)]
fn jump(to: u32, at: &mut Cursor, words: &[i32]) -> Did
    requires at { IsAt at.old words.now }
    ensures performs { (w : Setting) (frames : List Activation) (memory : Memory)
        → Performs w (instr.Jump to) result (now at.old words.now frames memory)
        (now at.new words.now frames memory) }
    ensures depth { at.new.depth ≤ length words.now }
    ensures keeps { Keeps result at.old at.new }
{
    at.pc = to as usize;
    at.count += 1;
    Did::Goes
}

/// Goes to a position where the top operand is 0.
#[inline(always)]
fn test(to: u32, at: &mut Cursor, words: &[i32]) -> Did
    requires at { IsAt at.old words.now }
    requires some { 1 ≤ at.old.depth }
    ensures performs { (w : Setting) (frames : List Activation) (memory : Memory)
        → Performs w (instr.Jz to) result (now at.old words.now frames memory)
        (now at.new words.now frames memory) }
    ensures depth { at.new.depth ≤ length words.now }
    ensures keeps { Keeps result at.old at.new }
{
    let value = top(at, words);
    drop_top(at, words, 1);
    if !is_true(value) {
        at.pc = to as usize;
    }
    Did::Goes
}

/// One instruction on.
#[inline(always)]
fn pass(at: &mut Cursor, words: &[i32]) -> Did
    requires at { IsAt at.old words.now }
    ensures performs { (x : Instr) (w : Setting) (frames : List Activation) (memory : Memory)
        → GoesWith x (operands at.old.depth words.now) w (now at.old words.now frames memory)
        → Performs w x result (now at.old words.now frames memory)
        (now at.new words.now frames memory) }
    ensures depth { at.new.depth ≤ length words.now }
    ensures keeps { Keeps result at.old at.new }
{
    drop_top(at, words, 0);
    Did::Goes
}

/// An instruction that changes nothing but operands and the position, where the flag isn't set.
#[inline(always)]
pub fn evaluate<S: FrameStack>(
    instr: Instr,
    stack: &S,
    store: &Store,
    at: &mut Cursor,
    words: &mut [i32],
) -> Did
    requires at { IsAt at.old words.old }
    requires some { popped instr ≤ at.old.depth }
    requires slot { NamesSlot instr (S.frames stack.now) }
    requires live { 1 ≤ length (S.frames stack.now) }
    requires plain { IsPlain instr }
    ensures performs { IsEvaluated instr result (S.frames stack.now) store.now at.old words.old
        at.new words.new }
    ensures same { length words.new ≡ length words.old }
    ensures depth { at.new.depth ≤ length words.new }
    ensures keeps { Keeps result at.old at.new }
{
    match instr {
        Instr::Const(value) => pushed(at, words, value),
        Instr::Get(k) => pushed(at, words, stack.slot(k)),
        Instr::Gget(global) => pushed(at, words, scalar(store, global)),
        Instr::Aget(global) => index(store, global, at, words),
        Instr::Fget(owner, field) => member(store, owner, field, at, words),
        Instr::Un(op) => operate_one(op, at, words),
        Instr::Bin(op) => operate(op, at, words),
        Instr::Jump(to) => jump(to, at, words),
        Instr::Jz(to) => test(to, at, words),
        Instr::Restore => pass(at, words),
        Instr::Flag(_) => pass(at, words),
        _ => unreachable!(),
    }
}
