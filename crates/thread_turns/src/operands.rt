//! The operands: the first words of a slice, the top one last.

ghost use Rattle.std.specs.Prelude.{◌≡◌, ◌≤◌, ◌<◌, ◌-◌, ◌∷◌, length};
ghost use Rattle.thread_turns.specs.Now.{IsAt, Leaves, operands};

use crate::cursor::Cursor;

/// One instruction on, with so many operands less.
#[inline(always)]
pub fn drop_top(at: &mut Cursor, words: &[i32], count: usize)
    requires at { IsAt at.old words.now }
    requires some { count ≤ at.old.depth }
    ensures { Leaves (operands (at.old.depth - count) words.now) at.old at.new words.now }
{
    at.depth -= count;
    at.pc += 1;
    at.count += 1;
}

/// One instruction on, with a value more on top.
#[inline(always)]
pub fn push(at: &mut Cursor, words: &mut [i32], value: i32)
    requires at { IsAt at.old words.old }
    requires room { at.old.depth < length words.old }
    ensures leaves { Leaves (value ∷ operands at.old.depth words.old) at.old at.new words.new }
    ensures same { length words.new ≡ length words.old }
{
    words[at.depth] = value;
    at.depth += 1;
    at.pc += 1;
    at.count += 1;
}

/// One instruction on, with a value in place of the top operand.
#[inline(always)]
pub fn replace_one(at: &mut Cursor, words: &mut [i32], value: i32)
    requires at { IsAt at.old words.old }
    requires some { 1 ≤ at.old.depth }
    ensures leaves { Leaves (value ∷ operands (at.old.depth - 1) words.old)
        at.old at.new words.new }
    ensures same { length words.new ≡ length words.old }
{
    words[at.depth - 1] = value;
    at.pc += 1;
    at.count += 1;
}

/// One instruction on, with a value in place of the two top operands.
#[inline(always)]
pub fn replace_two(at: &mut Cursor, words: &mut [i32], value: i32)
    requires at { IsAt at.old words.old }
    requires some { 2 ≤ at.old.depth }
    ensures leaves { Leaves (value ∷ operands (at.old.depth - 2) words.old)
        at.old at.new words.new }
    ensures same { length words.new ≡ length words.old }
{
    words[at.depth - 2] = value;
    at.depth -= 1;
    at.pc += 1;
    at.count += 1;
}

/// The top operand.
#[inline(always)]
pub fn top(at: &Cursor, words: &[i32]) -> i32
    requires at { IsAt at.now words.now }
    requires some { 1 ≤ at.now.depth }
    ensures { operands at.now.depth words.now ≡ result ∷ operands (at.now.depth - 1) words.now }
{
    words[at.depth - 1]
}

/// The operand below the top one.
#[inline(always)]
pub fn second(at: &Cursor, words: &[i32]) -> i32
    requires at { IsAt at.now words.now }
    requires some { 2 ≤ at.now.depth }
    ensures { operands (at.now.depth - 1) words.now
        ≡ result ∷ operands (at.now.depth - 2) words.now }
{
    words[at.depth - 2]
}
