//! A row of turns of one thread.

ghost use Rattle.std.specs.Prelude.{◌≡◌, ◌≤◌, ◌<◌, ◌+◌, false, length, slice_get, slice_index_or, Some};
ghost use Rattle.target_code.specs.Machine.{Setting, function_in};
ghost use Rattle.target_code.specs.Stack.{with_pc};
ghost use Rattle.target_code.specs.Target.{top_of};
ghost use Rattle.target_code.specs.declared.instr.Instr.TheVariants as instr;
ghost use Rattle.target_laws.specs.Effects.{IsMark};
ghost use Rattle.target_laws.specs.Rows.{IsThreadOf, calm};
ghost use Rattle.thread_turns.specs.Now.{IsAt, NamesSlot, now, popped, IsPlain};
ghost use Rattle.thread_turns.specs.Turns as row;
ghost use Rattle.thread_turns.specs.Turns.{IsDone, IsRow, thread_of};

use crate::cursor::{Cursor, Did, Kept, Stop};
use crate::evaluate::evaluate;
use crate::operands::drop_top;
use crate::perform::perform;
use std::alloc::Global;
use store_mem::Store;
use target_code::{Code, FrameStack, Instr};

/// Fewer instructions than a thread runs up to the effect of a step.
const FEW: u64 = 4611686018427387904;

/// Fewer instructions than a thread runs up to a mark.
const MANY: u64 = 9223372036854775808;

/// The instructions of a function.
#[inline(always)]
fn body_of(code: &Code, function: u32) -> &[Instr]
    requires { function < length code.now.functions }
    ensures body { result.now ≡ (function_in code.now function).body }
    ensures short { length result.now < 576460752303423488 }
{
    code.functions().as_slice()[function as usize]
        .body
        .as_slice()
}

/// The place of the mark at a position.
fn place_at(body: &[Instr], pc: u32) -> u32
    requires { IsMark (slice_get body.now pc) }
    ensures { slice_get body.now pc ≡ Some (instr.Mark result) }
{
    match body[pc as usize] {
        Instr::Mark(n) => n,
        _ => unreachable!(),
    }
}

/// Where a thread is behind the mark at a position.
#[inline(always)]
fn behind_mark(kept: &Kept, pc: u32) -> Cursor
    requires { kept.now.count < 18446744073709551615 }
    ensures { result ≡ record {
      pc = pc + 1;
      depth = 0;
      returned = kept.now.returned;
      count = kept.now.count + 1;
    } }
{
    Cursor {
        pc: pc as usize + 1,
        depth: 0,
        returned: kept.returned,
        count: kept.count + 1,
    }
}

/// An instruction that changes nothing but operands and the position.
#[inline(always)]
fn plain<S: FrameStack>(
    instr: Instr,
    flag: bool,
    stack: &S,
    store: &Store,
    at: &mut Cursor,
    words: &mut [i32],
) -> Did
    requires at { IsAt at.old words.old }
    requires some { popped instr ≤ at.old.depth }
    requires slot { NamesSlot instr (S.frames stack.now) }
    requires live { 1 ≤ length (S.frames stack.now) }
    requires plain { IsPlain instr }
    ensures done { (w : Setting) → w.flag ≡ false → IsDone w instr result
        (now at.old words.old (S.frames stack.now) store.now)
        (now at.new words.new (S.frames stack.now) store.now) }
    ensures same { length words.new ≡ length words.old }
    ensures depth { at.new.depth ≤ length words.new }
    ensures plain { IsPlain instr }
{
    match instr {
        Instr::Flag(_) => if flag {
            Did::Ends(Stop::Standing)
        } else {
            drop_top(at, words, 0);
            Did::Goes
        },
        Instr::Restore => {
            drop_top(at, words, 0);
            Did::Goes
        }
        Instr::Jump(to) => {
            at.pc = to as usize;
            at.count += 1;
            Did::Goes
        }
        _ => evaluate(instr, stack, store, at, words),
    }
}

/// How many instructions the thread ran: at the mark, or behind a trap or an end.
fn count_at(end: Stop, ran: u64, marked: u64) -> u64
    requires few { ran < 18446744073709551615 }
    ensures { result ≡ row.count_at end ran marked }
{
    match end {
        Stop::Trapped(_) => ran + 1,
        Stop::Ended => ran + 1,
        Stop::Finished(_) => ran + 1,
        _ => marked,
    }
}

/// The row ends: the thread stands at the mark of this place of its function.
fn end_row<S: FrameStack>(
    end: Stop,
    code: &Code,
    place: u32,
    marked: u64,
    stack: &mut S,
    at: &Cursor,
    kept: &mut Kept,
) -> Stop
    requires live { 0 < length (S.frames stack.old) }
    requires within { (top_of (S.frames stack.old)).function < length code.now.functions }
    requires placed { place
        < length (function_in code.now (top_of (S.frames stack.old)).function).marks }
    requires few { at.now.count < 18446744073709551615 }
    ensures frames { S.frames stack.new
        ≡ with_pc (slice_index_or (function_in code.now
        (top_of (S.frames stack.old)).function).marks place 0) (S.frames stack.old) }
    ensures returned { kept.new.returned ≡ at.now.returned }
    ensures count { kept.new.count ≡ row.count_at result at.now.count marked }
    ensures steps { kept.new.steps ≡ kept.old.steps }
    ensures same { result ≡ end }
{
    let top = stack.top();
    let pc = code.functions().as_slice()[top.function as usize]
        .marks
        .as_slice()[place as usize];
    stack.set_pc(pc);
    kept.returned = at.returned;
    kept.count = count_at(end, at.count, marked);
    end
}

/// Makes turns of a running thread of a program, at most so many, in one loop: what lasts is in
/// locals. It ends before a Step that may change what other threads can do, unless that is its
/// first one, and always before a Step that makes a thread; with the flag set it ends at an update
/// place. Where it ends within a Step, the thread and the store are as at that Step's mark.
///
/// `kept` tells how many turns were made, and how many instructions the thread ran; those of a Step
/// that traps or ends the thread or the program are counted, those of one that is left are not.
pub fn row<S: FrameStack>(
    alloc: Global,
    code: &Code,
    number: u32,
    flag: bool,
    most: u64,
    stack: &mut S,
    store: &mut Store,
    words: &mut [i32],
    kept: &mut Kept,
) -> Stop
    requires some { 1 ≤ most }
    requires thread { IsThreadOf code.now number (thread_of kept.old (S.frames stack.old))
        store.old }
    ensures row { IsRow code.now number result (thread_of kept.old (S.frames stack.old)) store.old
        kept.new.steps (thread_of kept.new (S.frames stack.new)) store.new }
    ensures steps { kept.new.steps ≤ most }
    ensures words { length words.new ≡ length words.old }
{
    kept.steps = 0;
    if kept.count >= FEW {
        return Stop::Memory;
    }
    let top = stack.top();
    let mut body = body_of(code, top.function);
    let mut place = place_at(body, top.pc);
    let mut marked = kept.count;
    let mut room = FEW;
    let mut at = behind_mark(kept, top.pc);
    while at.count < room {
        let instr = body[at.pc];
        match instr {
            Instr::Mark(n) => {
                place = n;
                marked = at.count;
                room = FEW;
                kept.steps += 1;
                if kept.steps == most {
                    return end_row(Stop::Made, code, place, marked, stack, &at, kept);
                }
                at.depth = 0;
                drop_top(&mut at, words, 0);
            }
            Instr::Const(_)
            | Instr::Get(_)
            | Instr::Gget(_)
            | Instr::Aget(_)
            | Instr::Fget(_, _)
            | Instr::Un(_)
            | Instr::Bin(_)
            | Instr::Jump(_)
            | Instr::Jz(_)
            | Instr::Restore
            | Instr::Flag(_) => match plain(instr, flag, stack, store, &mut at, words) {
                Did::Ends(end) => return end_row(end, code, place, marked, stack, &at, kept),
                _ => {}
            },
            Instr::Spawn(_) => {
                return end_row(Stop::Spawning, code, place, marked, stack, &at, kept);
            }
            _ => {
                room = MANY;
                let first = kept.steps == 0;
                match perform(
                    alloc, code, number, first, instr, stack, store, &mut at, words,
                ) {
                    Did::Goes => {}
                    Did::Moves => body = body_of(code, stack.top().function),
                    Did::Ends(end) => {
                        return end_row(end, code, place, marked, stack, &at, kept);
                    }
                }
            }
        }
    }
    end_row(Stop::Memory, code, place, marked, stack, &at, kept)
}
