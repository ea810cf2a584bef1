//! The stacks of the target machine, the plain one and the one in segments alike: activations in
//! room that was made, words that are used again, and many activations.

use row_calls::{RowsDiffer, compare, judged};
use seg_stack::SegStack;
use std::alloc::{AllocError, Global};
use std::thread;
use std::thread::Threads;
use target_code::{FrameStack, ListStack};

/// What the innermost activations are after the calls below.
const WANTED: &str = r"
29 activations
function 5 at 11: 0 0 0 0 0
function 3 at 0: 7
function 8 at 0: 0 0 0 0 0
31 activations: 30
10000 activations, alike true, 0 left
";

fn put_top<S: FrameStack>(text: &mut String, stack: &S) -> Result<(), AllocError> {
    if stack.depth() == 0 {
        return text.push_str("none\n");
    }
    let top = stack.top();
    let (function, pc) = (top.function, top.pc);
    write!(text, "function {function} at {pc}:")?;
    for value in stack.slots() {
        write!(text, " {value}")?;
    }
    text.push_str("\n")
}

/// Room for 3,965 words has 29 activations of 132.
fn put_room<S: FrameStack>(text: &mut String, stack: &mut S) -> Result<(), AllocError> {
    stack.reserve(3965)?;
    for function in 0..29 {
        stack.push_frame(function, 128)?;
    }
    let depth = stack.depth();
    write!(text, "{depth} activations\n")
}

/// A new activation has zeros, whatever stood there before, and those below it stay.
fn put_reused<S: FrameStack>(text: &mut String, stack: &mut S) -> Result<(), AllocError> {
    stack.push_frame(3, 1)?;
    stack.set_slot(0, 7);
    stack.push_frame(4, 128)?;
    stack.set_slot(2, 9);
    stack.push_frame(4, 128)?;
    stack.set_slot(0, 8);
    stack.pop_frame();
    stack.pop_frame();
    stack.push_frame(5, 5)?;
    stack.set_pc(11);
    put_top(text, stack)?;
    stack.pop_frame();
    put_top(text, stack)
}

/// The innermost activation's last slot; -1 where there is none.
fn last<S: FrameStack>(stack: &S) -> i32 {
    if stack.depth() == 0 {
        return -1;
    }
    match stack.slots().last() {
        Some(&value) => value,
        None => -1,
    }
}

/// An activation that doesn't fit behind 31 of 132 words, and what lies below it.
fn put_edge<S: FrameStack>(text: &mut String, stack: &mut S) -> Result<(), AllocError> {
    for number in 0..31 {
        stack.push_frame(number, 128)?;
        stack.set_slot(127, number as i32);
    }
    stack.push_frame(8, 5)?;
    put_top(text, stack)?;
    stack.set_slot(4, 1);
    stack.pop_frame();
    let (depth, last) = (stack.depth(), last(stack));
    write!(text, "{depth} activations: {last}\n")
}

/// So many activations of 132 words each, and back.
fn put_deep<S: FrameStack>(text: &mut String, stack: &mut S) -> Result<(), AllocError> {
    for number in 0..10000 {
        stack.push_frame(number, 128)?;
        stack.set_slot(127, number as i32);
    }
    let depth = stack.depth();
    let mut alike = true;
    for number in (0..10000).rev() {
        if stack.depth() > 0 {
            if last(stack) != number {
                alike = false;
            }
            stack.pop_frame();
        }
    }
    let left = stack.depth();
    write!(text, "{depth} activations, alike {alike}, {left} left\n")
}

fn differing_stacks(alloc: Global) -> Result<String, AllocError> {
    let mut differing = String::new(alloc);
    let mut text = String::new(alloc);
    put_room(&mut text, &mut ListStack::new(alloc))?;
    put_reused(&mut text, &mut ListStack::new(alloc))?;
    put_edge(&mut text, &mut ListStack::new(alloc))?;
    put_deep(&mut text, &mut ListStack::new(alloc))?;
    compare(&mut differing, "a plain stack", WANTED, &text)?;
    let mut text = String::new(alloc);
    put_room(&mut text, &mut SegStack::new(alloc))?;
    put_reused(&mut text, &mut SegStack::new(alloc))?;
    put_edge(&mut text, &mut SegStack::new(alloc))?;
    put_deep(&mut text, &mut SegStack::new(alloc))?;
    compare(&mut differing, "a stack in segments", WANTED, &text)?;
    Ok(differing)
}

/// Another thread pushes an activation and gives the stack back.
fn pushed_there<R: Threads + Sync>(rt: &R, stack: SegStack) -> (SegStack, bool) {
    let (pushed, ()) = thread::join(
        rt,
        move || -> (SegStack, bool) {
            let mut stack = stack;
            let pushed = stack.push_frame(6, 2).is_ok();
            (stack, pushed)
        },
        || (),
    );
    pushed
}

fn differing_moves<R: Threads + Sync>(rt: &R, alloc: Global) -> Result<String, AllocError> {
    let mut text = String::new(alloc);
    let (stack, pushed) = pushed_there(rt, SegStack::new(alloc));
    if pushed {
        put_top(&mut text, &stack)?;
    }
    let mut differing = String::new(alloc);
    compare(
        &mut differing,
        "pushed by another thread",
        "\nfunction 6 at 0: 0 0\n",
        &text,
    )?;
    Ok(differing)
}

#[test]
fn a_stack_uses_its_words_again(rt: HostRuntime) -> Result<(), RowsDiffer> {
    judged(differing_stacks(rt.alloc()))
}

#[test]
fn a_stack_moves_between_threads(rt: HostRuntime) -> Result<(), RowsDiffer> {
    judged(differing_moves(&rt, rt.alloc()))
}
