//! Unwinding: the activations of a thread become saved frames.

ghost use Rattle.std.specs.Prelude.{◌≡◌, ◌≤◌, ◌<◌, ◌+◌, ◌*◌, ◌∷◌, [], ◌++◌, length, reverse, IfOk, OnOk, OnErr, vec_len, vec_capacity};
ghost use Rattle.target_code.specs.Between.{IsBetweenTurns};
ghost use Rattle.thread_machine.specs.Room.{words_of_all, HaveFewSlots};
ghost use Rattle.thread_machine.specs.Standing.{saved_frame, saved_frames, saving_cost, cost_by, instr_of, IsAtUpdate};
ghost use Rattle.thread_machine.specs.Threads.{HasUnwound};

use crate::place::{body_of, cost_in, place_in};
use crate::stack::{put_back, take_all};
use crate::thread::Thread;
use c_tree::{Frame, Row};
use std::alloc::{AllocError, Global};
use target_code::{Activation, Code, FrameStack, Mode};

/// The frame of an activation, behind others. What saving it costs.
fn save(code: &Code, activation: Activation, frames: &mut Vec<Frame>) -> u64
    requires room { vec_len frames.old < vec_capacity frames.old }
    ensures frames { frames.new.items ≡ frames.old.items ++ saved_frame code.now activation ∷ [] }
    ensures room { vec_capacity frames.old ≤ vec_capacity frames.new }
    ensures cost { result ≡ cost_by (instr_of code.now activation) }
{
    let Activation {
        function,
        pc,
        slots,
    } = activation;
    let body = body_of(code, function);
    let place = place_in(body, pc);
    match frames.push(Frame {
        function,
        place,
        slots,
    }) {
        Ok(()) => {}
        Err(_) => unreachable!(),
    }
    cost_in(body, pc)
}

/// The frame of the activation that was taken last, behind others. What saving it costs.
fn save_one(code: &Code, taken: &mut Row<Activation>, frames: &mut Vec<Frame>) -> u64
    requires some { 0 < length taken.old }
    requires room { vec_len frames.old + length taken.old ≤ vec_capacity frames.old }
    ensures frames { frames.new.items ++ reverse (saved_frames code.now taken.new)
        ≡ frames.old.items ++ reverse (saved_frames code.now taken.old) }
    ensures one { length taken.new + 1 ≡ length taken.old }
    ensures room { vec_len frames.new + length taken.new ≤ vec_capacity frames.new }
    ensures cost { result + saving_cost code.now taken.new ≡ saving_cost code.now taken.old }
    ensures little { result ≤ 2 }
{
    match taken.pop() {
        Some(activation) => save(code, activation, frames),
        None => unreachable!(),
    }
}

/// The frames of activations, the innermost of which stands first, behind others. What saving
/// them costs.
fn save_all(code: &Code, taken: Row<Activation>, frames: &mut Vec<Frame>) -> u64
    requires room { vec_len frames.old + length taken ≤ vec_capacity frames.old }
    requires few { length taken < 4294967296 }
    ensures frames { frames.new.items ≡ frames.old.items ++ reverse (saved_frames code.now taken) }
    ensures cost { result ≡ saving_cost code.now taken }
{
    let mut taken = taken;
    let all = taken.len();
    let mut cost = 0;
    for _ in 0..all {
        cost += save_one(code, &mut taken, frames);
    }
    cost
}

/// The frames for which a stack's activations stand, outermost first, and what saving them costs.
/// The stack is empty then.
///
/// # Errors
/// Want of memory; then the stack has its activations as before.
fn empty<S: FrameStack>(
    alloc: Global,
    code: &Code,
    stack: &mut S,
) -> Result<(Row<Frame>, u64), AllocError>
    requires few { HaveFewSlots (S.frames stack.old) }
    ensures frames { IfOk result (λ r. r.0 ≡ reverse (saved_frames code.now (S.frames stack.old))) }
    ensures cost { IfOk result (λ r. r.1 ≡ saving_cost code.now (S.frames stack.old)) }
    ensures little { IfOk result (λ r. r.1 ≤ 8589934592) }
    ensures empty { OnOk result (S.frames stack.new ≡ []) }
    ensures room { OnOk result (S.spare stack.new
        ≡ S.spare stack.old + words_of_all (S.frames stack.old)) }
    ensures err { OnErr result (S.frames stack.new ≡ S.frames stack.old) }
{
    let depth = stack.depth() as usize;
    let mut frames = Vec::with_capacity(alloc, depth)?;
    let mut taken = Row::from_vec(Vec::with_capacity(alloc, depth)?);
    match take_all(alloc, stack, &mut taken) {
        Ok(()) => {
            let cost = save_all(code, taken, &mut frames);
            Ok((Row::from_vec(frames), cost))
        }
        Err(end) => {
            put_back(stack, &mut taken);
            Err(end)
        }
    }
}

impl<S: FrameStack> Thread<S> {
    /// Saves all frames of a running thread that stands at an update place.
    ///
    /// # Errors
    /// Want of memory; then all is as before.
    pub fn unwind(&mut self, alloc: Global, code: &Code) -> Result<(), AllocError>
        requires between { IsBetweenTurns code.now self.old }
        requires update { IsAtUpdate code.now self.old }
        requires count { self.old.count < 9223372036854775808 }
        ensures ok { OnOk result (HasUnwound code.now self.old self.new) }
        ensures err { OnErr result (self.new ≡ self.old) }
    {
        let (saved, cost) = empty(alloc, code, &mut self.stack)?;
        self.saved = saved;
        self.count += cost;
        self.mode = Mode::Saved;
        Ok(())
    }
}
