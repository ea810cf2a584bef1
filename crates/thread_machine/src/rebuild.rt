//! Rebuilding: the saved frames of a thread become activations.

ghost use Rattle.std.specs.Prelude.{◌≡◌, ◌≤◌, ◌<◌, ◌+◌, ◌*◌, length, drop};
ghost use Rattle.c_tree.specs.Limits.{max_frames};
ghost use Rattle.target_code.specs.declared.activation.Mode.TheVariants.{Saved};
ghost use Rattle.target_code.specs.Code.{IsCode};
ghost use Rattle.thread_machine.specs.Rebuilt.{rebuilt_on, rebuilding_cost, AreReady};
ghost use Rattle.thread_machine.specs.Room.{room_of};
ghost use Rattle.thread_machine.specs.Threads.{CanRebuild, HasRebuilt};

use crate::part::{params_of, position};
use crate::stack::put;
use crate::thread::Thread;
use c_tree::{Frame, Row};
use target_code::{Code, FrameStack, Mode};

/// How many instructions it takes to rebuild the first of these frames, which called the next one.
fn cost_of_first(code: &Code, frames: &[Frame]) -> u64
    requires { 0 < length frames.now }
    ensures cost { result + rebuilding_cost code.now (drop 1 frames.now)
        ≡ rebuilding_cost code.now frames.now }
    ensures little { result ≤ 4294967297 }
{
    match frames.get(1) {
        None => 1,
        Some(called) => params_of(code, called.function) as u64 + 2,
    }
}

/// Rebuilds the first of these frames, for which there is room.
fn rebuild_first<S: FrameStack>(code: &Code, frames: &[Frame], stack: &mut S)
    requires some { 0 < length frames.now }
    requires code { IsCode code.now }
    requires ready { AreReady code.now frames.now }
    requires room { room_of frames.now ≤ S.spare stack.old }
    ensures frames { rebuilt_on code.now (drop 1 frames.now) (S.frames stack.new)
        ≡ rebuilt_on code.now frames.now (S.frames stack.old) }
    ensures room { room_of (drop 1 frames.now) ≤ S.spare stack.new }
{
    let frame = &frames[0];
    let pc = position(code, frames);
    put(stack, frame.function, pc, frame.slots.as_slice());
}

/// The frames from a number on.
fn behind(frames: &[Frame], k: usize) -> &[Frame]
    requires { k ≤ length frames.now }
    ensures { result.now ≡ drop k frames.now }
{
    &frames[k..]
}

/// Rebuilds frames, the outermost first, for which there is room. How many instructions this takes.
fn rebuild_all<S: FrameStack>(code: &Code, frames: &[Frame], stack: &mut S) -> u64
    requires code { IsCode code.now }
    requires ready { AreReady code.now frames.now }
    requires room { room_of frames.now ≤ S.spare stack.old }
    requires few { length frames.now ≤ max_frames }
    ensures frames { S.frames stack.new ≡ rebuilt_on code.now frames.now (S.frames stack.old) }
    ensures cost { result ≡ rebuilding_cost code.now frames.now }
    ensures little { result ≤ 42949672970000 }
{
    let mut cost = 0;
    for k in 0..frames.len() {
        let rest = behind(frames, k);
        rebuild_first(code, rest, stack);
        cost += cost_of_first(code, rest);
    }
    cost
}

impl<S: FrameStack> Thread<S> {
    /// Rebuilds the saved frames in the stack, which has the room: the thread runs again. Takes no
    /// memory.
    pub fn rebuild(&mut self, code: &Code)
        requires saved { self.old.mode ≡ Saved }
        requires sound { CanRebuild code.now self.old }
        requires count { self.old.count < 9223372036854775808 }
        ensures { HasRebuilt code.now self.old self.new }
    {
        let cost = rebuild_all(code, self.saved.as_slice(), &mut self.stack);
        self.saved = Row::from_vec(Vec::new(self.saved.alloc()));
        self.count += cost;
        self.mode = Mode::Running;
    }
}
