//! A thread of the target machine.

ghost use Rattle.std.specs.Prelude.{◌≡◌, ◌<◌, length, pos, slice_index_or};
ghost use Rattle.c_tree.specs.Step as source;
ghost use Rattle.target_code.specs.declared.activation.Mode.TheVariants.{Saved};
ghost use Rattle.target_code.specs.Between.{IsBetweenTurns};
ghost use Rattle.target_code.specs.Seen.{seen};
ghost use Rattle.target_code.specs.Stack.{with_slot};
ghost use Rattle.target_code.specs.Target.{top_of};
ghost use Rattle.thread_machine.specs.Next.{next_of, next_of_saved};
ghost use Rattle.thread_machine.specs.Room.{CanHold};

use crate::next::{Next, next_in};
use crate::part::mark_of;
use crate::place::{body_of, place_in};
use c_tree::{Frame, Row};
use std::marker::Model;
use target_code::{Code, FrameStack, Mode};

/// A thread, on a stack of its own. Contracts see it as the definitions' thread between two
/// events. A thread whose frames are saved keeps an empty stack with room for them.
pub struct Thread<S: FrameStack> {
    pub(crate) stack: S,
    pub(crate) mode: Mode,
    pub(crate) returned: i32,
    /// The frames that are saved, the outermost first.
    pub(crate) saved: Row<Frame>,
    /// How many instructions it ran.
    pub(crate) count: u64,
}

impl<S: FrameStack> Drop for Thread<S> {
    fn drop(self) {
        let Thread {
            stack: _,
            mode: _,
            returned: _,
            saved: _,
            count: _,
        } = self;
    }
}

impl<S: FrameStack> Model for Thread<S> {
    ghost use Rattle.target_code.specs.Target.{Target};
    ghost use Rattle.thread_machine.specs.Room.{KeepsRoom};

    ghost Value = { Target };

    ghost view = { λ t. record {
      mode = t.mode;
      activations = S.frames t.stack;
      returned = t.returned;
      saved = t.saved;
      count = t.count;
    } };

    ghost invariant = { λ t. KeepsRoom t.mode t.saved (S.frames t.stack) (S.spare t.stack) };
}

impl<S: FrameStack> Thread<S> {
    /// How many instructions it ran.
    pub fn count(&self) -> u64
        ensures { result ≡ self.now.count }
    {
        self.count
    }

    /// What it does with its frames.
    pub fn mode(&self) -> Mode
        ensures { result ≡ self.now.mode }
    {
        self.mode
    }

    /// The frames that are saved, the outermost first.
    pub fn saved(&self) -> &Row<Frame>
        ensures { result.now ≡ self.now.saved }
    {
        &self.saved
    }

    /// The function and the place of the innermost frame of a running thread.
    pub fn place(&self, code: &Code) -> (u32, u32)
        requires { IsBetweenTurns code.now self.now }
        ensures function { result.0 ≡ (source.top_of (seen code.now self.now)).function }
        ensures place { result.1 ≡ (source.top_of (seen code.now self.now)).place }
    {
        let top = self.stack.top();
        let place = place_in(body_of(code, top.function), top.pc);
        (top.function, place)
    }

    /// The slots of the innermost frame.
    pub fn slots(&self) -> &[i32]
        requires { 0 < length self.now.activations }
        ensures { result.now ≡ (top_of self.now.activations).slots }
    {
        self.stack.slots()
    }

    /// A slot of the innermost frame.
    pub fn slot(&self, k: u32) -> i32
        requires live { 0 < length self.now.activations }
        requires within { k < length (top_of self.now.activations).slots }
        ensures { result ≡ slice_index_or (top_of self.now.activations).slots k (pos 0) }
    {
        self.stack.slot(k)
    }

    /// What the thread does next, by the instructions behind its mark.
    pub fn next(&self, code: &Code) -> Next
        requires { 0 < length self.now.activations }
        ensures { result ≡ next_of code.now (top_of self.now.activations) }
    {
        let top = self.stack.top();
        next_in(code, top.function, top.pc)
    }

    /// What a saved thread does next, once its frames are rebuilt in the code.
    pub fn next_saved(&self, code: &Code) -> Next
        requires { 0 < length self.now.saved }
        ensures { result ≡ next_of_saved code.now (source.top_of self.now.saved) }
    {
        let frames = self.saved.as_slice();
        let last = &frames[frames.len() - 1];
        next_in(
            code,
            last.function,
            mark_of(code, last.function, last.place),
        )
    }

    /// Puts the argument into the first slot of a thread that starts.
    pub fn put_argument(&mut self, argument: i32)
        requires live { 0 < length self.old.activations }
        requires parameter { 0 < length (top_of self.old.activations).slots }
        ensures { self.new ≡ record self.old {
          activations = with_slot 0 argument self.old.activations;
        } }
    {
        self.stack.set_slot(0, argument);
    }

    /// Puts other saved frames in place of a saved thread's, and a stack with room for them in
    /// place of its own, and gives both back. Takes no memory.
    pub fn put_saved(&mut self, frames: Row<Frame>, stack: S) -> (Row<Frame>, S)
        requires saved { self.old.mode ≡ Saved }
        requires room { CanHold frames (S.frames stack) (S.spare stack) }
        ensures thread { self.new ≡ record self.old { saved = frames } }
        ensures frames { result.0 ≡ self.old.saved }
        ensures stack { CanHold self.old.saved (S.frames result.1) (S.spare result.1) }
    {
        let frames = std::mem::replace(&mut self.saved, frames);
        let stack = std::mem::replace(&mut self.stack, stack);
        (frames, stack)
    }
}
