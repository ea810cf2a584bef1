//! Stacks on which threads keep their activations.

ghost use Rattle.std.specs.Prelude.{◌≡◌, ◌∷◌, ◌+◌, ◌<◌, ◌≤◌, length, slice_index_or, pos, IsOk, OnOk, OnErr};
ghost use Rattle.target_code.specs.Target.{top_of, below_of};
ghost use Rattle.target_code.specs.Stack.{words, words_of, blank, with_pc, with_slot};

use crate::activation::FrameInfo;
use std::alloc::AllocError;

/// A stack of activations. Contracts see them, innermost first, beside the number of words that
/// can be pushed without memory. An activation takes a word for each of its slots and four more.
pub trait FrameStack: Drop {
    ghost use Rattle.std.specs.Prelude.{ℕ, List};
    ghost use Rattle.target_code.specs.declared.activation.Activation.{Activation};

    /// The activations, innermost first.
    ghost frames: { Self → List Activation };

    /// How many words can be pushed without memory.
    ghost spare: { Self → ℕ };

    /// Makes room for so many words.
    ///
    /// # Errors
    /// Want of memory; the room that was there stays.
    fn reserve(&mut self, room: u64) -> Result<(), AllocError>
        ensures frames { frames self.new ≡ frames self.old }
        ensures ok { OnOk result (room ≤ spare self.new) }
        ensures spare { spare self.old ≤ spare self.new };

    /// Pushes an activation at the start of its function, with zeros in its slots.
    ///
    /// # Errors
    /// Want of memory, only where there was no room; then all is as before.
    fn push_frame(&mut self, function: u32, slots: u32) -> Result<(), AllocError>
        requires few { slots ≤ 128 }
        ensures ok { OnOk result (frames self.new ≡ blank function slots ∷ frames self.old) }
        ensures err { OnErr result
            ((frames self.new ≡ frames self.old) × (spare self.new ≡ spare self.old)) }
        ensures room { words slots ≤ spare self.old
            → IsOk result × (spare self.new + words slots ≡ spare self.old) };

    /// Drops the innermost activation, whose words can be pushed again.
    fn pop_frame(&mut self)
        requires { 0 < length (frames self.old) }
        ensures frames { frames self.new ≡ below_of (frames self.old) }
        ensures spare { spare self.new ≡ spare self.old + words_of (top_of (frames self.old)) };

    /// How many activations there are.
    fn depth(&self) -> u32
        ensures { result ≡ length (frames self.now) };

    /// What the innermost activation is.
    fn top(&self) -> FrameInfo
        requires { 0 < length (frames self.now) }
        ensures function { result.function ≡ (top_of (frames self.now)).function }
        ensures pc { result.pc ≡ (top_of (frames self.now)).pc }
        ensures slots { result.slots ≡ length (top_of (frames self.now)).slots };

    /// The innermost activation's slots.
    fn slots(&self) -> &[i32]
        requires { 0 < length (frames self.now) }
        ensures { result.now ≡ (top_of (frames self.now)).slots };

    /// A slot of the innermost activation.
    fn slot(&self, k: u32) -> i32
        requires live { 0 < length (frames self.now) }
        requires within { k < length (top_of (frames self.now)).slots }
        ensures { result ≡ slice_index_or (top_of (frames self.now)).slots k (pos 0) };

    /// Puts a value into a slot of the innermost activation.
    fn set_slot(&mut self, k: u32, value: i32)
        requires live { 0 < length (frames self.old) }
        requires within { k < length (top_of (frames self.old)).slots }
        ensures frames { frames self.new ≡ with_slot k value (frames self.old) }
        ensures spare { spare self.new ≡ spare self.old };

    /// Puts the innermost activation at another position.
    fn set_pc(&mut self, pc: u32)
        requires { 0 < length (frames self.old) }
        ensures frames { frames self.new ≡ with_pc pc (frames self.old) }
        ensures spare { spare self.new ≡ spare self.old };
}
