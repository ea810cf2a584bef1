//! The plain stack: the activations behind one another in two vectors.

ghost use Rattle.std.specs.Prelude.{◌≡◌, ◌≤◌, ◌<◌, ◌+◌, ◌*◌, ◌-◌, ◌++◌, ◌∷◌, [], length, take, reverse, replicate, pos, IsOk, OnOk, OnErr, vec_len, vec_capacity};
ghost use Rattle.target_code.specs.Stack.{with_head_pc};

use crate::activation::FrameInfo;
use crate::stack::FrameStack;
use std::alloc::{AllocError, Global};
use std::marker::Model;

/// The most words that a stack has, with those to spare, so that its activations are counted in 32
/// bits. More count as want of memory.
const MOST_WORDS: u64 = 17179869180;

/// A stack in two vectors. A call takes no memory of its own: it takes room that is there, or lets
/// the vectors grow.
pub struct ListStack {
    /// What the activations are, outermost first.
    heads: Vec<FrameInfo>,
    /// Their slots, those of the outermost first.
    slots: Vec<i32>,
    spare: u64,
}

impl Drop for ListStack {
    fn drop(self) {
        let ListStack {
            heads: _,
            slots: _,
            spare: _,
        } = self;
    }
}

impl Model for ListStack {
    ghost use Rattle.std.specs.Prelude.{◌≡◌, reverse, length, vec_len, vec_capacity};
    ghost use Rattle.target_code.specs.Stack.{Stack, frames_of, slots_of, taken, HasRoom};

    ghost Value = { Stack };

    ghost view = { λ s. record {
      frames = frames_of (reverse s.heads.items) s.slots.items;
      spare = s.spare;
    } };

    // The slots are those of the heads, and there is room for what is to spare.
    ghost invariant = { λ s.
        (slots_of (reverse s.heads.items) ≡ length s.slots.items)
        × HasRoom (taken s.spare (vec_len s.heads) (vec_len s.slots))
        (vec_capacity s.heads) (vec_capacity s.slots) };
}

/// The innermost head.
fn last(heads: &[FrameInfo]) -> FrameInfo
    requires { 0 < length heads.now }
    ensures { reverse heads.now ≡ result ∷ reverse (take (length heads.now - 1) heads.now) }
{
    heads[heads.len() - 1]
}

/// Puts the innermost head at another position.
fn set_last(heads: &mut Vec<FrameInfo>, pc: u32)
    requires { 0 < vec_len heads.old }
    ensures heads { reverse heads.new.items ≡ with_head_pc pc (reverse heads.old.items) }
    ensures len { vec_len heads.new ≡ vec_len heads.old }
    ensures room { vec_capacity heads.new ≡ vec_capacity heads.old }
{
    let last = heads.len() - 1;
    heads[last].pc = pc;
}

/// Makes room for so many words in all.
fn make_room(heads: &mut Vec<FrameInfo>, slots: &mut Vec<i32>, all: usize) -> Result<(), AllocError>
    requires heads { 4 * vec_len heads.old ≤ all }
    requires slots { vec_len slots.old ≤ all }
    ensures heads { (heads.new.items ≡ heads.old.items) × (vec_len heads.new ≡ vec_len heads.old) }
    ensures slots { (slots.new.items ≡ slots.old.items) × (vec_len slots.new ≡ vec_len slots.old) }
    ensures more { (vec_capacity heads.old ≤ vec_capacity heads.new)
        × (vec_capacity slots.old ≤ vec_capacity slots.new) }
    ensures room { OnOk result
        ((all ≤ 4 * vec_capacity heads.new) × (all ≤ vec_capacity slots.new)) }
{
    heads.reserve(all / 4 + 1 - heads.len())?;
    slots.reserve(all - slots.len())?;
    Ok(())
}

/// Puts a head behind the others, and zeros as its slots, where there is room.
fn put(heads: &mut Vec<FrameInfo>, slots: &mut Vec<i32>, head: FrameInfo)
    requires heads { vec_len heads.old < vec_capacity heads.old }
    requires slots { vec_len slots.old + head.slots ≤ vec_capacity slots.old }
    requires few { vec_len slots.old + head.slots < 18446744073709551616 }
    ensures heads { (heads.new.items ≡ heads.old.items ++ head ∷ [])
        × (vec_len heads.new ≡ vec_len heads.old + 1) }
    ensures slots { (slots.new.items ≡ slots.old.items ++ replicate head.slots (pos 0))
        × (vec_len slots.new ≡ vec_len slots.old + head.slots) }
    ensures more { (vec_capacity heads.old ≤ vec_capacity heads.new)
        × (vec_capacity slots.old ≤ vec_capacity slots.new) }
{
    let all = slots.len() + head.slots as usize;
    match slots.resize(all, 0) {
        Ok(()) => {}
        Err(_) => unreachable!(),
    }
    match heads.push(head) {
        Ok(()) => {}
        Err(_) => unreachable!(),
    }
}

impl ListStack {
    /// A stack without activations and without room.
    pub fn new(alloc: Global) -> ListStack
        ensures { result ≡ record { frames = []; spare = 0 } }
    {
        ListStack {
            heads: Vec::new(alloc),
            slots: Vec::new(alloc),
            spare: 0,
        }
    }

    /// Makes room for so many words, where it isn't there.
    fn grow(&mut self, room: u64) -> Result<(), AllocError>
        ensures frames { self.new.frames ≡ self.old.frames }
        ensures ok { OnOk result (room ≤ self.new.spare) }
        ensures spare { self.old.spare ≤ self.new.spare }
        ensures err { OnErr result (self.new ≡ self.old) }
        ensures calm { room ≤ self.old.spare → IsOk result × (self.new ≡ self.old) }
    {
        if room <= self.spare {
            return Ok(());
        }
        let taken = 4 * self.heads.len() as u64 + self.slots.len() as u64;
        if room > MOST_WORDS - taken {
            return Err(AllocError);
        }
        make_room(&mut self.heads, &mut self.slots, (taken + room) as usize)?;
        self.spare = room;
        Ok(())
    }
}

impl FrameStack for ListStack {
    ghost frames = { λ s. s.frames };

    ghost spare = { λ s. s.spare };

    fn reserve(&mut self, room: u64) -> Result<(), AllocError> {
        self.grow(room)
    }

    fn push_frame(&mut self, function: u32, slots: u32) -> Result<(), AllocError> {
        let words = slots as u64 + 4;
        self.grow(words)?;
        let head = FrameInfo {
            function,
            pc: 0,
            slots,
        };
        put(&mut self.heads, &mut self.slots, head);
        self.spare -= words;
        Ok(())
    }

    fn pop_frame(&mut self) {
        let head = last(self.heads.as_slice());
        let base = self.slots.len() - head.slots as usize;
        self.heads.truncate(self.heads.len() - 1);
        self.slots.truncate(base);
        self.spare += head.slots as u64 + 4;
    }

    fn depth(&self) -> u32 {
        self.heads.len() as u32
    }

    fn top(&self) -> FrameInfo {
        last(self.heads.as_slice())
    }

    fn slots(&self) -> &[i32] {
        let head = last(self.heads.as_slice());
        let base = self.slots.len() - head.slots as usize;
        &self.slots.as_slice()[base..]
    }

    fn slot(&self, k: u32) -> i32 {
        self.slots()[k as usize]
    }

    fn set_slot(&mut self, k: u32, value: i32) {
        let head = last(self.heads.as_slice());
        let base = self.slots.len() - head.slots as usize;
        self.slots[base + k as usize] = value;
    }

    fn set_pc(&mut self, pc: u32) {
        set_last(&mut self.heads, pc);
    }
}
