//! The stack in segments.

ghost use Rattle.std.specs.Prelude.{◌≡◌, ◌≤◌, ◌<◌, ◌+◌, ◌*◌, ◌∷◌, [], length, take, slice_set, IsOk, OnOk, OnErr, vec_len};
ghost use Rattle.seg_stack.specs.Layout.{IsBegun};

use crate::place::{Place, inside, outside};
use crate::segment::Segment;
use std::alloc::{AllocError, Global};
use std::marker::Model;
use target_code::{FrameInfo, FrameStack};

/// The most segments that a stack has, so that its activations are counted in 32 bits.
const MOST_SEGMENTS: usize = 4333973;

/// How many words a segment counts for: an activation that doesn't fit into the rest of a segment
/// leaves at most 131 words behind.
const COUNTED_WORDS: u64 = 3964;

/// A stack in segments. An activation lies in one segment and never moves. The segments that were
/// left stay, to be used again.
pub struct SegStack {
    segments: Vec<Segment>,
    place: Place,
    depth: u32,
    spare: u64,
    alloc: Global,
}

impl Drop for SegStack {
    fn drop(self) {
        let SegStack {
            segments: _,
            place: _,
            depth: _,
            spare: _,
            alloc: _,
        } = self;
    }
}

impl Model for SegStack {
    ghost use Rattle.target_code.specs.Stack.{Stack};
    ghost use Rattle.seg_stack.specs.Layout.{frames_in, IsStack};

    ghost Value = { Stack };

    ghost view = { λ s. record {
      frames = frames_in s.segments.items s.place.segment s.place.base s.depth;
      spare = s.spare;
    } };

    // The activations follow one another in the segments, which have room for what is to spare.
    ghost invariant = { λ s.
        IsStack s.segments.items s.place.segment s.place.base s.place.end s.depth s.spare };
}

/// Begins an activation at a place.
#[inline]
fn put(segments: &mut Vec<Segment>, place: Place, function: u32, slots: u32, below: u32)
    requires there { place.segment < vec_len segments.old }
    requires room { place.base + (slots + 4) ≤ 4096 }
    ensures begun { IsBegun segments.old.items segments.new.items place.segment place.base
        function slots below }
{
    segments[place.segment].begin(place.base, function, slots, below);
}

impl SegStack {
    /// A stack without activations and without room.
    pub fn new(alloc: Global) -> SegStack
        ensures { result ≡ record { frames = []; spare = 0 } }
    {
        SegStack {
            segments: Vec::new(alloc),
            place: Place {
                segment: 0,
                base: 0,
                end: 0,
            },
            depth: 0,
            spare: 0,
            alloc,
        }
    }

    /// Adds a segment.
    fn grow(&mut self) -> Result<(), AllocError>
        ensures frames { self.new.frames ≡ self.old.frames }
        ensures ok { OnOk result (self.new.spare ≡ self.old.spare + 3964) }
        ensures err { OnErr result (self.new ≡ self.old) }
    {
        if self.segments.len() >= MOST_SEGMENTS {
            return Err(AllocError);
        }
        self.segments.push(Segment::new(self.alloc)?)?;
        self.spare += COUNTED_WORDS;
        Ok(())
    }

    /// Makes room for so many words, where it isn't there.
    #[inline]
    fn make_room(&mut self, words: u64) -> Result<(), AllocError>
        requires few { words ≤ 3964 }
        ensures frames { self.new.frames ≡ self.old.frames }
        ensures ok { OnOk result (words ≤ self.new.spare) }
        ensures err { OnErr result (self.new ≡ self.old) }
        ensures calm { words ≤ self.old.spare → IsOk result × (self.new ≡ self.old) }
    {
        if words <= self.spare {
            return Ok(());
        }
        self.grow()
    }
}

impl FrameStack for SegStack {
    ghost frames = { λ s. s.frames };

    ghost spare = { λ s. s.spare };

    fn reserve(&mut self, room: u64) -> Result<(), AllocError> {
        while self.spare < room {
            self.grow()?;
        }
        Ok(())
    }

    #[inline]
    fn push_frame(&mut self, function: u32, slots: u32) -> Result<(), AllocError> {
        let words = slots as usize + 4;
        self.make_room(words as u64)?;
        let below = self.place.base as u32;
        self.place = inside(self.place, words);
        put(&mut self.segments, self.place, function, slots, below);
        self.depth += 1;
        self.spare -= words as u64;
        Ok(())
    }

    #[inline]
    fn pop_frame(&mut self) {
        self.spare += (self.place.end - self.place.base) as u64;
        self.depth -= 1;
        self.place = outside(self.segments.as_slice(), self.place, self.depth);
    }

    #[inline]
    fn depth(&self) -> u32 {
        self.depth
    }

    #[inline]
    fn top(&self) -> FrameInfo {
        let segment = &self.segments[self.place.segment];
        FrameInfo {
            function: segment.word(self.place.base),
            pc: segment.word(self.place.base + 1),
            slots: (self.place.end - self.place.base - 4) as u32,
        }
    }

    #[inline]
    fn slots(&self) -> &[i32] {
        &self.segments[self.place.segment].words()[self.place.base + 4..self.place.end]
    }

    #[inline]
    fn slot(&self, k: u32) -> i32 {
        self.slots()[k as usize]
    }

    #[inline]
    fn set_slot(&mut self, k: u32, value: i32) {
        self.segments[self.place.segment].set(self.place.base + 4 + k as usize, value);
    }

    #[inline]
    fn set_pc(&mut self, pc: u32) {
        self.segments[self.place.segment].set(self.place.base + 1, pc.cast_signed());
    }
}
