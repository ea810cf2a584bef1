//! A segment: 4,096 words behind one pointer. All raw pointers of the stack stand in this file.

ghost use Rattle.std.specs.Prelude.{◌≡◌};

use std::alloc::{AllocError, Allocator, Global};
use std::marker::{Model, Send};

/// It owns the block at `at`, in which `value` lies.
pub(crate) struct Block<T, A: Allocator> {
    at: *mut T,
    alloc: A,
    ghost value: { T },
}

impl<T, A: Allocator> Model for Block<T, A> {
    ghost use denote.Struct.Lending.{lent_at};
    ghost use Rattle.std_alloc.specs.Box.Ownership.{box_owns};

    ghost also_owns = { λ b. box_owns (A.dealloc_token b.alloc) T.row b.at b.value };

    ghost also_shares = { λ b _ κ. lent_at T.row b.at b.value κ };
}

impl<T: Drop, A: Allocator> Drop for Block<T, A> {
    fn drop(self) {
        drop(self.into_box());
    }
}

unsafe impl<T: Send, A: Allocator + Send> Send for Block<T, A> {}

impl<T: Drop, A: Allocator> Block<T, A> {
    fn of(value: Box<T, A>) -> Block<T, A>
        ensures { result.value ≡ value.value }
    {
        let (at, alloc) = Box::into_raw_with_allocator(value);
        Block { at, alloc }
    }

    fn into_box(self) -> Box<T, A>
        ensures { result.value ≡ self.value }
    {
        let Block { at, alloc } = self;
        unsafe { Box::from_raw(alloc, at) }
    }
}

impl<T, A: Allocator> Block<T, A> {
    ghost use Rattle.std.specs.Prelude.{◌≡◌};
    ghost use types.Logic.{sem};
    ghost use Rattle.seg_stack.specs.Block.{block_follows};

    fn read(&self) -> &T
        ensures { result.now ≡ self.now.value }
    {
        unsafe { &*self.at }
    }

    fn write(&mut self) -> &mut T
        ensures* writes_back { sem 𝓛 (block_follows T.row A.row A.Allocator self.entry result) }
        ensures value { result.now ≡ self.old.value }
    {
        unsafe {
            let at = self.at;
            &mut *at
        }
    }
}

/// 4,096 words.
#[derive(Drop)]
pub(crate) struct Segment {
    words: Block<[i32; 4096], Global>,
}

impl Model for Segment {
    ghost use Rattle.std.specs.Prelude.{◌≡◌, ℤ, List, length};

    ghost Value = { List ℤ };

    ghost view = { λ s. s.words.value };

    ghost invariant = { λ s. length s.words.value ≡ 4096 };
}

impl Segment {
    ghost use Rattle.std.specs.Prelude.{◌≡◌, ◌+◌, ◌<◌, ◌≤◌, ◌++◌, length, take, drop, replicate, slice_set, slice_index_or, pos};
    ghost use Rattle.seg_stack.specs.Layout.{word_at, act_at, size_at, below_at, with_head};
    ghost use Rattle.target_code.specs.Stack.{blank};

    /// A new segment.
    ///
    /// # Errors
    /// Want of memory.
    pub(crate) fn new(alloc: Global) -> Result<Segment, AllocError> {
        let words = Box::new(alloc, [0; 4096])?;
        Ok(Segment {
            words: Block::of(words),
        })
    }

    /// Its words.
    #[inline]
    pub(crate) fn words(&self) -> &[i32]
        ensures words { result.now ≡ self.now }
        ensures len { length result.now ≡ 4096 }
    {
        self.words.read()
    }

    /// The word at a place, as a number without a sign.
    #[inline]
    pub(crate) fn word(&self, at: usize) -> u32
        requires { at < 4096 }
        ensures { result ≡ word_at self.now at }
    {
        self.words()[at].cast_unsigned()
    }

    /// Puts a word at a place.
    #[inline]
    pub(crate) fn set(&mut self, at: usize, word: i32)
        requires { at < 4096 }
        ensures words { self.new ≡ slice_set self.old at word }
        ensures held { slice_index_or self.new at (pos 0) ≡ word }
    {
        self.words.write()[at] = word;
    }

    /// Puts zeros at a place and behind it.
    #[inline]
    fn clear(&mut self, at: usize, count: usize)
        requires { at + count ≤ 4096 }
        ensures { self.new
            ≡ take at self.old ++ (replicate count (pos 0) ++ drop (at + count) self.old) }
    {
        self.words.write()[at..at + count].fill(0);
    }

    /// Puts the head of an activation without slots at a place.
    #[inline]
    fn put_head(&mut self, at: usize, function: u32, slots: u32, below: u32)
        requires { at + 4 ≤ 4096 }
        ensures { self.new ≡ with_head self.old at function slots below }
    {
        self.set(at, function.cast_signed());
        self.set(at + 1, 0);
        self.set(at + 2, slots.cast_signed());
        self.set(at + 3, below.cast_signed());
    }

    /// Puts an activation at a place, with zeros in its slots.
    #[inline]
    pub(crate) fn begin(&mut self, at: usize, function: u32, slots: u32, below: u32)
        requires { at + (slots + 4) ≤ 4096 }
        ensures act { act_at self.new at ≡ blank function slots }
        ensures size { size_at self.new at ≡ slots }
        ensures below { below_at self.new at ≡ below }
        ensures before { take at self.new ≡ take at self.old }
    {
        let _ = &self.words;
        self.put_head(at, function, slots, below);
        self.clear(at + 4, slots as usize);
    }
}
