//! The turns of a thread.

ghost use Rattle.std.specs.Prelude.{◌≤◌};
ghost use Rattle.target_laws.specs.Rows.{IsThreadOf};
ghost use Rattle.thread_turns.specs.Turns.{IsRow};

use crate::thread::Thread;
use std::alloc::Global;
use store_mem::Store;
use target_code::{Code, FrameStack};
use thread_turns::{Kept, Stop, row};

impl<S: FrameStack> Thread<S> {
    /// Makes turns of a running thread, at most so many, with these words for operands: how many
    /// were made, and why no more.
    ///
    /// It ends before a Step that may change what other threads can do, unless that is its first
    /// one, and always before a Step that makes a thread; with the flag set it ends at an update
    /// place. Where it ends within a Step, thread and store are as at that Step's mark; a trap and
    /// an end are counted.
    pub fn turns(
        &mut self,
        alloc: Global,
        code: &Code,
        number: u32,
        flag: bool,
        most: u64,
        store: &mut Store,
        words: &mut [i32],
    ) -> (u64, Stop)
        requires some { 1 ≤ most }
        requires thread { IsThreadOf code.now number self.old store.old }
        ensures row { IsRow code.now number result.1 self.old store.old result.0 self.new
            store.new }
        ensures steps { result.0 ≤ most }
    {
        let mut kept = Kept {
            returned: self.returned,
            count: self.count,
            steps: 0,
        };
        let stop = row(
            alloc,
            code,
            number,
            flag,
            most,
            &mut self.stack,
            store,
            words,
            &mut kept,
        );
        self.returned = kept.returned;
        self.count = kept.count;
        (kept.steps, stop)
    }
}
