//! Which threads there are.

ghost use Rattle.std.specs.Prelude.{◌≡◌};
ghost use Rattle.store_mem.specs.Access as access;
ghost use Rattle.store_mem.specs.Answer.{Spawns};

use super::Store;
use crate::marks;
use crate::refusal::StoreEnd;
use c_tree::{Row, ThreadMark, Trap};

impl Store {
    /// The mark of thread t at t.
    pub fn threads(&self) -> &Row<ThreadMark>
        ensures { result.now ≡ self.now.marks }
    {
        &self.marks
    }

    /// Makes a thread that is to begin in a function with an argument, and gives its number: how
    /// many were made before. It traps with `Threads` where 64 threads are live, those still to
    /// begin among them, or 1,000 were made.
    pub fn spawn(&mut self, function: u32, argument: i32) -> Result<i32, StoreEnd>
        ensures { Spawns result self.old self.new
            (access.spawned self.old.marks function argument) }
    {
        let number = self.marks.len();
        if !marks::has_room(self.marks.as_slice()) {
            return Err(StoreEnd::Trap(Trap::Threads));
        }
        self.marks.push(ThreadMark::Fresh(function, argument))?;
        Ok(number as i32)
    }

    /// A thread is live from now on. Nothing changes where it was never made.
    pub fn begin(&mut self, t: u32)
        ensures { self.new ≡ record self.old { marks = access.begun self.old.marks t } }
    {
        marks::set(&mut self.marks, t, ThreadMark::Live);
    }

    /// A thread has ended; its number stays taken. Nothing changes where it was never made.
    pub fn end(&mut self, t: u32)
        ensures { self.new ≡ record self.old { marks = access.ended self.old.marks t } }
    {
        marks::set(&mut self.marks, t, ThreadMark::Ended);
    }

    /// Drops the thread that was made last, where it is still to begin: for a step that traps
    /// behind its `spawn`.
    pub fn forget(&mut self)
        ensures { self.new ≡ record self.old { marks = access.forgotten self.old.marks } }
    {
        marks::forget(&mut self.marks);
    }
}
