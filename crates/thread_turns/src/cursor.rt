//! Where a thread is in the midst of a turn, and what becomes of an instruction.

use c_tree::Trap;

/// Where a thread is in the midst of a turn, beside its stack and its operands.
#[derive(Drop)]
pub struct Cursor {
    /// The position of the innermost activation's next instruction.
    pub pc: usize,
    /// How many operands there are.
    pub depth: usize,
    /// The value that was returned last.
    pub returned: i32,
    /// How many instructions the thread ran.
    pub count: u64,
}

/// What a thread keeps between two turns, beside its stack, and how many turns it made.
#[derive(Drop)]
pub struct Kept {
    /// The value that was returned last.
    pub returned: i32,
    /// How many instructions the thread ran.
    pub count: u64,
    /// How many turns were made.
    pub steps: u64,
}

/// What became of an instruction.
#[derive(Clone, Copy)]
pub enum Did {
    /// The turn goes on with the same activation.
    Goes,
    /// The turn goes on with another activation.
    Moves,
    /// The turn ends, and nothing was changed but operands and the position.
    Ends(Stop),
}

/// Why a row of turns ends.
#[derive(Clone, Copy)]
pub enum Stop {
    /// As many Steps were made as were asked for, or the next one may change what other threads
    /// can do.
    Made,
    /// The next Step makes a thread.
    Spawning,
    /// The thread stands at an update place.
    Standing,
    /// The thread has to wait for another one.
    Blocked,
    /// The program's end by a trap.
    Trapped(Trap),
    /// The thread's end.
    Ended,
    /// The program's end with a status.
    Finished(u32),
    /// There are more operands than words.
    Full,
    /// There is no memory for a frame, an object, a thread or the output.
    Memory,
}
