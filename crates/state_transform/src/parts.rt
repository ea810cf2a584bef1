//! The parts of a state that an update changes.

ghost use Rattle.std.specs.Prelude.{◌≡◌};
ghost use Rattle.state_transform.specs.Parts.{with_parts};

use c_tree::{Frame, Heap, Row, State};

/// The parts of a state that an update changes; the input that is left and the output stay.
pub struct Parts {
    /// The values of each new global: one of a scalar, its elements of an array.
    pub globals: Row<Row<i32>>,
    pub heap: Heap,
    /// The thread that holds each new mutex.
    pub mutexes: Row<Option<u32>>,
    /// The frames of each thread, innermost last. None where it has ended.
    pub threads: Row<Option<Row<Frame>>>,
}

impl Drop for Parts {
    fn drop(self) {
        let Parts {
            globals: _,
            heap: _,
            mutexes: _,
            threads: _,
        } = self;
    }
}

impl Parts {
    ghost use Rattle.state_transform.specs.Parts.{with_parts};

    /// Puts the parts into a state, and drops its old ones. It takes no memory.
    pub fn put_into(self, state: &mut State)
        ensures { state.new ≡ with_parts self state.old }
    {
        let Parts {
            globals,
            heap,
            mutexes,
            threads,
        } = self;
        state.globals = globals;
        state.heap = heap;
        state.mutexes = mutexes;
        state.threads = threads;
    }
}
