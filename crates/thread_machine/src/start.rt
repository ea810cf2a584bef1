//! The start of a thread.

ghost use Rattle.std.specs.Prelude.{◌≡◌, ◌≤◌, ◌<◌, [], length, IsOk, IfOk};
ghost use Rattle.target_code.specs.Code.{IsCode};
ghost use Rattle.target_code.specs.Machine.{function_in, begins};
ghost use Rattle.target_code.specs.Stack.{words};
ghost use Rattle.target_code.specs.Target.{top_of};
ghost use Rattle.thread_machine.specs.Started.{with_argument};

use crate::part::params_of;
use crate::thread::Thread;
use c_tree::Row;
use std::alloc::{AllocError, Global};
use target_code::{Code, FrameStack, Mode};

/// How many slots a function has; none where no function has the number.
fn slots_of(code: &Code, function: u32) -> u32
    ensures { result ≡ (function_in code.now function).slots }
{
    match code.functions().as_slice().get(function as usize) {
        Some(function) => function.slots,
        None => 0,
    }
}

/// Puts the argument into the first slot, where there is a parameter.
fn pass<S: FrameStack>(stack: &mut S, params: u32, argument: i32)
    requires live { 0 < length (S.frames stack.old) }
    requires fits { params ≤ length (top_of (S.frames stack.old)).slots }
    ensures { S.frames stack.new ≡ with_argument params argument (S.frames stack.old) }
{
    if params > 0 {
        stack.set_slot(0, argument);
    }
}

impl<S: FrameStack> Thread<S> {
    /// A thread that starts a function, with an activation in an empty stack. The argument goes to
    /// the parameter, where there is one.
    ///
    /// # Errors
    /// Want of memory, only where the stack has no room.
    pub fn start(
        alloc: Global,
        code: &Code,
        function: u32,
        argument: i32,
        stack: S,
    ) -> Result<Thread<S>, AllocError>
        requires code { IsCode code.now }
        requires few { (function_in code.now function).params ≤ 1 }
        requires empty { S.frames stack ≡ [] }
        ensures ok { IfOk result (λ t. t ≡ begins code.now function argument) }
        ensures room { words (function_in code.now function).slots ≤ S.spare stack → IsOk result }
    {
        let mut stack = stack;
        stack.push_frame(function, slots_of(code, function))?;
        pass(&mut stack, params_of(code, function), argument);
        stack.set_pc(1);
        Ok(Thread {
            stack,
            mode: Mode::Running,
            returned: 0,
            saved: Row::from_vec(Vec::new(alloc)),
            count: 0,
        })
    }
}
