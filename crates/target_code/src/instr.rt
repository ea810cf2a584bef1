//! The instructions of the target machine.

use c_tree::{BinOp, UnOp};

/// An instruction. Positions are those of the function's own code; slots are those of the innermost
/// activation; "then" is what comes behind what is popped and pushed.
#[derive(Clone, Copy)]
pub enum Instr {
    // Marks: where a thread stands, and where frames are saved and loaded.
    /// Pops and pushes nothing. The activation is at this place; a turn stops before it.
    Mark(u32),
    /// Pops and pushes nothing. Where the flag is set: the frame is saved at this place, the
    /// activation is dropped, and the thread unwinds.
    Flag(u32),
    /// Pops and pushes nothing. While the thread unwinds: the frame is saved at this call's place
    /// and the activation is dropped; else the returned value goes to the slot, if there is one.
    After(u32, Option<u32>),
    /// Pops and pushes nothing. While the thread rebuilds: takes the outermost frame that isn't
    /// taken yet, loads its slots, and goes to its call's rebuilding part; with the last frame to
    /// its mark, and the thread runs.
    Restore,

    // Operands.
    /// Pushes the number.
    Const(i32),
    /// Pushes the slot's value.
    Get(u32),
    /// Pushes the global's value.
    Gget(u32),
    /// Pops a value, then stores it in the slot.
    Set(u32),
    /// Pops a value, then stores it in the global.
    Gset(u32),
    /// Pops an index, pushes that element of the array.
    Aget(u32),
    /// Pops a value and an index, then stores the value in that element of the array.
    Aset(u32),
    /// Pops an object, pushes a field of it: the struct, and the field.
    Fget(u32, u32),
    /// Pops a value and an object, then stores the value in a field: the struct, and the field.
    Fset(u32, u32),
    /// Pops a value, pushes the operator's result.
    Un(UnOp),
    /// Pops the right value and the left one, pushes the operator's result. Never `&&` or `||`.
    Bin(BinOp),

    // Control.
    /// Pops and pushes nothing, then goes to the position.
    Jump(u32),
    /// Pops a value, then goes to the position where it is 0.
    Jz(u32),
    /// Pops the function's arguments, then pushes an activation of it at its `restore`.
    Call(u32),
    /// Pops a value, which is the returned one, then drops the activation.
    Ret,

    // What the threads share.
    /// Pushes the number of a new object of the struct.
    New(u32),
    /// Pushes the next byte of the input, or -1 at its end.
    Getc,
    /// Pops an object, then frees it.
    Free,
    /// Pops the arguments of the text, then prints it.
    Print(u32),
    /// Pops and pushes nothing, then the thread takes the mutex, or waits.
    Lock(u32),
    /// Pops and pushes nothing, then the thread gives the mutex back.
    Unlock(u32),
    /// Pops a thread's number, then waits for its end.
    Join,
    /// Pops an argument, pushes the number of a new thread that starts the function with it.
    Spawn(u32),
}
