//! The instructions that make objects, read and print. They take memory.

ghost use Rattle.std.specs.Prelude.{◌≡◌, List, length};
ghost use Rattle.target_code.specs.Machine.{Setting};
ghost use Rattle.target_code.specs.declared.activation.Activation.{Activation};
ghost use Rattle.target_code.specs.declared.instr.Instr.TheVariants as instr;
ghost use Rattle.thread_turns.specs.Now.{Alters, IsAt};

use crate::cursor::{Cursor, Did, Stop};
use crate::operands::{drop_top, push};
use crate::texts::{available, directives, last, text_of};
use std::alloc::Global;
use store_mem::{Store, StoreEnd, printed};
use target_code::Code;

/// A new object, whose number is pushed.
pub fn new(owner: u32, store: &mut Store, at: &mut Cursor, words: &mut [i32]) -> Did
    requires at { IsAt at.old words.old }
    ensures alters { (w : Setting) (frames : List Activation) → Alters w (instr.New owner) result
        at.old words.old frames store.old at.new words.new frames store.new }
    ensures same { length words.new ≡ length words.old }
{
    if at.depth == words.len() {
        return Did::Ends(Stop::Full);
    }
    match store.new_object(owner) {
        Ok(number) => {
            push(at, words, number);
            Did::Goes
        }
        Err(StoreEnd::Trap(cause)) => Did::Ends(Stop::Trapped(cause)),
        Err(StoreEnd::Memory(_)) => Did::Ends(Stop::Memory),
    }
}

/// The next byte of the input is pushed, or -1.
pub fn get_byte(store: &mut Store, at: &mut Cursor, words: &mut [i32]) -> Did
    requires at { IsAt at.old words.old }
    ensures alters { (w : Setting) (frames : List Activation) → Alters w instr.Getc result
        at.old words.old frames store.old at.new words.new frames store.new }
    ensures same { length words.new ≡ length words.old }
{
    if at.depth == words.len() {
        return Did::Ends(Stop::Full);
    }
    let byte = store.get_byte();
    push(at, words, byte);
    Did::Goes
}

/// A text is printed with the operands that it asks for.
pub fn print(
    alloc: Global,
    text: u32,
    code: &Code,
    store: &mut Store,
    at: &mut Cursor,
    words: &[i32],
) -> Did
    requires at { IsAt at.old words.now }
    ensures { (w : Setting) (frames : List Activation) → w.code ≡ code.now → Alters w
        (instr.Print text) result at.old words.now frames store.old at.new words.now frames
        store.new }
{
    let text = text_of(code, text);
    let count = available(directives(text), words, at.depth);
    let Ok(bytes) = printed(alloc, text, last(words, at.depth, count)) else {
        return Did::Ends(Stop::Memory);
    };
    match store.put_text(bytes.as_slice()) {
        Ok(()) => {
            drop_top(at, words, count);
            Did::Goes
        }
        Err(StoreEnd::Trap(cause)) => Did::Ends(Stop::Trapped(cause)),
        Err(StoreEnd::Memory(_)) => Did::Ends(Stop::Memory),
    }
}
