//! The instructions by which threads wait for one another.

ghost use Rattle.std.specs.Prelude.{◌≡◌, ◌≤◌, List, length};
ghost use Rattle.store_mem.specs.Access as access;
ghost use Rattle.target_code.specs.Machine.{Setting};
ghost use Rattle.target_code.specs.declared.activation.Activation.{Activation};
ghost use Rattle.target_code.specs.declared.instr.Instr.TheVariants as instr;
ghost use Rattle.thread_turns.specs.Now.{Alters, IsAt};

use crate::cursor::{Cursor, Did, Stop};
use crate::operands::{drop_top, top};
use c_tree::{ThreadMark, Trap};
use store_mem::Store;

/// The thread takes a mutex, or waits for it.
pub fn lock(mutex: u32, number: u32, store: &mut Store, at: &mut Cursor, words: &[i32]) -> Did
    requires at { IsAt at.old words.now }
    ensures { (w : Setting) (frames : List Activation) → w.number ≡ number → Alters w
        (instr.Lock mutex) result at.old words.now frames store.old at.new words.now frames
        store.new }
{
    match store.lock(mutex, number) {
        Ok(true) => {
            drop_top(at, words, 0);
            Did::Goes
        }
        Ok(false) => Did::Ends(Stop::Blocked),
        Err(cause) => Did::Ends(Stop::Trapped(cause)),
    }
}

/// The thread gives a mutex back.
pub fn unlock(mutex: u32, number: u32, store: &mut Store, at: &mut Cursor, words: &[i32]) -> Did
    requires at { IsAt at.old words.now }
    ensures { (w : Setting) (frames : List Activation) → w.number ≡ number → Alters w
        (instr.Unlock mutex) result at.old words.now frames store.old at.new words.now frames
        store.new }
{
    match store.unlock(mutex, number) {
        Ok(()) => {
            drop_top(at, words, 0);
            Did::Goes
        }
        Err(cause) => Did::Ends(Stop::Trapped(cause)),
    }
}

fn is_live(mark: &ThreadMark) -> bool
    ensures { result ≡ access.is_live_mark mark.now }
{
    match mark {
        ThreadMark::Live => true,
        ThreadMark::Ended => false,
        ThreadMark::Fresh(_, _) => true,
    }
}

/// The thread of this number has ended, or the thread waits for it.
pub fn join(number: u32, store: &Store, at: &mut Cursor, words: &[i32]) -> Did
    requires at { IsAt at.old words.now }
    requires some { 1 ≤ at.old.depth }
    ensures { (w : Setting) (frames : List Activation) → w.number ≡ number → Alters w
        instr.Join result at.old words.now frames store.now at.new words.now frames store.now }
{
    let Ok(other) = u32::try_from(top(at, words)) else {
        return Did::Ends(Stop::Trapped(Trap::Join));
    };
    if other == number {
        return Did::Ends(Stop::Trapped(Trap::Join));
    }
    match store.threads().as_slice().get(other as usize) {
        None => Did::Ends(Stop::Trapped(Trap::Join)),
        Some(mark) => {
            if is_live(mark) {
                return Did::Ends(Stop::Blocked);
            }
            drop_top(at, words, 1);
            Did::Goes
        }
    }
}
