//! The texts that are printed.

ghost use Rattle.std.specs.Prelude.{◌≡◌, ◌≤◌, ◌-◌, [], drop, length, reverse, slice_index_or, take, unwrap_or};
ghost use Rattle.c_tree.specs.Typing as typing;
ghost use Rattle.thread_turns.specs.Now.{operands};

use target_code::Code;

/// The text of a number; none has no bytes.
pub fn text_of(code: &Code, text: u32) -> &[u8]
    ensures { result.now ≡ slice_index_or code.now.texts text [] }
{
    match code.texts().as_slice().get(text as usize) {
        Some(text) => text.as_bytes(),
        None => &[],
    }
}

/// How many `%d` a text has; 0 where it has another directive than `%d` and `%%`.
pub fn directives(text: &[u8]) -> usize
    ensures { result ≡ unwrap_or (typing.directives text.now) 0 }
{
    let mut count = 0usize;
    let mut is_open = false;
    for b in text {
        if is_open {
            match *b {
                b'd' => count += 1,
                b'%' => {}
                _ => return 0,
            }
            is_open = false;
        } else {
            is_open = *b == b'%';
        }
    }
    if is_open { 0 } else { count }
}

/// How many operands are taken where so many are asked for: all where there aren't as many.
#[inline(always)]
pub fn available(asked: usize, words: &[i32], depth: usize) -> usize
    requires { depth ≤ length words.now }
    ensures some { result ≤ depth }
    ensures few { result ≤ asked }
    ensures taken { take result (operands depth words.now)
        ≡ take asked (operands depth words.now) }
    ensures left { drop asked (operands depth words.now)
        ≡ operands (depth - result) words.now }
{
    if asked < depth { asked } else { depth }
}

/// The last operands of so many, the top one last.
pub fn last(words: &[i32], depth: usize, count: usize) -> &[i32]
    requires within { depth ≤ length words.now }
    requires some { count ≤ depth }
    ensures { result.now ≡ reverse (take count (operands depth words.now)) }
{
    &words[depth - count..depth]
}
