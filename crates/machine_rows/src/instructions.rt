//! Instructions as text: a word, and what stands behind it.

use std::alloc::AllocError;
use target_code::Instr;

/// An instruction's word, and up to two numbers behind it.
#[derive(Clone, Copy)]
struct Wording {
    word: &'static str,
    first: Option<i64>,
    second: Option<i64>,
}

fn alone(word: &'static str) -> Wording {
    Wording {
        word,
        first: None,
        second: None,
    }
}

fn with(word: &'static str, first: u32) -> Wording {
    Wording {
        word,
        first: Some(first as i64),
        second: None,
    }
}

fn with_both(word: &'static str, first: u32, second: u32) -> Wording {
    Wording {
        word,
        first: Some(first as i64),
        second: Some(second as i64),
    }
}

/// The instruction, without its operator where it has one.
fn worded(instr: Instr) -> Wording {
    match instr {
        Instr::Mark(n) => with("mark", n),
        Instr::Flag(n) => with("flag", n),
        Instr::After(n, None) => with("after", n),
        Instr::After(n, Some(slot)) => with_both("after", n, slot),
        Instr::Restore => alone("restore"),
        Instr::Const(value) => Wording {
            word: "const",
            first: Some(value as i64),
            second: None,
        },
        Instr::Get(slot) => with("get", slot),
        Instr::Gget(global) => with("gget", global),
        Instr::Set(slot) => with("set", slot),
        Instr::Gset(global) => with("gset", global),
        Instr::Aget(array) => with("aget", array),
        Instr::Aset(array) => with("aset", array),
        Instr::Fget(owner, field) => with_both("fget", owner, field),
        Instr::Fset(owner, field) => with_both("fset", owner, field),
        Instr::Un(_) => alone("un"),
        Instr::Bin(_) => alone("bin"),
        Instr::Jump(to) => with("jump", to),
        Instr::Jz(to) => with("jz", to),
        Instr::Call(function) => with("call", function),
        Instr::Ret => alone("ret"),
        Instr::New(owner) => with("new", owner),
        Instr::Getc => alone("getc"),
        Instr::Free => alone("free"),
        Instr::Print(number) => with("print", number),
        Instr::Lock(mutex) => with("lock", mutex),
        Instr::Unlock(mutex) => with("unlock", mutex),
        Instr::Join => alone("join"),
        Instr::Spawn(function) => with("spawn", function),
    }
}

/// The operator of an instruction; nothing where it has none.
fn operator(instr: Instr) -> &'static [u8] {
    match instr {
        Instr::Un(op) => op.text(),
        Instr::Bin(op) => op.text(),
        _ => b"",
    }
}

/// Adds an instruction, behind a space.
///
/// # Errors
/// Memory for the longer text.
pub fn put_instr(text: &mut String, instr: Instr) -> Result<(), AllocError> {
    let wording = worded(instr);
    let word = wording.word;
    write!(text, " {word}")?;
    if let Some(first) = wording.first {
        write!(text, " {first}")?;
    }
    if let Some(second) = wording.second {
        write!(text, " {second}")?;
    }
    let operator = std::str::from_utf8(operator(instr)).unwrap_or("no text");
    if operator.is_empty() {
        return Ok(());
    }
    write!(text, " {operator}")
}
