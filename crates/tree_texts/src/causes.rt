//! Faults of texts, in words.

use c_tree::{ReadCause, Text};
use std::alloc::{AllocError, Global};

/// A name or another text of a tree.
pub fn word(text: &Text) -> &str {
    std::str::from_utf8(text.as_bytes()).unwrap_or("no text")
}

fn cause_word(cause: &ReadCause) -> &'static str {
    match cause {
        ReadCause::BadByte => "bad byte",
        ReadCause::BadToken => "bad token",
        ReadCause::Unclosed => "unclosed",
        ReadCause::Unexpected => "unexpected",
        ReadCause::LeftOut(_) => "left out ",
        ReadCause::TooDeep => "too deep",
        ReadCause::TooLong => "too long",
        ReadCause::Literal => "literal",
    }
}

fn left_out(cause: &ReadCause) -> &str {
    match cause {
        ReadCause::LeftOut(text) => word(text),
        _ => "",
    }
}

/// A fault: its offset and its cause.
///
/// # Errors
/// Memory for the text.
pub fn fault(alloc: Global, at: u32, cause: &ReadCause) -> Result<String, AllocError> {
    let (what, which) = (cause_word(cause), left_out(cause));
    format!(in alloc; "{at}: {what}{which}")
}
