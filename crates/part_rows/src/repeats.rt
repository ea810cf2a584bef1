//! Long texts: a piece that stands often before and another one behind the middle.

use std::alloc::{AllocError, Global};

/// What stands first, a piece, what stands behind the pieces, and another piece as often.
#[derive(Clone, Copy)]
pub struct Repeat<'a> {
    pub head: &'a str,
    pub before: &'a str,
    pub middle: &'a str,
    pub after: &'a str,
    pub count: u32,
}

/// The text itself.
///
/// # Errors
/// Memory for it.
pub fn repeated(alloc: Global, repeat: &Repeat<'_>) -> Result<String, AllocError> {
    let mut text = String::from_str(alloc, repeat.head)?;
    for _ in 0..repeat.count {
        text.push_str(repeat.before)?;
    }
    text.push_str(repeat.middle)?;
    for _ in 0..repeat.count {
        text.push_str(repeat.after)?;
    }
    Ok(text)
}
