//! Long texts, told as a piece and how often it stands there.

use std::alloc::{AllocError, Global};

/// A text with a piece that stands so often in its middle, with its number, counted from 0, between
/// the two halves of the piece if it is numbered.
#[derive(Clone, Copy)]
pub struct Repeated<'a> {
    pub before: &'a str,
    pub piece: &'a str,
    pub count: u32,
    pub is_numbered: bool,
    pub behind: &'a str,
    pub after: &'a str,
}

/// The text itself.
///
/// # Errors
/// Memory for it.
pub fn text_of(alloc: Global, text: &Repeated<'_>) -> Result<String, AllocError> {
    let mut whole = String::from_str(alloc, text.before)?;
    for i in 0..text.count {
        whole.push_str(text.piece)?;
        if text.is_numbered {
            write!(whole, "{i}")?;
        }
        whole.push_str(text.behind)?;
    }
    whole.push_str(text.after)?;
    Ok(whole)
}
