//! What a row came to, beside what is wanted of it.

use std::alloc::AllocError;

/// A text of a table without the newline that it may begin with.
pub fn opened(text: &str) -> &str {
    match text.strip_prefix('\n') {
        Some(rest) => rest,
        None => text,
    }
}

/// Adds a row that came to something else than is wanted: its name and both texts.
///
/// # Errors
/// Memory for the longer text.
pub fn compare(
    differing: &mut String,
    name: &str,
    wanted: &str,
    got: &str,
) -> Result<(), AllocError> {
    let wanted = opened(wanted);
    if wanted == got {
        return Ok(());
    }
    write!(
        differing,
        "\nrow {name}\n-- wanted\n{wanted}\n-- got\n{got}\n"
    )
}
