//! What one turn of the machine did.

use c_grammar::Mark;

/// What one turn of the machine did.
#[derive(Clone, Copy)]
pub enum Turn {
    /// The next token is the one to take, with this mark, or nothing is to come at the end.
    Reached(Mark),
    /// Nothing goes on with the next token.
    Refused,
    /// The symbol in front is gone or replaced.
    Changed,
}
