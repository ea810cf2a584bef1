//! What a C source is made of: tokens and directives.

use c_tree::{At, Define, ReadCause, Row, TokenKind};

/// A token or a directive, by the offset of its first byte and the number of its bytes: at most
/// 1048576 together.
///
/// A directive begins at its `#` and goes up to its last token.
#[derive(Drop)]
pub struct Lexeme {
    pub kind: LexemeKind,
    pub at: u32,
    pub len: u32,
}

/// What a lexeme is.
#[derive(Drop)]
pub enum LexemeKind {
    /// A token (ISO C11, 6.4).
    Token(TokenKind),
    /// An include of a header (ISO C11, 6.10.2), which says nothing more.
    Include,
    /// A define of a number (ISO C11, 6.10.3).
    Define(Define),
    /// The front of an include or a define, up to the fault on its line. It is the last lexeme.
    Begun,
}

/// The lexemes before the first fault, and that fault.
#[derive(Drop)]
pub struct Scan {
    pub lexemes: Row<Lexeme>,
    pub fault: Option<At<ReadCause>>,
}
