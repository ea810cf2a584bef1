//! What the grammar sees of a token.

ghost use Rattle.std.specs.Prelude.{◌≡◌, IfOk, map};
ghost use Rattle.c_grammar.specs.Tokens as spec;

use crate::kind::Kind;
use crate::words::{map_words, signs, words};
use c_tree::{Name, Text, Token, TokenKind};
use std::alloc::{AllocError, Global};

/// The kind of the word in the list, or of a name.
fn kind_in(words: &[(&[u8], Kind)], word: &[u8]) -> Kind
    ensures { let entries = map (λ w. record { text = w.0.now; kind = w.1 }) words.now
        in result ≡ spec.kind_in entries word.now }
{
    for entry in words {
        if entry.0 == word {
            return entry.1;
        }
    }
    Kind::Name
}

/// The kind of a word in a source: one of the language's words, or a name.
#[tactic(auto, unfolding(crate::specs::Tokens::word_kind))]
fn word_kind(word: &Name) -> Kind
    ensures { result ≡ spec.word_kind word.now }
{
    kind_in(words(), word.as_bytes())
}

/// The kind of a word in a mapping.
#[tactic(auto, unfolding(crate::specs::Tokens::map_word_kind))]
fn map_word_kind(word: &Name) -> Kind
    ensures { result ≡ spec.map_word_kind word.now }
{
    match kind_in(map_words(), word.as_bytes()) {
        Kind::Name => word_kind(word),
        kind => kind,
    }
}

/// The kind of a sign by its number, 0 to 44.
fn sign_kind(place: u8) -> Kind
    ensures { result ≡ spec.sign_kind place }
{
    match signs().get(place as usize) {
        Some(kind) => *kind,
        None => Kind::Other,
    }
}

/// What the token is to the grammar.
pub fn kind_of(token: &TokenKind) -> Kind
    ensures { result ≡ spec.kind_of token.now }
{
    match token {
        TokenKind::Word(word) => word_kind(word),
        TokenKind::Number(_) => Kind::Number,
        TokenKind::Char(_) => Kind::Char,
        TokenKind::Str(_) => Kind::String,
        TokenKind::Punct(place) => sign_kind(*place),
    }
}

/// What the token is in a mapping, where more words have a meaning.
pub fn map_kind_of(token: &TokenKind) -> Kind
    ensures { result ≡ spec.map_kind_of token.now }
{
    match token {
        TokenKind::Word(word) => map_word_kind(word),
        TokenKind::Number(_) | TokenKind::Char(_) | TokenKind::Str(_) | TokenKind::Punct(_) => {
            kind_of(token)
        }
    }
}

/// An equal kind of token, with the same word, number or text.
pub fn copy_kind(token: &TokenKind) -> Result<TokenKind, AllocError>
    ensures { IfOk result (λ t. t ≡ token.now) }
{
    Ok(match token {
        TokenKind::Word(word) => TokenKind::Word(word.clone()?),
        TokenKind::Number(number) => TokenKind::Number(*number),
        TokenKind::Char(code) => TokenKind::Char(*code),
        TokenKind::Str(text) => TokenKind::Str(text.clone()?),
        TokenKind::Punct(place) => TokenKind::Punct(*place),
    })
}

/// An equal token.
pub fn copy_token(token: &Token) -> Result<Token, AllocError>
    ensures { IfOk result (λ t. t ≡ token.now) }
{
    Ok(Token {
        kind: copy_kind(&token.kind)?,
        at: token.at,
        len: token.len,
    })
}

/// The token's word, or the text of its string literal; without bytes where it has none.
pub fn text_of(alloc: Global, token: TokenKind) -> Text
    ensures { result ≡ spec.text_of token }
{
    match token {
        TokenKind::Word(word) => word,
        TokenKind::Str(text) => text,
        TokenKind::Number(_) | TokenKind::Char(_) | TokenKind::Punct(_) => Text::from_vec(Vec::new(
            alloc,
        )),
    }
}

/// The token's number, or the code of its character constant; 0 where it has none.
pub fn number_of(token: &TokenKind) -> i32
    ensures { result ≡ spec.number_of token.now }
{
    match token {
        TokenKind::Number(number) => *number,
        TokenKind::Char(code) => *code,
        TokenKind::Word(_) | TokenKind::Str(_) | TokenKind::Punct(_) => 0,
    }
}

/// The number, or 0 where it is below 0.
pub fn natural(number: i32) -> u32
    ensures { result ≡ spec.natural number }
{
    if number < 0 { 0 } else { number as u32 }
}
