//! String literals and character constants (ISO C11, 6.4.5 and 6.4.4.4), from behind their opening
//! quote on.
ghost use Rattle.std.specs.Prelude.{◌≡◌, ◌≤◌, ◌<◌, true, false, length, IfOk, OnOk, IfSome, ◌++◌, option_map, option_to_list};
ghost use Rattle.c_tokens.specs.Quoted as text;

use c_tree::Text;
use std::alloc::{AllocError, Global};

/// A string literal or a character constant.
#[derive(Drop)]
pub enum Quoted {
    /// The line or the file ends before the closing quote.
    Open,
    /// A byte or an escape stands there that may not.
    Wrong,
    /// The text that it stands for, and the number of its bytes with both quotes.
    Closed(Text, usize),
}

/// Whether the byte begins an escape.
fn escapes(escaped: bool, b: u8) -> bool
    ensures { result ≡ text.escapes escaped b }
{
    b == b'\\' && !escaped
}

/// Whether the byte is the closing quote.
fn closes(quote: u8, escaped: bool, b: u8) -> bool
    ensures { result ≡ text.closes quote escaped b }
{
    b == quote && !escaped
}

/// How many bytes stand before the closing quote, which is on the same line.
fn up_to_quote(quote: u8, rest: &[u8]) -> Option<usize>
    ensures count { result ≡ text.up_to_quote quote false rest.now }
    ensures within { IfSome result (λ n. n < length rest.now) }
{
    let mut escaped = false;
    'bytes: for (i, b) in rest.iter().enumerate() {
        if *b == b'\n' {
            return None;
        }
        if closes(quote, escaped, *b) {
            return Some(i);
        }
        escaped = escapes(escaped, *b);
    }
    None
}

/// The byte that an escape stands for: `\n`, `\t`, `\\`, `\"` or `\'`.
fn escape(b: u8) -> Option<u8>
    ensures { result ≡ text.escape b }
{
    if b == b'n' {
        Some(b'\n')
    } else if b == b't' {
        Some(b'\t')
    } else if b == b'\\' || b == b'"' || b == b'\'' {
        Some(b)
    } else {
        None
    }
}

/// What a byte adds to the text, if it may stand there.
fn added(escaped: bool, b: u8) -> Option<Option<u8>>
    ensures { option_map (λ c. option_to_list c) result ≡ text.added escaped b }
{
    if escaped {
        match escape(b) {
            Some(c) => Some(Some(c)),
            None => None,
        }
    } else if b == b'\\' {
        Some(None)
    } else if 32 <= b && b <= 126 {
        Some(Some(b))
    } else {
        None
    }
}

/// Appends the byte, if there is one.
fn push_some(bytes: &mut Vec<u8>, more: Option<u8>) -> Result<(), AllocError>
    ensures { OnOk result (bytes.new.items ≡ bytes.old.items ++ option_to_list more) }
{
    if let Some(b) = more {
        bytes.push(b)?;
    }
    Ok(())
}

/// The text that the bytes between the quotes stand for, if each may stand there.
fn text_of(alloc: Global, body: &[u8]) -> Result<Option<Text>, AllocError>
    ensures { IfOk result (λ t. t ≡ text.text_of false body.now) }
{
    let mut bytes = Vec::new(alloc);
    let mut escaped = false;
    'bytes: for b in body {
        let Some(more) = added(escaped, *b) else {
            return Ok(None);
        };
        push_some(&mut bytes, more)?;
        escaped = escapes(escaped, *b);
    }
    Ok(Some(Text::from_vec(bytes)))
}

/// A string literal or a character constant behind its opening quote, `quote`.
pub fn constant(alloc: Global, quote: u8, rest: &[u8]) -> Result<Quoted, AllocError>
    ensures { IfOk result (λ q. q ≡ text.constant quote rest.now) }
{
    match up_to_quote(quote, rest) {
        None => Ok(Quoted::Open),
        Some(n) => match text_of(alloc, &rest[..n])? {
            None => Ok(Quoted::Wrong),
            Some(text) => Ok(Quoted::Closed(text, n + 2)),
        },
    }
}
