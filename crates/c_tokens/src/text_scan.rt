//! The tokens of a text that is no source: it has no directives.
ghost use Rattle.std.specs.Prelude.{◌≡◌, ◌≤◌, ◌<◌, ◌^◌, ◌+◌, length, All, None, Ok, IfOk, IfErr};
ghost use Rattle.c_tokens.specs.Front.{size_of};
ghost use Rattle.c_tokens.specs.Order.{StandBetween, token_places};
ghost use Rattle.c_tokens.specs.Text as text;
ghost use Rattle.c_tokens.specs.Tokens.{tokens_of, Tells};

use crate::front::{Front, front_of, size_of};
use crate::refused::ReadRefused;
use c_tree::{At, ReadCause, Row, Token};
use std::alloc::{AllocError, Global};

/// The tokens before the first fault, and that fault.
#[derive(Drop)]
pub struct TextScan {
    pub tokens: Row<Token>,
    pub fault: Option<At<ReadCause>>,
}

/// Appends what stands at an offset, and answers its fault.
fn push_front(
    tokens: &mut Vec<Token>,
    at: u32,
    front: Front,
) -> Result<Option<At<ReadCause>>, AllocError>
    requires { size_of front < 2 ^ 32 }
    ensures { IfOk result (λ why.
        text.before (text.scanned tokens.old.items None) (text.added at front)
        ≡ text.scanned tokens.new.items why) }
{
    match front {
        Front::End | Front::Blank | Front::Comment(_) => Ok(None),
        Front::Token(kind, len) => {
            let len = len as u32;
            tokens.push(Token { kind, at, len })?;
            Ok(None)
        }
        Front::Fault(it) => Ok(Some(At { at, it })),
    }
}

/// The tokens of a text before its first fault, and that fault; at most 4194304 bytes. It knows no
/// directives, and a left-out word is a word.
pub fn scan_text(alloc: Global, bytes: &[u8]) -> Result<TextScan, AllocError>
    requires { length bytes.now ≤ 4194304 }
    ensures { IfOk result (λ s. s ≡ text.text_of bytes.now) }
{
    let mut tokens = Vec::new(alloc);
    let mut at = 0;
    'fronts: while at < bytes.len() {
        let front = front_of(alloc, &bytes[at..])?;
        let len = size_of(&front);
        let fault = push_front(&mut tokens, at as u32, front)?;
        if fault.is_some() {
            let tokens = Row::from_vec(tokens);
            return Ok(TextScan { tokens, fault });
        }
        at += len;
    }
    let tokens = Row::from_vec(tokens);
    let fault = None;
    Ok(TextScan { tokens, fault })
}

/// The tokens of a text, or its first fault.
fn read_tokens(alloc: Global, bytes: &[u8]) -> Result<Row<Token>, ReadRefused>
    requires { length bytes.now ≤ 4194304 }
    ensures ok { IfOk result (λ ts. tokens_of bytes.now ≡ Ok ts) }
    ensures fault { IfErr result (λ r. Tells r (tokens_of bytes.now)) }
{
    match scan_text(alloc, bytes) {
        Ok(TextScan { tokens, fault }) => match fault {
            None => Ok(tokens),
            Some(why) => Err(ReadRefused::At(why.at, why.it)),
        },
        Err(e) => Err(ReadRefused::Memory(e)),
    }
}

/// The tokens of a text of at most 4194304 bytes, in their order, or its first fault, with its
/// offset in bytes. It knows no directives, so `#` is a fault.
///
/// Blanks and comments give none, and a word of any kind is a `Word`.
pub fn tokens(alloc: Global, bytes: &[u8]) -> Result<Row<Token>, ReadRefused>
    requires { length bytes.now ≤ 4194304 }
    ensures ok { IfOk result (λ ts. tokens_of bytes.now ≡ Ok ts) }
    ensures fault { IfErr result (λ r. Tells r (tokens_of bytes.now)) }

    // They stand in text order, each within the text.
    ensures order { IfOk result (λ ts. StandBetween 0 (token_places ts) (length bytes.now)) }
    ensures within { IfOk result (All (λ t. t.at + t.len ≤ length bytes.now)) }
{
    read_tokens(alloc, bytes)
}
