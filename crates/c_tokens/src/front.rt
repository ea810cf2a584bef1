//! What stands at the front of the bytes: a blank, a comment, a token or a fault (ISO C11, 6.4).
ghost use Rattle.std.specs.Prelude.{◌≡◌, ◌≤◌, ◌<◌, ◌^◌, length, IfOk, IfSome};
ghost use Rattle.c_tokens.specs.Front as text;
ghost use Rattle.c_tokens.specs.Literal as lit;
ghost use Rattle.c_tokens.specs.Comment as comment;
ghost use Rattle.c_tokens.specs.Operator as operators;

use crate::class::{Class, class_of, name_run};
use crate::literal::literal;
use crate::operator::{longest, operator};
use crate::quoted::{Quoted, constant};
use c_tree::{ReadCause, Text, TokenKind};
use std::alloc::{AllocError, Global};

/// What stands at the front of the bytes; a comment and a token with the number of their bytes.
#[derive(Drop)]
pub enum Front {
    /// No byte is left.
    End,
    /// One byte between tokens.
    Blank,
    Comment(usize),
    Token(TokenKind, usize),
    /// What stands there is no token.
    Fault(ReadCause),
}

/// A word, of at most 64 bytes (ISO C11, 5.2.4.1, asks for 63 at least).
fn word(alloc: Global, run: &[u8]) -> Result<Front, AllocError>
    ensures { IfOk result (λ f. f ≡ text.word run.now) }
{
    if run.len() > 64 {
        return Ok(Front::Fault(ReadCause::BadToken));
    }
    let name = Text::from_vec(run.to_vec(alloc)?);
    Ok(Front::Token(TokenKind::Word(name), run.len()))
}

/// A number, from the bytes of names and digits at the front.
fn number(run: &[u8]) -> Front
    ensures { result ≡ text.number (lit.literal run.now) (length run.now) }
{
    match literal(run) {
        Ok(n) => Front::Token(TokenKind::Number(n as i32), run.len()),
        Err(why) => Front::Fault(why),
    }
}

/// A string literal.
fn string(constant: Quoted) -> Front
    ensures { result ≡ text.string constant }
{
    match constant {
        Quoted::Open => Front::Fault(ReadCause::Unclosed),
        Quoted::Wrong => Front::Fault(ReadCause::BadToken),
        Quoted::Closed(text, n) => Front::Token(TokenKind::Str(text), n),
    }
}

/// A character constant of one byte, by its text and the number of its bytes.
fn single(bytes: &[u8], len: usize) -> Front
    ensures { result ≡ text.single bytes.now len }
{
    match bytes {
        [c] => Front::Token(TokenKind::Char(i32::from(*c)), len),
        _ => Front::Fault(ReadCause::BadToken),
    }
}

/// A character constant.
fn character(constant: Quoted) -> Front
    ensures { result ≡ text.character constant }
{
    match constant {
        Quoted::Open => Front::Fault(ReadCause::Unclosed),
        Quoted::Wrong => Front::Fault(ReadCause::BadToken),
        Quoted::Closed(text, n) => single(text.as_bytes(), n),
    }
}

/// How many bytes stand on the line from here on, without its end.
fn line_len(bytes: &[u8]) -> usize
    ensures { result ≡ comment.line_len bytes.now }
{
    bytes.iter().take_while(|b| **b != b'\n').count()
}

/// How many bytes there are up to and including the first `*/`.
fn up_to_close(bytes: &[u8]) -> Option<usize>
    ensures count { result ≡ comment.up_to_close bytes.now }
    ensures within { IfSome result (λ n. n ≤ length bytes.now) }
{
    'bytes: for i in 0..bytes.len() {
        if bytes[i..].starts_with(b"*/") {
            return Some(i + 2);
        }
    }
    None
}

/// A comment behind its `/*`.
fn block(rest: &[u8]) -> Front
    ensures { result ≡ text.block (comment.up_to_close rest.now) }
{
    match up_to_close(rest) {
        None => Front::Fault(ReadCause::Unclosed),
        Some(n) => Front::Comment(2 + n),
    }
}

/// An operator: the longest that fits (ISO C11, 6.4, paragraph 4).
fn punct(bytes: &[u8]) -> Front
    ensures { result ≡ text.punct (operators.longest bytes.now) }
{
    match longest(bytes) {
        None => Front::Fault(ReadCause::BadByte),
        Some(place) => Front::Token(TokenKind::Punct(place), operator(place).len()),
    }
}

/// A comment or an operator.
fn sign(bytes: &[u8]) -> Front
    ensures { result ≡ text.sign bytes.now }
{
    if bytes.starts_with(b"//") {
        Front::Comment(line_len(bytes))
    } else if bytes.starts_with(b"/*") {
        block(&bytes[2..])
    } else {
        punct(bytes)
    }
}

/// What stands at the front of the bytes.
fn read_front(alloc: Global, bytes: &[u8]) -> Result<Front, AllocError>
    ensures { IfOk result (λ f. f ≡ text.front_of bytes.now) }
{
    let Some(first) = bytes.first() else {
        return Ok(Front::End);
    };
    match class_of(*first) {
        Class::Blank => Ok(Front::Blank),
        Class::Digit => Ok(number(&bytes[..name_run(bytes)])),
        Class::Letter => word(alloc, &bytes[..name_run(bytes)]),
        Class::Quote => Ok(string(constant(alloc, b'"', &bytes[1..])?)),
        Class::Apostrophe => Ok(character(constant(alloc, b'\'', &bytes[1..])?)),
        Class::Sign => Ok(sign(bytes)),
    }
}

/// What stands at the front of the bytes, which is no longer than they are.
pub fn front_of(alloc: Global, bytes: &[u8]) -> Result<Front, AllocError>
    ensures front { IfOk result (λ f. f ≡ text.front_of bytes.now) }
    ensures within { IfOk result (λ f. text.size_of f ≤ length bytes.now) }
{
    read_front(alloc, bytes)
}

/// The number of bytes of what stands at the front.
pub fn size_of(front: &Front) -> usize
    ensures { result ≡ text.size_of front.now }
{
    match front {
        Front::End => 0,
        Front::Blank | Front::Fault(_) => 1,
        Front::Comment(len) | Front::Token(_, len) => *len,
    }
}
