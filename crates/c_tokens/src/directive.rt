//! Lines that begin with `#` (ISO C11, 6.10): includes and defines.
ghost use Rattle.std.specs.Prelude.{◌≡◌, ◌≤◌, ◌+◌, length, IfOk, IfSome, map, option_map};
ghost use Rattle.c_tokens.specs.Front as front;
ghost use Rattle.c_tokens.specs.Directive as text;

use crate::class::{is_gap, name_run};
use crate::front::{Front, front_of};
use crate::word::{is_left_out, is_name};
use c_tree::{At, Define, Name, ReadCause, Text, TokenKind};
use std::alloc::{AllocError, Global};

/// How a line that begins with `#` is read; with the offset in bytes behind what it needs.
#[derive(Drop)]
pub enum Line {
    /// An include of one of the three headers (6.10.2).
    Include(u32),
    /// A define of a number (6.10.3).
    Define(Define, u32),
    /// An include or a define with a fault before its end.
    Broken(At<ReadCause>),
    /// No include and no define.
    Other,
}

/// How many blanks stand here on the line.
fn gap_len(bytes: &[u8]) -> usize
    ensures gap { result ≡ text.gap_len bytes.now }
    ensures within { result ≤ length bytes.now }
{
    bytes.iter().take_while(|b| is_gap(**b)).count()
}

/// A directive with a fault.
fn broken(at: u32, it: ReadCause) -> Line
    ensures { result ≡ text.broken at it }
{
    Line::Broken(At { at, it })
}

/// Why a word may not stand where it stands.
fn misfit_word(word: Name) -> ReadCause
    ensures { result ≡ text.misfit_word word }
{
    if is_left_out(word.as_bytes()) {
        ReadCause::LeftOut(word)
    } else {
        ReadCause::Unexpected
    }
}

/// Why a token may not stand where it stands.
pub fn misfit_token(kind: TokenKind) -> ReadCause
    ensures { result ≡ text.misfit_token kind }
{
    match kind {
        TokenKind::Word(word) => misfit_word(word),
        TokenKind::Number(_) | TokenKind::Char(_) | TokenKind::Str(_) | TokenKind::Punct(_) => {
            ReadCause::Unexpected
        }
    }
}

/// Why what stands at the front doesn't fit, be it the line's end.
fn misfit(front: Front) -> ReadCause
    ensures { result ≡ text.misfit front }
{
    match front {
        Front::Fault(why) => why,
        Front::Token(kind, _) => misfit_token(kind),
        Front::End | Front::Blank | Front::Comment(_) => ReadCause::Unexpected,
    }
}

/// The headers that may be included.
fn headers() -> &'static [&'static [u8]]
    ensures { map (λ h. h.now) result.now ≡ text.headers }
{
    &[b"<stdio.h>", b"<stdlib.h>", b"<pthread.h>"]
}

/// The header that the bytes begin with.
fn header_at(bytes: &[u8]) -> Option<&'static [u8]>
    ensures header { option_map (λ h. h.now) result ≡ text.header_at bytes.now }
    ensures within { IfSome result (λ h. length h.now ≤ length bytes.now) }
{
    'headers: for header in headers() {
        if bytes.starts_with(header) {
            return Some(header);
        }
    }
    None
}

/// The fault where another header's name begins.
fn other_header(alloc: Global, bytes: &[u8]) -> Result<ReadCause, AllocError>
    ensures { IfOk result (λ why. why ≡ text.other_header (front.front_of bytes.now)) }
{
    match front_of(alloc, bytes)? {
        Front::Fault(why) => Ok(why),
        Front::End | Front::Blank | Front::Comment(_) | Front::Token(_, _) => {
            let word = b"include".to_vec(alloc)?;
            Ok(ReadCause::LeftOut(Text::from_vec(word)))
        }
    }
}

/// An include, from the header's name on.
fn include(alloc: Global, at: u32, bytes: &[u8]) -> Result<Line, AllocError>
    requires { at + length bytes.now ≤ 1048576 }
    ensures { IfOk result (λ l. l ≡ text.include at bytes.now) }
{
    match header_at(bytes) {
        Some(header) => Ok(Line::Include(at + header.len() as u32)),
        None => Ok(broken(at, other_header(alloc, bytes)?)),
    }
}

/// A define, from its number on, which has a minus.
fn number(alloc: Global, name: At<Name>, at: u32, bytes: &[u8]) -> Result<Line, AllocError>
    requires { at + length bytes.now ≤ 1048576 }
    ensures { IfOk result (λ l. l ≡ text.number name at bytes.now) }
{
    match front_of(alloc, bytes)? {
        Front::Token(TokenKind::Number(value), len) => {
            let minus = true;
            let define = Define { name, minus, value };
            Ok(Line::Define(define, at + len as u32))
        }
        other => Ok(broken(at, misfit(other))),
    }
}

/// A define, from behind its name on.
fn value(alloc: Global, name: At<Name>, at: u32, bytes: &[u8]) -> Result<Line, AllocError>
    requires { at + length bytes.now ≤ 1048576 }
    ensures { IfOk result (λ l. l ≡ text.value name at bytes.now) }
{
    match front_of(alloc, bytes)? {
        Front::Token(TokenKind::Number(value), len) => {
            let minus = false;
            let define = Define { name, minus, value };
            Ok(Line::Define(define, at + len as u32))
        }
        Front::Token(TokenKind::Punct(1), len) => {
            let rest = &bytes[len..];
            let gap = gap_len(rest);
            number(alloc, name, at + len as u32 + gap as u32, &rest[gap..])
        }
        other => Ok(broken(at, misfit(other))),
    }
}

/// A define, from behind the token that stands where its name is due.
fn named(
    alloc: Global,
    kind: TokenKind,
    at: u32,
    behind: u32,
    bytes: &[u8],
) -> Result<Line, AllocError>
    requires { behind + length bytes.now ≤ 1048576 }
    ensures { IfOk result (λ l. l ≡ text.named kind at behind bytes.now) }
{
    match kind {
        TokenKind::Word(it) => {
            if !is_name(it.as_bytes()) {
                return Ok(broken(at, misfit_word(it)));
            }
            let gap = gap_len(bytes);
            let name = At { at, it };
            value(alloc, name, behind + gap as u32, &bytes[gap..])
        }
        other => Ok(broken(at, misfit_token(other))),
    }
}

/// A define, from its name on.
fn define(alloc: Global, at: u32, bytes: &[u8]) -> Result<Line, AllocError>
    requires { at + length bytes.now ≤ 1048576 }
    ensures { IfOk result (λ l. l ≡ text.define at bytes.now) }
{
    match front_of(alloc, bytes)? {
        Front::Token(kind, len) => named(alloc, kind, at, at + len as u32, &bytes[len..]),
        other => Ok(broken(at, misfit(other))),
    }
}

/// A directive, from behind its word on.
fn worded(alloc: Global, word: &[u8], at: u32, bytes: &[u8]) -> Result<Line, AllocError>
    requires { at + length bytes.now ≤ 1048576 }
    ensures { IfOk result (λ l. l ≡ text.worded word.now at bytes.now) }
{
    let gap = gap_len(bytes);
    let rest = &bytes[gap..];
    let behind = at + gap as u32;
    if word == b"include".as_slice() {
        include(alloc, behind, rest)
    } else if word == b"define".as_slice() {
        define(alloc, behind, rest)
    } else {
        Ok(Line::Other)
    }
}

/// A directive, from its word on.
fn with_word(alloc: Global, at: u32, bytes: &[u8]) -> Result<Line, AllocError>
    requires { at + length bytes.now ≤ 1048576 }
    ensures { IfOk result (λ l. l ≡ text.with_word at bytes.now) }
{
    let len = name_run(bytes);
    worded(alloc, &bytes[..len], at + len as u32, &bytes[len..])
}

/// A directive, from its `#` on, which stands at this offset in bytes.
pub fn directive(alloc: Global, at: u32, bytes: &[u8]) -> Result<Line, AllocError>
    requires some { 1 ≤ length bytes.now }
    requires within { at + length bytes.now ≤ 1048576 }
    ensures { IfOk result (λ l. l ≡ text.directive at bytes.now) }
{
    let rest = &bytes[1..];
    let gap = gap_len(rest);
    with_word(alloc, at + 1 + gap as u32, &rest[gap..])
}
