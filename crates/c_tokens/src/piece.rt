//! What a source goes on with at one place of a line.
ghost use Rattle.std.specs.Prelude.{◌≡◌, ◌≤◌, ◌<◌, ◌+◌, ◌^◌, length, IfOk};
ghost use Rattle.c_tokens.specs.Front as front;
ghost use Rattle.c_tokens.specs.Directive as directive;
ghost use Rattle.c_tokens.specs.Piece as text;

use crate::directive::{Line, directive, misfit_token};
use crate::front::{Front, front_of};
use crate::lexeme::LexemeKind;
use crate::word::is_left_out;
use c_tree::{At, ReadCause, Text, TokenKind};
use std::alloc::{AllocError, Global};

/// The part of a line where a piece stands.
#[derive(Clone, Copy)]
pub enum Part {
    /// Only blanks stand before it on the line.
    Head,
    /// A token or a comment stands before it on the line.
    Middle,
    /// A directive stands before it on the line.
    Tail,
}

/// A piece of a source, with the part behind it and the number of its bytes.
#[derive(Drop)]
pub enum Piece {
    /// A blank or a comment.
    Gap(Part, usize),
    /// A token or a directive.
    Lexeme(LexemeKind, Part, usize),
    /// A fault that is no directive's.
    Fault(At<ReadCause>),
    /// An include or a define with a fault on its line.
    Begun(At<ReadCause>),
}

/// A fault at this offset.
fn fault(at: u32, it: ReadCause) -> Piece
    ensures { result ≡ text.fault at it }
{
    Piece::Fault(At { at, it })
}

/// The part of the line behind a blank.
fn after_blank(part: Part, b: u8) -> Part
    ensures { result ≡ text.after_blank part b }
{
    if b == b'\n' { Part::Head } else { part }
}

/// The part of the line behind a comment.
fn after_comment(part: Part) -> Part
    ensures { result ≡ text.after_comment part }
{
    match part {
        Part::Head | Part::Middle => Part::Middle,
        Part::Tail => Part::Tail,
    }
}

/// A token, unless it is a left-out word.
fn of_token(at: u32, kind: TokenKind, len: usize) -> Piece
    ensures { result ≡ text.of_token at kind len }
{
    match kind {
        TokenKind::Word(word) => {
            if is_left_out(word.as_bytes()) {
                return fault(at, ReadCause::LeftOut(word));
            }
            Piece::Lexeme(LexemeKind::Token(TokenKind::Word(word)), Part::Middle, len)
        }
        other => Piece::Lexeme(LexemeKind::Token(other), Part::Middle, len),
    }
}

/// A token in a part of the line: behind a directive none may stand.
fn in_part(part: Part, at: u32, kind: TokenKind, len: usize) -> Piece
    ensures { result ≡ text.in_part part at kind len }
{
    match part {
        Part::Head | Part::Middle => of_token(at, kind, len),
        Part::Tail => fault(at, misfit_token(kind)),
    }
}

/// What stands at the front, as a piece of the source; `b` is its first byte.
fn of_front(part: Part, at: u32, b: u8, front: Front) -> Piece
    ensures { result ≡ text.of_front part at b front }
{
    match front {
        Front::End => Piece::Gap(part, 0),
        Front::Blank => Piece::Gap(after_blank(part, b), 1),
        Front::Comment(len) => Piece::Gap(after_comment(part), len),
        Front::Token(kind, len) => in_part(part, at, kind, len),
        Front::Fault(why) => fault(at, why),
    }
}

/// Whether a directive begins with the byte.
fn is_hash(part: Part, b: u8) -> bool
    ensures { result ≡ text.is_hash part b }
{
    match part {
        Part::Head => b == b'#',
        Part::Middle | Part::Tail => false,
    }
}

/// A line that begins with `#`, as a piece of the source.
fn of_line(alloc: Global, at: u32, line: Line) -> Result<Piece, AllocError>
    ensures { IfOk result (λ p. p ≡ text.of_line at line) }
{
    match line {
        Line::Include(end) => {
            let len = end.saturating_sub(at) as usize;
            Ok(Piece::Lexeme(LexemeKind::Include, Part::Tail, len))
        }
        Line::Define(define, end) => {
            let len = end.saturating_sub(at) as usize;
            Ok(Piece::Lexeme(LexemeKind::Define(define), Part::Tail, len))
        }
        Line::Broken(why) => Ok(Piece::Begun(why)),
        Line::Other => {
            let word = b"directive".to_vec(alloc)?;
            Ok(fault(at, ReadCause::LeftOut(Text::from_vec(word))))
        }
    }
}

/// What the source goes on with at an offset in bytes, in a part of a line.
pub fn piece_at(alloc: Global, part: Part, at: u32, bytes: &[u8]) -> Result<Piece, AllocError>
    requires { at + length bytes.now ≤ 1048576 }
    ensures { IfOk result (λ p. p ≡ text.piece_at part at bytes.now) }
{
    let Some(first) = bytes.first() else {
        return Ok(Piece::Gap(part, 0));
    };
    if is_hash(part, *first) {
        let line = directive(alloc, at, bytes)?;
        of_line(alloc, at, line)
    } else {
        let front = front_of(alloc, bytes)?;
        Ok(of_front(part, at, *first, front))
    }
}

/// The number of bytes of a piece.
pub fn size_of(piece: &Piece) -> usize
    ensures { result ≡ text.size_of piece.now }
{
    match piece {
        Piece::Gap(_, len) | Piece::Lexeme(_, _, len) => *len,
        Piece::Fault(_) | Piece::Begun(_) => 1,
    }
}

/// The part of the line behind a piece.
pub fn part_of(piece: &Piece) -> Part
    ensures { result ≡ text.part_of piece.now }
{
    match piece {
        Piece::Gap(part, _) | Piece::Lexeme(_, part, _) => *part,
        Piece::Fault(_) | Piece::Begun(_) => Part::Middle,
    }
}
