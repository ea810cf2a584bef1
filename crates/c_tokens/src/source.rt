//! The lexemes of a C source.
ghost use Rattle.std.specs.Prelude.{◌≡◌, ◌≤◌, ◌<◌, ◌^◌, ◌+◌, length, None, IfOk};
ghost use Rattle.c_tokens.specs.Order.{StandBetween, end_of, lexeme_places};
ghost use Rattle.c_tokens.specs.Piece as pieces;
ghost use Rattle.c_tokens.specs.Source as text;

use crate::lexeme::{Lexeme, LexemeKind, Scan};
use crate::piece::{Part, Piece, part_of, piece_at, size_of};
use c_tree::{At, ReadCause, Row};
use std::alloc::{AllocError, Global};

/// Appends the piece at an offset, and answers its fault.
fn push_piece(
    lexemes: &mut Vec<Lexeme>,
    at: u32,
    piece: Piece,
) -> Result<Option<At<ReadCause>>, AllocError>
    requires { pieces.size_of piece < 2 ^ 32 }
    ensures { IfOk result (λ why.
        text.before (text.scan lexemes.old.items None) (text.added at piece)
        ≡ text.scan lexemes.new.items why) }
{
    match piece {
        Piece::Gap(_, _) => Ok(None),
        Piece::Lexeme(kind, _, len) => {
            let len = len as u32;
            lexemes.push(Lexeme { kind, at, len })?;
            Ok(None)
        }
        Piece::Fault(why) => Ok(Some(why)),
        Piece::Begun(why) => {
            let len = why.at.saturating_sub(at);
            let kind = LexemeKind::Begun;
            lexemes.push(Lexeme { kind, at, len })?;
            Ok(Some(why))
        }
    }
}

/// The lexemes of a C source.
fn read_source(alloc: Global, bytes: &[u8]) -> Result<Scan, AllocError>
    requires { length bytes.now ≤ 1048576 }
    ensures { IfOk result (λ s. s ≡ text.scan_of bytes.now) }
{
    let mut lexemes = Vec::new(alloc);
    let mut part = Part::Head;
    let mut at = 0;
    'pieces: while at < bytes.len() {
        let piece = piece_at(alloc, part, at as u32, &bytes[at..])?;
        part = part_of(&piece);
        let len = size_of(&piece);
        let fault = push_piece(&mut lexemes, at as u32, piece)?;
        if fault.is_some() {
            let lexemes = Row::from_vec(lexemes);
            return Ok(Scan { lexemes, fault });
        }
        at += len;
    }
    let lexemes = Row::from_vec(lexemes);
    let fault = None;
    Ok(Scan { lexemes, fault })
}

/// The lexemes of a C source before its first fault, and that fault; at most 1048576 bytes.
///
/// A fault is a lexical one, a left-out word, or one of a directive's line.
pub fn scan(alloc: Global, bytes: &[u8]) -> Result<Scan, AllocError>
    requires { length bytes.now ≤ 1048576 }
    ensures scan { IfOk result (λ s. s ≡ text.scan_of bytes.now) }

    // They stand in text order before the fault, and it stands within the text or at its end.
    ensures order { IfOk result (λ s. let end = end_of s.fault (length bytes.now)
        in StandBetween 0 (lexeme_places s.lexemes) end) }
    ensures within { IfOk result (λ s. end_of s.fault (length bytes.now) ≤ length bytes.now) }
{
    read_source(alloc, bytes)
}
