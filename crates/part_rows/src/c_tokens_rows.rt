//! Tokens of texts and of sources at the edges of each rule, as found by hand.

mod rows;

use crate::c_tokens_rows::rows::{OPERATORS, SOURCES, TEXTS};
use c_tokens::{LexemeKind, ReadRefused, Scan, scan, tokens};
use c_tree::{Define, TokenKind};
use row_calls::{RowsDiffer, compare, judged};
use std::alloc::{AllocError, Global};
use tree_texts::fault;

/// A letter with its number, or with the length of its text.
fn push_kind(line: &mut String, kind: &TokenKind) -> Result<(), AllocError> {
    match kind {
        TokenKind::Word(name) => {
            let len = name.as_bytes().len();
            write!(line, "w{len}")
        }
        TokenKind::Number(number) => write!(line, "n{number}"),
        TokenKind::Char(byte) => write!(line, "c{byte}"),
        TokenKind::Str(text) => {
            let len = text.as_bytes().len();
            write!(line, "s{len}")
        }
        TokenKind::Punct(place) => write!(line, "p{place}"),
    }
}

/// Each token with its offset and its length, or the fault.
fn told(alloc: Global, text: &str) -> Result<String, AllocError> {
    let mut line = String::new(alloc);
    if text.len() > 4_194_304 {
        return Ok(line);
    }
    match tokens(alloc, text.as_bytes()) {
        Ok(row) => {
            for token in row.as_slice() {
                push_kind(&mut line, &token.kind)?;
                write!(line, "@{}+{} ", token.at, token.len)?;
            }
            Ok(line)
        }
        Err(ReadRefused::At(at, cause)) => fault(alloc, at, &cause),
        Err(ReadRefused::Memory(e)) => Err(e),
    }
}

fn push_define(line: &mut String, define: &Define) -> Result<(), AllocError> {
    let name = define.name.at;
    let minus = define.minus;
    let value = define.value;
    write!(line, "define {name} {minus} {value} ")
}

fn push_lexeme(line: &mut String, kind: &LexemeKind) -> Result<(), AllocError> {
    match kind {
        LexemeKind::Token(kind) => push_kind(line, kind),
        LexemeKind::Include => line.push_str("include"),
        LexemeKind::Define(define) => push_define(line, define),
        LexemeKind::Begun => line.push_str("begun"),
    }
}

fn push_scan(line: &mut String, alloc: Global, found: &Scan) -> Result<(), AllocError> {
    for lexeme in found.lexemes.as_slice() {
        push_lexeme(line, &lexeme.kind)?;
        write!(line, "@{}+{} ", lexeme.at, lexeme.len)?;
    }
    match &found.fault {
        Some(at) => line.push_str(&fault(alloc, at.at, &at.it)?),
        None => Ok(()),
    }
}

/// The same of a source's lexemes, and its fault behind them.
fn scanned(alloc: Global, text: &str) -> Result<String, AllocError> {
    let mut line = String::new(alloc);
    if text.len() > 1_048_576 {
        return Ok(line);
    }
    let found = scan(alloc, text.as_bytes())?;
    push_scan(&mut line, alloc, &found)?;
    Ok(line)
}

fn differing_rows(alloc: Global) -> Result<String, AllocError> {
    let mut differing = String::new(alloc);
    for (text, wanted) in TEXTS {
        compare(&mut differing, text, wanted, &told(alloc, text)?)?;
    }
    for (text, wanted) in SOURCES {
        compare(&mut differing, text, wanted, &scanned(alloc, text)?)?;
    }
    let (text, wanted) = OPERATORS;
    compare(&mut differing, text, wanted, &told(alloc, text)?)?;
    Ok(differing)
}

#[test]
fn tokens_are_found(rt: HostRuntime) -> Result<(), RowsDiffer> {
    judged(differing_rows(rt.alloc()))
}
