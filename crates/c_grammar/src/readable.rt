//! What the grammar sees of a token or a directive.

ghost use Rattle.std.specs.Prelude.{◌≡◌, IfOk};
ghost use Rattle.c_grammar.specs.Pieces as spec;

use crate::kind::Kind;
use crate::token::{copy_kind, copy_token, kind_of, map_kind_of};
use crate::value::Value;
use c_tokens::{Lexeme, LexemeKind};
use c_tree::{At, Define, Token, TokenKind};
use std::alloc::AllocError;

/// What the grammar reads: it has a kind, an offset, and a value where it is kept.
pub trait Readable {
    ghost use Rattle.c_grammar.specs.Pieces.{Piece};

    ghost piece: { Self → Piece };

    /// What it is to the grammar.
    fn kind(&self) -> Kind
        ensures { result ≡ (piece self.now).kind };

    /// The offset in bytes of its first byte.
    fn at(&self) -> u32
        ensures { result ≡ (piece self.now).at };

    /// The value that it is where it is kept.
    fn value(&self) -> Result<Value, AllocError>
        ensures { IfOk result (λ v. v ≡ (piece self.now).value) };
}

impl Readable for Token {
    ghost piece = { spec.token_piece };

    fn kind(&self) -> Kind {
        kind_of(&self.kind)
    }

    fn at(&self) -> u32 {
        self.at
    }

    fn value(&self) -> Result<Value, AllocError> {
        Ok(Value::Word(copy_token(self)?))
    }
}

/// A token of a mapping, where more words have a meaning.
#[derive(Drop)]
pub struct MapToken {
    pub token: Token,
}

impl Readable for MapToken {
    ghost piece = { λ m. spec.map_piece m.token };

    fn kind(&self) -> Kind {
        map_kind_of(&self.token.kind)
    }

    fn at(&self) -> u32 {
        self.token.at
    }

    fn value(&self) -> Result<Value, AllocError> {
        Ok(Value::Word(copy_token(&self.token)?))
    }
}

/// An equal define.
fn copy_define(define: &Define) -> Result<Define, AllocError>
    ensures { IfOk result (λ d. d ≡ define.now) }
{
    Ok(Define {
        name: At {
            at: define.name.at,
            it: define.name.it.clone()?,
        },
        minus: define.minus,
        value: define.value,
    })
}

impl Readable for Lexeme {
    ghost piece = { spec.lexeme_piece };

    fn kind(&self) -> Kind {
        match &self.kind {
            LexemeKind::Token(kind) => kind_of(kind),
            LexemeKind::Include | LexemeKind::Begun => Kind::Include,
            LexemeKind::Define(_) => Kind::Define,
        }
    }

    fn at(&self) -> u32 {
        self.at
    }

    fn value(&self) -> Result<Value, AllocError> {
        Ok(match &self.kind {
            LexemeKind::Token(kind) => Value::Word(Token {
                kind: copy_kind(kind)?,
                at: self.at,
                len: self.len,
            }),
            LexemeKind::Define(define) => Value::Define(copy_define(define)?),
            LexemeKind::Include | LexemeKind::Begun => Value::Word(Token {
                kind: TokenKind::Punct(0),
                at: 0,
                len: 0,
            }),
        })
    }
}
