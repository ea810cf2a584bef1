//! The expression at the front of tokens.

ghost use Rattle.std.specs.Prelude.{◌≡◌, ◌≢◌, ◌≤◌, ◌<◌, ◌+◌, ◌^◌, All, length, map, MatchResult};
ghost use Rattle.c_tree.specs.declared.cause.ReadCause.TheVariants as causes;
ghost use Rattle.c_grammar.specs.Front as spec;
ghost use Rattle.c_grammar.specs.Reading.{IsFirst};
ghost use Rattle.c_grammar.specs.Rules.{expr_start};
ghost use Rattle.c_reader.specs.Refusal.{IsRefusalAt};

use crate::found::Found;
use crate::run::parse;
use c_grammar::{Rule, Symbol, pop_operand};
use c_tokens::ReadRefused;
use c_tree::{Expr, ReadCause, Token};
use std::alloc::Global;

/// Where the last token ends, as an offset in bytes; 0 where there is none.
fn end_of(tokens: &[Token]) -> u32
    requires { All (λ t. t.at + t.len < 2 ^ 32) tokens.now }
    ensures { result ≡ spec.end_of tokens.now }
{
    match tokens {
        [] => 0,
        [.., last] => last.at + last.len,
    }
}

/// Reads the expression that the tokens from a position on begin with: the most tokens that an
/// expression can begin with, if they are one. Answers it with the position behind it, or the
/// offset in bytes and the cause of the fault.
pub fn expr_at(alloc: Global, tokens: &[Token], from: usize) -> Result<(Expr, usize), ReadRefused>
    requires within { from ≤ length tokens.now }
    requires ends { All (λ t. t.at + t.len < 2 ^ 32) tokens.now }
    ensures { MatchResult result
        (λ found. spec.IsExprAt tokens.now from found.0 found.1)
        (IsRefusalAt tokens.now from) }
{
    match parse(alloc, &[Symbol::Expand(Rule::MapExpr)], &tokens[from..]) {
        Ok(Found::Done(mut values)) => Ok((pop_operand(&mut values).expr, tokens.len())),
        Ok(Found::CutShort) => Err(ReadRefused::At(end_of(tokens), ReadCause::Unexpected)),
        Ok(Found::Fault(i, ReadCause::TooDeep)) => Err(ReadRefused::At(
            tokens[from + i].at,
            ReadCause::TooDeep,
        )),
        Ok(Found::Fault(i, cause)) => expr_before(alloc, tokens, from, i, cause),
        Err(e) => Err(ReadRefused::Memory(e)),
    }
}

/// The same, where the first fault stands at the token with this number, and none of nesting.
fn expr_before(
    alloc: Global,
    tokens: &[Token],
    from: usize,
    count: usize,
    cause: ReadCause,
) -> Result<(Expr, usize), ReadRefused>
    requires within { from ≤ length tokens.now }
    requires fault { IsFirst expr_start (spec.pieces_from tokens.now from) count cause }
    requires other { cause ≢ causes.TooDeep }
    ensures { MatchResult result
        (λ found. spec.IsExprAt tokens.now from found.0 found.1)
        (IsRefusalAt tokens.now from) }
{
    match parse(
        alloc,
        &[Symbol::Expand(Rule::MapExpr)],
        &tokens[from..from + count],
    ) {
        Ok(Found::Done(mut values)) => Ok((pop_operand(&mut values).expr, from + count)),
        Ok(Found::CutShort) => Err(ReadRefused::At(tokens[from + count].at, cause)),
        Ok(Found::Fault(_, _)) => unreachable!(),
        Err(e) => Err(ReadRefused::Memory(e)),
    }
}
