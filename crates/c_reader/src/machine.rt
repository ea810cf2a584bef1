//! The machine: a stack of symbols to come, and a stack of values.

ghost use Rattle.std.specs.Prelude.{◌≡◌, ◌++◌, ◌≤◌, ◌<◌, ◌+◌, ◌^◌, reverse, OnOk, IfOk, MatchBool, MatchOption, ◌↔◌, IsTrue};
ghost use Rattle.c_grammar.specs.Reading as spec;
ghost use Rattle.c_grammar.specs.declared.kind.Kind.TheVariants as which;
ghost use Rattle.c_reader.specs.Follow.{FitsReader};

use crate::choose::{is_next, may_vanish, pick};
use crate::turn::Turn;
use c_grammar::{
    Kind, Mark, Readable, Symbol, Value, act, closes, operators_after, push_value, word_of,
};
use c_tree::ReadCause;
use std::alloc::{AllocError, Global};

/// What is to come and what was read, between two tokens.
#[derive(Drop)]
pub struct Machine {
    /// What is to come, the next symbol last.
    pub symbols: Vec<Symbol>,
    /// What was read, the newest last.
    pub values: Vec<Value>,
    /// How many constructs are open.
    pub depth: usize,
    /// How many operators the expression has so far.
    pub operators: usize,
}

/// How many operators an expression may have.
const OPERATOR_LIMIT: usize = 1000;

/// How many constructs may be open before a token of this kind. `EOF` stands for `-1`, whose
/// prefix operator opens one more.
fn depth_limit(kind: Kind) -> usize
    ensures { result ≡ spec.depth_limit kind }
{
    match kind {
        Kind::Eof => 99,
        _ => 100,
    }
}

/// Whether a token of this kind is a left-out word.
fn is_left_out(kind: Kind) -> bool
    ensures { IsTrue result ↔ (kind ≡ which.LeftOut) }
{
    match kind {
        Kind::LeftOut => true,
        _ => false,
    }
}

/// Puts the symbols on the stack, the first of them on top.
pub fn push_all(stack: &mut Vec<Symbol>, symbols: &[Symbol]) -> Result<(), AllocError>
    ensures { OnOk result (reverse stack.new.items ≡ symbols.now ++ reverse stack.old.items) }
{
    let mut left = symbols.len();
    while left > 0 {
        left -= 1;
        stack.push(symbols[left])?;
    }
    Ok(())
}

impl Machine {
    ghost use Rattle.c_reader.specs.Stacks.{to_come, so_far};
    ghost use Rattle.c_reader.specs.Follow.{Turned, Leads, Refuses, Reached};

    /// Deals with the symbol in front, before the next token or the end.
    fn turn(&mut self, alloc: Global, ahead: Option<Kind>) -> Result<Turn, AllocError>
        requires { FitsReader (to_come self.old) }
        ensures turned { IfOk result (λ turn. Turned turn ahead
            (to_come self.old) (so_far self.old) (to_come self.new) (so_far self.new)) }
        ensures lower { self.new.depth ≤ self.old.depth }
        ensures fewer { self.new.operators ≤ self.old.operators }
    {
        let Some(symbol) = self.symbols.pop() else {
            return Ok(if ahead.is_none() {
                Turn::Reached(Mark::Skip)
            } else {
                Turn::Refused
            });
        };
        match symbol {
            Symbol::Take(kind, mark) => {
                if is_next(kind, ahead) {
                    Ok(Turn::Reached(mark))
                } else {
                    Ok(Turn::Refused)
                }
            }
            Symbol::Unless(kind) => {
                if is_next(kind, ahead) {
                    Ok(Turn::Refused)
                } else {
                    Ok(Turn::Changed)
                }
            }
            Symbol::Act(action) => {
                act(alloc, action, &mut self.values)?;
                self.depth = self.depth.saturating_sub(closes(action));
                self.operators = operators_after(action, self.operators);
                Ok(Turn::Changed)
            }
            Symbol::Expand(rule) => match pick(rule, ahead) {
                None => Ok(Turn::Refused),
                Some(front) => {
                    push_all(&mut self.symbols, front)?;
                    Ok(Turn::Changed)
                }
            },
        }
    }

    /// Goes on until the next token can be taken, or at the end until nothing is to come. Answers
    /// whether it came so far, with the token's mark.
    fn advance(&mut self, alloc: Global, ahead: Option<Kind>) -> Result<Option<Mark>, AllocError>
        requires { FitsReader (to_come self.old) }
        ensures reached { IfOk result (λ reached. MatchOption reached
            (Refuses ahead (to_come self.old) (so_far self.old))
            (λ mark. Reached mark ahead
            (to_come self.old) (so_far self.old) (to_come self.new) (so_far self.new))) }
        ensures lower { self.new.depth ≤ self.old.depth }
        ensures fewer { self.new.operators ≤ self.old.operators }
    {
        'turns: loop {
            match self.turn(alloc, ahead)? {
                Turn::Reached(mark) => return Ok(Some(mark)),
                Turn::Refused => return Ok(None),
                Turn::Changed => {}
            }
        }
    }
}

impl Machine {
    ghost use Rattle.c_grammar.specs.Effects.{with_token};
    ghost use Rattle.c_reader.specs.Stacks.{to_come, so_far};
    ghost use Rattle.c_reader.specs.Depth.{least};
    ghost use Rattle.c_reader.specs.Outcome.{Meets, Misses, Finishes, NeverFinishes};

    /// The least number of constructs that may be open before the next token.
    fn least_depth(&self) -> usize
        ensures { result ≡ least (to_come self.now) self.now.depth }
    {
        let symbols = self.symbols.as_slice();
        let mut depth = self.depth;
        let mut left = symbols.len();
        while left > 0 {
            left -= 1;
            match symbols[left] {
                Symbol::Take(_, _) => return depth,
                Symbol::Unless(_) => {}
                Symbol::Act(action) => depth = depth.saturating_sub(closes(action)),
                Symbol::Expand(rule) => {
                    if !may_vanish(rule) {
                        return depth;
                    }
                }
            }
        }
        depth
    }

    /// Whether the next token stands inside more constructs than so many.
    #[tactic(auto, using(crate::proofs::Depths::least_below))]
    fn is_deeper(&self, limit: usize) -> bool
        ensures { IsTrue result ↔ (limit < least (to_come self.now) self.now.depth) }
    {
        self.depth > limit && self.least_depth() > limit
    }

    /// Counts the token in, and keeps it where its mark says so.
    fn keep<T: Readable>(&mut self, mark: Mark, token: &T) -> Result<(), AllocError>
        requires deep { self.old.depth + 1 < 2 ^ 64 }
        requires few { self.old.operators ≤ 1000 }
        ensures symbols { to_come self.new ≡ to_come self.old }
        ensures state { OnOk result
            (so_far self.new ≡ with_token mark (T.piece token.now).value (so_far self.old)) }
    {
        if mark.keeps() {
            push_value(&mut self.values, token.value()?)?;
        }
        if mark.opens() {
            self.depth += 1;
        }
        if mark.counts() {
            self.operators += 1;
        }
        Ok(())
    }

    /// Takes the token, or says which fault it is.
    pub fn meet<T: Readable>(
        &mut self,
        alloc: Global,
        token: &T,
    ) -> Result<Option<ReadCause>, AllocError>
        requires fits { FitsReader (to_come self.old) }
        requires deep { self.old.depth + 1 < 2 ^ 64 }
        requires few { self.old.operators ≤ 1000 }
        ensures { IfOk result (λ fault. MatchOption fault
            (Meets (T.piece token.now)
            (to_come self.old) (so_far self.old) (to_come self.new) (so_far self.new))
            (Misses (T.piece token.now) (to_come self.old) (so_far self.old))) }
    {
        let kind = token.kind();
        if is_left_out(kind) {
            return Ok(Some(ReadCause::LeftOut(word_of(alloc, token.value()?))));
        }
        if self.is_deeper(depth_limit(kind)) {
            return Ok(Some(ReadCause::TooDeep));
        }
        match self.advance(alloc, Some(kind))? {
            None => Ok(Some(ReadCause::Unexpected)),
            Some(mark) => {
                self.keep(mark, token)?;
                if self.operators > OPERATOR_LIMIT {
                    return Ok(Some(ReadCause::TooDeep));
                }
                Ok(None)
            }
        }
    }

    /// Uses up what is to come, or says that the text breaks off.
    pub fn finish(&mut self, alloc: Global) -> Result<bool, AllocError>
        requires { FitsReader (to_come self.old) }
        ensures { IfOk result (λ done. MatchBool done
            (Finishes (to_come self.old) (so_far self.old) (so_far self.new))
            (NeverFinishes (to_come self.old) (so_far self.old))) }
    {
        match self.advance(alloc, None)? {
            Some(_) => Ok(true),
            None => Ok(false),
        }
    }
}
