//! Reading by the machine, whatever the text begins with.

ghost use Rattle.std.specs.Prelude.{IfOk, map};
ghost use Rattle.c_reader.specs.Follow.{FitsReader};
ghost use Rattle.c_reader.specs.Outcome.{Parses};

use crate::found::Found;
use crate::machine::{Machine, push_all};
use c_grammar::{Readable, Symbol};
use std::alloc::{AllocError, Global};

/// Reads the tokens by the grammar, from the symbols that their text begins with.
pub fn parse<T: Readable>(
    alloc: Global,
    begin: &[Symbol],
    tokens: &[T],
) -> Result<Found, AllocError>
    requires { FitsReader begin.now }
    ensures { IfOk result (Parses begin.now (map T.piece tokens.now)) }
{
    let mut machine = Machine {
        symbols: Vec::new(alloc),
        values: Vec::new(alloc),
        depth: 0,
        operators: 0,
    };
    push_all(&mut machine.symbols, begin)?;
    for (i, token) in tokens.iter().enumerate() {
        match machine.meet(alloc, token)? {
            None => {}
            Some(cause) => return Ok(Found::Fault(i, cause)),
        }
    }
    if machine.finish(alloc)? {
        let Machine { values, .. } = machine;
        Ok(Found::Done(values))
    } else {
        Ok(Found::CutShort)
    }
}
