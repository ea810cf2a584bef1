//! Sources: from bytes to a program, or to the first fault.

ghost use Rattle.std.specs.Prelude.{◌≡◌, IfOk, MatchResult, map};
ghost use Rattle.c_tree.specs.ReadForm.{HasReadForm};
ghost use Rattle.c_tokens.specs.Source as text;
ghost use Rattle.c_grammar.specs.Source.{IsProgramIn, IsProgramOf};
ghost use Rattle.c_reader.specs.Refusal.{IsRefusal, IsRefusalIn};

use crate::found::Found;
use crate::run::parse;
use c_grammar::{Action, Rule, Symbol, pop_program};
use c_tokens::{Lexeme, ReadRefused, Scan, scan};
use c_tree::{At, Program, ReadCause};
use std::alloc::Global;

/// The most bytes of a source.
const SOURCE_LIMIT: u32 = 1_048_576;

/// Reads what was scanned of a source of `len` bytes.
fn read_scan(
    alloc: Global,
    lexemes: &[Lexeme],
    fault: Option<At<ReadCause>>,
    len: u32,
) -> Result<Program, ReadRefused>
    ensures { let scan = text.scan lexemes.now fault
        in MatchResult result (IsProgramIn scan len) (IsRefusalIn scan len) }
{
    let begin = [
        Symbol::Act(Action::StartProgram),
        Symbol::Expand(Rule::Items),
    ];
    match parse(alloc, &begin, lexemes) {
        Ok(Found::Done(mut values)) => match fault {
            None => {
                let mut program = pop_program(alloc, &mut values);
                program.len = len;
                Ok(program)
            }
            Some(why) => Err(ReadRefused::At(why.at, why.it)),
        },
        Ok(Found::Fault(i, cause)) => Err(ReadRefused::At(lexemes[i].at, cause)),
        Ok(Found::CutShort) => match fault {
            None => Err(ReadRefused::At(len, ReadCause::Unexpected)),
            Some(why) => Err(ReadRefused::At(why.at, why.it)),
        },
        Err(e) => Err(ReadRefused::Memory(e)),
    }
}

/// Reads a source: the program that it is, or the offset in bytes and the cause of its first fault.
/// A source of more than 1048576 bytes is refused as too long at that offset. The program has the
/// form that the laws of the lifting ask for.
pub fn read_program(alloc: Global, bytes: &[u8]) -> Result<Program, ReadRefused>
    ensures answer { MatchResult result (IsProgramOf bytes.now) (IsRefusal bytes.now) }
    ensures form { IfOk result HasReadForm }
{
    if bytes.len() > SOURCE_LIMIT as usize {
        return Err(ReadRefused::At(SOURCE_LIMIT, ReadCause::TooLong));
    }
    match scan(alloc, bytes) {
        Ok(Scan { lexemes, fault }) => read_scan(
            alloc,
            lexemes.as_slice(),
            fault,
            bytes.len() as u32,
        ),
        Err(e) => Err(ReadRefused::Memory(e)),
    }
}
