//! What sources are read as, or their first fault.

mod fronts;
mod limits;
mod rows;
mod sources;
mod trees;

use crate::c_reader_rows::rows::{DIRECTIVES, PARTS_OF_SOURCES, TOKENS, UNEXPECTED};
use crate::c_reader_rows::trees::{BODIES, PROGRAM};
use crate::repeats::{Repeat, repeated};
use c_reader::{ReadRefused, expr_at, read_program, tokens};
use c_tree::{Function, Program};
use row_calls::{RowsDiffer, compare, judged, opened};
use std::alloc::{AllocError, Global};
use tree_texts::{fault, put_body, put_program};

fn put_counts(text: &mut String, program: &Program) -> Result<(), AllocError> {
    let structs = program.structs.len();
    let globals = program.globals.len();
    let mutexes = program.mutexes.len();
    let defines = program.defines.len();
    let functions = program.functions.len();
    write!(text, "{structs} {globals} {mutexes} {defines} {functions}")
}

/// How many structs, globals, mutexes, defines and functions a source has, or its first fault.
fn counts(alloc: Global, source: &str) -> Result<String, AllocError> {
    let mut text = String::new(alloc);
    match read_program(alloc, opened(source).as_bytes()) {
        Ok(program) => put_counts(&mut text, &program)?,
        Err(ReadRefused::At(at, cause)) => return fault(alloc, at, &cause),
        Err(ReadRefused::Memory(e)) => return Err(e),
    }
    Ok(text)
}

fn put_function(
    text: &mut String,
    alloc: Global,
    function: Option<&Function>,
) -> Result<(), AllocError> {
    match function {
        Some(
            Function {
                body: Some(body),
                ..
            },
        ) => put_body(text, alloc, body.as_slice()),
        _ => text.push_str("no body"),
    }
}

/// The tree of the body of the first function of a source, or its first fault.
fn body(alloc: Global, source: &str) -> Result<String, AllocError> {
    let mut text = String::new(alloc);
    match read_program(alloc, source.as_bytes()) {
        Ok(program) => put_function(&mut text, alloc, program.functions.as_slice().first())?,
        Err(ReadRefused::At(at, cause)) => return fault(alloc, at, &cause),
        Err(ReadRefused::Memory(e)) => return Err(e),
    }
    Ok(text)
}

/// The tree of a source, or its first fault.
fn whole(alloc: Global, source: &str) -> Result<String, AllocError> {
    let mut text = String::new(alloc);
    match read_program(alloc, source.as_bytes()) {
        Ok(program) => put_program(&mut text, alloc, &program)?,
        Err(ReadRefused::At(at, cause)) => return fault(alloc, at, &cause),
        Err(ReadRefused::Memory(e)) => return Err(e),
    }
    Ok(text)
}

fn differing_rows(alloc: Global) -> Result<String, AllocError> {
    let mut differing = String::new(alloc);
    for rows in [PARTS_OF_SOURCES, UNEXPECTED, DIRECTIVES, TOKENS] {
        for (source, wanted) in rows {
            compare(&mut differing, source, wanted, &counts(alloc, source)?)?;
        }
    }
    for (head, before, middle, after, count, wanted) in limits::LIMITS {
        let repeat = Repeat {
            head,
            before,
            middle,
            after,
            count: *count,
        };
        let source = repeated(alloc, &repeat)?;
        compare(&mut differing, before, wanted, &counts(alloc, &source)?)?;
    }
    for (source, wanted) in BODIES {
        compare(&mut differing, source, wanted, &body(alloc, source)?)?;
    }
    let (source, wanted) = PROGRAM;
    compare(&mut differing, source, wanted, &whole(alloc, source)?)?;
    Ok(differing)
}

#[test]
fn sources_are_read(rt: HostRuntime) -> Result<(), RowsDiffer> {
    judged(differing_rows(rt.alloc()))
}

/// The expression from a token of a text on: where it stands, and the token behind it.
fn front(alloc: Global, text: &str, from: usize) -> Result<String, AllocError> {
    if text.len() > 4_194_304 {
        return String::from_str(alloc, "too long");
    }
    let Ok(tokens) = tokens(alloc, text.as_bytes()) else {
        return String::from_str(alloc, "no tokens");
    };
    let are_within = tokens
        .as_slice()
        .iter()
        .all(|t| t.at.checked_add(t.len).is_some());
    if from > tokens.len() || !are_within {
        return String::from_str(alloc, "no position");
    }
    match expr_at(alloc, tokens.as_slice(), from) {
        Ok((expr, to)) => format!(in alloc; "{} to {to}", expr.at),
        Err(ReadRefused::At(at, cause)) => fault(alloc, at, &cause),
        Err(ReadRefused::Memory(e)) => Err(e),
    }
}

fn differing_fronts(alloc: Global) -> Result<String, AllocError> {
    let mut differing = String::new(alloc);
    for (text, from, wanted) in fronts::FRONTS {
        compare(&mut differing, text, wanted, &front(alloc, text, *from)?)?;
    }
    for (before, middle, count, wanted) in fronts::LIMITS {
        let repeat = Repeat {
            head: "",
            before,
            middle,
            after: "",
            count: *count,
        };
        let text = repeated(alloc, &repeat)?;
        compare(&mut differing, before, wanted, &front(alloc, &text, 0)?)?;
    }
    Ok(differing)
}

#[test]
fn tokens_begin_with_the_longest_expression(rt: HostRuntime) -> Result<(), RowsDiffer> {
    judged(differing_fronts(rt.alloc()))
}
