//! The code of functions and of a program.

ghost use Rattle.std.specs.Prelude.{◌≡◌, ◌≤◌, ◌+◌, ◌++◌, ◌∷◌, [], length, map, pos, IfOk, OnOk};
ghost use Rattle.c_tree.specs.Formed.{IsFormed};
ghost use Rattle.c_tree.specs.Layout.{places, size_of};
ghost use Rattle.c_tree.specs.declared.place.Act.TheVariants.{Enter, Finish};
ghost use Rattle.target_code.specs.Code as spec;
ghost use Rattle.target_code.specs.declared.instr.Instr.TheVariants as instr;
ghost use Rattle.lower.specs.Texts.{number};

use crate::blocks::block_size;
use crate::calls::put_calls;
use crate::expressions::put;
use crate::marks::{mark, mark_block};
use crate::size::MANY;
use crate::statements::put_block;
use crate::texts::{Numbers, narrow, number_texts};
use c_tree::{Exits, LFunction, LStmt, Lifted, Place, Row, Text};
use frame_transform::Target;
use std::alloc::{AllocError, Global};
use target_code::{CallSpot, Code, CodeFunction, Instr};

/// The position of the implied return behind a block.
///
/// # Errors
///
/// Where there are more positions than 32 bits have, as where memory is wanted.
fn last_position(block: &[LStmt]) -> Result<u32, AllocError>
    requires { size_of block.now ≤ 10000 }
    ensures value { IfOk result (λ last. last ≡ 3 + spec.block_size block.now) }
    ensures room { IfOk result (λ last. last ≤ 4294967290) }
{
    let size = block_size(block);
    if size < MANY - 8 {
        Ok((size + 3) as u32)
    } else {
        Err(AllocError)
    }
}

/// Appends what stands before a function's statements.
fn put_entry(out: &mut Vec<Instr>) -> Result<(), AllocError>
    ensures { OnOk result (out.new.items ≡ out.old.items
        ++ instr.Restore ∷ instr.Mark 0 ∷ instr.Flag 0 ∷ []) }
{
    out.extend_from_slice(&[Instr::Restore, Instr::Mark(0), Instr::Flag(0)])
}

/// Appends the implied return, which is place `n`.
fn put_return(n: u32, out: &mut Vec<Instr>) -> Result<(), AllocError>
    ensures { OnOk result (out.new.items ≡ out.old.items
        ++ instr.Mark n ∷ instr.Const (pos 0) ∷ instr.Ret ∷ []) }
{
    out.extend_from_slice(&[Instr::Mark(n), Instr::Const(0), Instr::Ret])
}

/// The instructions of a function before its rebuilding parts, whose implied return is at a
/// position.
fn own_code(
    alloc: Global,
    numbers: &Numbers<'_>,
    function: &LFunction,
    last: u32,
) -> Result<Vec<Instr>, AllocError>
    requires within { size_of function.now.body + 2 ≤ 10000 }
    requires last { last ≡ spec.last_of function.now }
    ensures { IfOk result (λ body. body.items ≡ instr.Restore
        ∷ (spec.act_code (number numbers.now) 1 0 Enter
        ++ (spec.block_code (number numbers.now) (spec.outside function.now) 3 1 function.now.body
        ++ spec.act_code (number numbers.now) (spec.last_of function.now)
        (1 + size_of function.now.body) Finish))) }
{
    let block = function.body.as_slice();
    let outside = Exits {
        leave: last,
        again: last,
    };
    let mut body = Vec::new(alloc);
    put_entry(&mut body)?;
    let finish = put_block(numbers, outside, 3, 1, block, &mut body)?;
    put_return(finish.place, &mut body)?;
    Ok(body)
}

/// The position of the mark of each place of a function, whose implied return is at a position.
fn marks_of(alloc: Global, function: &LFunction, last: u32) -> Result<Vec<u32>, AllocError>
    requires within { size_of function.now.body + 2 ≤ 10000 }
    requires last { last ≡ spec.last_of function.now }
    ensures { IfOk result (λ marks. marks.items ≡ spec.marks function.now) }
{
    let mut marks = Vec::new(alloc);
    mark(1, &mut marks)?;
    mark_block(3, function.body.as_slice(), &mut marks)?;
    mark(last, &mut marks)?;
    Ok(marks)
}

/// The code of a function with these places, where its texts have these numbers.
fn code_with(
    alloc: Global,
    program: &Lifted,
    function: &LFunction,
    row: &[Place],
    numbers: &Numbers<'_>,
) -> Result<CodeFunction, AllocError>
    requires within { size_of function.now.body + 2 ≤ 10000 }
    requires places { row.now ≡ places function.now }
    ensures { IfOk result (λ code. code
        ≡ spec.function_code program.now (number numbers.now) function.now) }
{
    let last = last_position(function.body.as_slice())?;
    let mut body = own_code(alloc, numbers, function, last)?;
    let marks = marks_of(alloc, function, last)?;
    let mut calls = Vec::new(alloc);
    put_calls(
        program,
        row,
        marks.as_slice(),
        last + 3,
        &mut body,
        &mut calls,
    )?;
    Ok(CodeFunction {
        params: function.params,
        slots: narrow(function.slots.len() as u64)?,
        body: Row::from_vec(body),
        marks: Row::from_vec(marks),
        calls: Row::from_vec(calls),
    })
}

/// The code of a function with these places; its texts are put behind those of earlier functions.
fn lower_function(
    alloc: Global,
    program: &Lifted,
    function: &LFunction,
    row: &[Place],
    texts: &mut Vec<Text>,
) -> Result<CodeFunction, AllocError>
    requires within { size_of function.now.body + 2 ≤ 10000 }
    requires places { row.now ≡ places function.now }
    ensures code { IfOk result (λ code. code ≡ spec.function_code program.now
        (spec.text_number function.now (length texts.old.items)) function.now) }
    ensures texts { OnOk result (texts.new.items
        ≡ texts.old.items ++ spec.texts_in (places function.now)) }
{
    let at = number_texts(alloc, row, texts)?;
    let past = narrow(texts.len() as u64)?;
    let numbers = Numbers {
        at: at.as_slice(),
        past,
    };
    code_with(alloc, program, function, row, &numbers)
}

/// The code of a program with its numbered places. It takes time in proportion to the program's
/// size and, since jumps go past what isn't put yet, looks at a statement or a right side of `&&`
/// or `||` once more for each level of nesting around it, of which sources have at most 100.
///
/// # Errors
///
/// Want of memory; a function with more instructions than 32 bits count has none either.
pub fn lower(alloc: Global, target: &Target) -> Result<Code, AllocError>
    requires formed { IsFormed target.now.program }
    requires placed { target.now.places.functions ≡ map places target.now.program.functions }
    ensures { IfOk result (λ code. code ≡ spec.code_of target.now.program) }
{
    let functions = target.program.functions.as_slice();
    let rows = target.places.functions.as_slice();
    let mut texts = Vec::new(alloc);
    let mut codes = Vec::new(alloc);
    'functions: for f in 0..functions.len() {
        let row = rows[f].as_slice();
        let code = lower_function(alloc, &target.program, &functions[f], row, &mut texts)?;
        codes.push(code)?;
    }
    Ok(Code::of(Row::from_vec(codes), Row::from_vec(texts)))
}
