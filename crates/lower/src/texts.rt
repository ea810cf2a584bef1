//! The numbers of the texts that are printed.

ghost use Rattle.std.specs.Prelude.{◌≡◌, ◌++◌, length, IfOk, OnOk};
ghost use Rattle.c_tree.specs.declared.place.Act.TheVariants.{Do};
ghost use Rattle.target_code.specs.Code as code;
ghost use Rattle.lower.specs.Numbers as spec;

use crate::size::MANY;
use c_tree::{Act, LStmt, Place, Text};
use std::alloc::{AllocError, Global};

/// The numbers of the texts that a function prints.
#[derive(Clone, Copy)]
pub struct Numbers<'a> {
    /// Of each place, how many texts are printed at places before it.
    pub at: &'a [u32],
    /// How many texts are printed at all of them.
    pub past: u32,
}

impl Numbers<'_> {
    ghost use Rattle.lower.specs.Texts as kept;

    /// The number of the text that is printed at place `n`, where one is.
    pub fn number(&self, n: u32) -> u32
        ensures { result ≡ kept.number self.now n }
    {
        match self.at.get(n as usize) {
            Some(number) => *number,
            None => self.past,
        }
    }
}

/// Appends the text that is printed at a place, where one is.
fn put_text(act: &Act, texts: &mut Vec<Text>) -> Result<(), AllocError>
    ensures { OnOk result (texts.new.items ≡ texts.old.items ++ code.texts_at act.now) }
{
    match act {
        Act::Enter => Ok(()),
        Act::Do(s) => put_printed(s, texts),
        Act::Test(_) => Ok(()),
        Act::EndLoop => Ok(()),
        Act::Finish => Ok(()),
    }
}

/// Appends the text that a statement prints, where it prints one.
fn put_printed(s: &LStmt, texts: &mut Vec<Text>) -> Result<(), AllocError>
    ensures { OnOk result (texts.new.items ≡ texts.old.items ++ code.texts_at (Do s.now)) }
{
    match s {
        LStmt::Print(text, _) => {
            texts.push(text.clone()?)?;
            Ok(())
        }
        LStmt::Assign(_, _) => Ok(()),
        LStmt::New(_, _) => Ok(()),
        LStmt::Getc(_) => Ok(()),
        LStmt::Free(_) => Ok(()),
        LStmt::Call(_, _, _) => Ok(()),
        LStmt::Spawn(_, _, _) => Ok(()),
        LStmt::Join(_) => Ok(()),
        LStmt::Lock(_) => Ok(()),
        LStmt::Unlock(_) => Ok(()),
        LStmt::Return(_) => Ok(()),
        LStmt::If(_, _, _) => Ok(()),
        LStmt::Loop(_, _, _, _) => Ok(()),
        LStmt::Break => Ok(()),
        LStmt::Continue => Ok(()),
    }
}

/// A count or a position in 32 bits.
///
/// # Errors
///
/// One that has no room in 32 bits counts as want of memory.
pub fn narrow(n: u64) -> Result<u32, AllocError>
    ensures { IfOk result (λ m. m ≡ n) }
{
    if n < MANY {
        Ok(n as u32)
    } else {
        Err(AllocError)
    }
}

/// Appends the texts that are printed at places, and gives each place the number of those before.
pub fn number_texts(
    alloc: Global,
    row: &[Place],
    texts: &mut Vec<Text>,
) -> Result<Vec<u32>, AllocError>
    ensures numbers { IfOk result (λ numbers. numbers.items
        ≡ spec.numbers_from (length texts.old.items) row.now) }
    ensures texts { OnOk result (texts.new.items ≡ texts.old.items ++ code.texts_in row.now) }
{
    let mut numbers = Vec::new(alloc);
    'places: for n in 0..row.len() {
        numbers.push(narrow(texts.len() as u64)?)?;
        put_text(&row[n].act, texts)?;
    }
    Ok(numbers)
}
