//! The check of a whole program.

ghost use Rattle.std.specs.Prelude.{◌≡◌, IfOk, IfErr, OnOk};
ghost use Rattle.c_tree.specs.ReadForm.{HasReadForm};
ghost use Rattle.c_tree.specs.Typing as typing;
ghost use Rattle.c_tree.specs.Typing.{IsWellTyped};
ghost use Rattle.c_check.specs.Refusal.{IsRefusal};
ghost use Rattle.c_check.specs.Words.{noted};
ghost use Rattle.c_check.specs.Files.{of_declarations, of_main, of_routines};

use crate::declared::{second_structs, structs};
use crate::function::{functions, too_many};
use crate::global::globals;
use crate::note::note_unless;
use crate::refusal::CheckRefused;
use crate::repeats::repeated_names;
use c_tree::{CheckCause, Checked, Fault, Program, Text};
use name_index::File;
use std::alloc::{AllocError, Global};

/// Gives a program that was read back as one that is well typed, or says what its first fault is:
/// the one of the smallest offset, and at one offset that of the first cause in the order of
/// `CheckCause`.
pub fn check(alloc: Global, program: Program) -> Result<Checked, CheckRefused>
    requires { HasReadForm program }
    ensures ok { IfOk result (λ c. c ≡ program) }
    ensures well_typed { OnOk result (IsWellTyped program) }
    ensures refused { IfErr result (IsRefusal program) }
{
    match first_fault(alloc, &program) {
        Ok(None) => Ok(Checked::of(program)),
        Ok(Some(fault)) => {
            let Fault { at, rank: _, cause } = fault;
            Err(CheckRefused::At(at, cause))
        }
        Err(error) => Err(CheckRefused::Memory(error)),
    }
}

/// The first fault of a program.
#[tactic(auto, using(crate::proofs::CheckLemmas::joined))]
fn first_fault(alloc: Global, program: &Program) -> Result<Option<Fault>, AllocError>
    ensures { IfOk result (λ f. f ≡ typing.first_fault program.now) }
{
    let file = File::of(alloc, program)?;
    let mut first = None;
    declarations(alloc, &file, &mut first)?;
    routines(alloc, &file, &mut first)?;
    Ok(first)
}

/// Notes the faults of structs and globals, and of names that a file declares again.
#[tactic(auto, using(crate::proofs::CheckLemmas::whole))]
fn declarations(alloc: Global, file: &File<'_>, first: &mut Option<Fault>) -> Result<(), AllocError>
    ensures { OnOk result (first.new ≡ noted first.old (of_declarations file.now)) }
{
    let program = file.program();
    second_structs(alloc, program.structs.as_slice(), first)?;
    structs(alloc, program.structs.as_slice(), file, first)?;
    repeated_names(alloc, file, first)?;
    globals(program.globals.as_slice(), file, first)
}

/// Notes the faults of functions.
#[tactic(auto, using(crate::proofs::CheckLemmas::whole))]
fn routines(alloc: Global, file: &File<'_>, first: &mut Option<Fault>) -> Result<(), AllocError>
    ensures { OnOk result (first.new ≡ noted first.old (of_routines file.now)) }
{
    let program = file.program();
    too_many(program.functions.as_slice(), first);
    functions(alloc, program.functions.as_slice(), file, first)?;
    has_main(alloc, file, first)
}

/// Notes that no function `main` is defined.
#[tactic(auto, unfolding(crate::specs::Files::of_main))]
fn has_main(alloc: Global, file: &File<'_>, first: &mut Option<Fault>) -> Result<(), AllocError>
    ensures { OnOk result (first.new ≡ noted first.old (of_main file.now)) }
{
    let main = Text::from_vec(b"main".to_vec(alloc)?);
    let is_there = file.is_defined(&main);
    note_unless(first, is_there, file.program().len, CheckCause::NoMain);
    Ok(())
}
