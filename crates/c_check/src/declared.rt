//! Names that a file declares a second time, and the structs of a file.

ghost use Rattle.std.specs.Prelude.{◌≡◌, [], ◌∷◌, ◌++◌, not, reverse, take, filter, find, Option, Some, None, map, IfOk, OnOk};
ghost use Rattle.std.specs.List.{list_any};
ghost use Rattle.std.specs.Option.{option_copied};
ghost use Rattle.c_tree.specs.Fault.{fault, unless};
ghost use Rattle.c_tree.specs.declared.cause.CheckCause.TheVariants as cause;
ghost use Rattle.c_tree.specs.Scope as scope;
ghost use Rattle.c_tree.specs.Typing as typing;
ghost use Rattle.c_check.specs.Words.{noted};
ghost use Rattle.c_check.specs.Files.{seconds, of_fields, of_struct, of_structs, repeats, may_stand};

use crate::note::{note_twice, note_unless};
use crate::structs::note_type;
use c_tree::{At, Fault, Field, Index, Name, Struct};
use name_index::File;
use std::alloc::{AllocError, Global};

/// Notes a name that stands a second time, and adds it to those before.
fn with_name(seen: Index, name: &At<Name>, first: &mut Option<Fault>) -> Result<Index, AllocError>
    ensures seen { IfOk result (λ s. s ≡ seen ++ name.now.it ∷ []) }
    ensures faults { OnOk result (first.new ≡ noted first.old
        (unless (not (list_any (scope.is_same_name name.now.it) (reverse seen)))
        (fault name.now.at (cause.Twice name.now.it)))) }
{
    let is_second = seen.number(&name.it).is_some();
    note_twice(first, is_second, name.at, &name.it)?;
    let seen = seen.with(&name.it)?;
    Ok(seen)
}

/// Notes each struct whose name stands a second time.
pub fn second_structs(
    alloc: Global,
    structs: &[Struct],
    first: &mut Option<Fault>,
) -> Result<(), AllocError>
    ensures { OnOk result (first.new ≡ noted first.old
        (seconds [] (map (λ d. d.name) structs.now))) }
{
    let mut seen = Index::new(alloc);
    for owner in structs {
        seen = with_name(seen, &owner.name, first)?;
    }
    Ok(())
}

/// Notes each field whose name stands a second time in its struct.
fn second_fields(
    alloc: Global,
    fields: &[Field],
    first: &mut Option<Fault>,
) -> Result<(), AllocError>
    ensures { OnOk result (first.new ≡ noted first.old
        (seconds [] (map (λ f. f.name) fields.now))) }
{
    let mut seen = Index::new(alloc);
    for field in fields {
        seen = with_name(seen, &field.name, first)?;
    }
    Ok(())
}

/// Notes the structs in the types of fields that are not declared.
fn field_types(
    fields: &[Field],
    file: &File<'_>,
    first: &mut Option<Fault>,
) -> Result<(), AllocError>
    ensures { OnOk result (first.new ≡ noted first.old (of_fields file.now fields.now)) }
{
    for field in fields {
        note_type(field.name.at, &field.ty, file, first)?;
    }
    Ok(())
}

#[tactic(auto, using(crate::proofs::FileLemmas::struct_rules))]
fn fields(
    alloc: Global,
    owner: &Struct,
    file: &File<'_>,
    first: &mut Option<Fault>,
) -> Result<(), AllocError>
    ensures { OnOk result (first.new ≡ noted first.old (of_struct file.now owner.now)) }
{
    second_fields(alloc, owner.fields.as_slice(), first)?;
    field_types(owner.fields.as_slice(), file, first)?;
    Ok(())
}

/// Notes the faults of the fields of all structs.
pub fn structs(
    alloc: Global,
    structs: &[Struct],
    file: &File<'_>,
    first: &mut Option<Fault>,
) -> Result<(), AllocError>
    ensures { OnOk result (first.new ≡ noted first.old (of_structs file.now structs.now)) }
{
    for owner in structs {
        fields(alloc, owner, file, first)?;
    }
    Ok(())
}
