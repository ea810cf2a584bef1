//! What a file declares, with its names at hand.

ghost use Rattle.std.specs.Prelude.{◌≡◌, find, is_some, filter, map, IfOk};
ghost use Rattle.std.specs.Option.{option_copied, option_map};
ghost use Rattle.c_tree.specs.Lifting as lifting;
ghost use Rattle.c_tree.specs.Scope as scope;
ghost use Rattle.c_tree.specs.Types as types;
ghost use Rattle.name_index.specs.Tables.{names_in, struct_names, field_names, function_names};

use crate::names::names_of;
use c_tree::{Define, Field, Function, Index, Meaning, Name, Named, Program, Struct, at_number};
use std::alloc::{AllocError, Global};
use std::marker::Model;

/// A program whose names are found without a search. Contracts see the program.
pub struct File<'a> {
    program: &'a Program,
    /// All but the names of structs, in text order.
    names: Vec<Named>,
    places: Index,
    structs: Index,
    /// The fields of each struct.
    fields: Vec<Index>,
    /// The functions that have a body.
    defined: Index,
}

impl Drop for File<'_> {
    fn drop(self) {
        let File {
            program: _,
            names: _,
            places: _,
            structs: _,
            fields: _,
            defined: _,
        } = self;
    }
}

impl<'a> Model for File<'a> {
    ghost use Rattle.c_tree.specs.declared.program.Program.{Program};
    ghost use Rattle.c_tree.specs.contracts.program.Program as p;
    ghost use Rattle.std.specs.Coded.{codes};

    ghost Value = { Program };

    ghost coded = { Prim.hlevel (codes, p.the_row.coded) };

    ghost use Rattle.name_index.specs.Tables.{IsTableOf};

    ghost view = { λ f. f.program.now };

    ghost invariant = { λ f. IsTableOf f.program.now f.names.items f.places f.structs f.fields.items
        f.defined };
}

impl<'a> File<'a> {
    /// The program with tables of its names.
    pub fn of(alloc: Global, program: &'a Program) -> Result<File<'a>, AllocError>
        ensures { IfOk result (λ f. f ≡ program.now) }
    {
        let names = names_of(alloc, program)?;
        let places = places_of(alloc, names.as_slice())?;
        Ok(File {
            program,
            names,
            places,
            structs: structs_of(alloc, program.structs.as_slice())?,
            fields: fields_of_all(alloc, program.structs.as_slice())?,
            defined: defined_of(alloc, program.functions.as_slice())?,
        })
    }

    /// The program itself.
    pub fn program(&self) -> &'a Program
        ensures { result.now ≡ self.now }
    {
        self.program
    }

    /// The names but for those of structs, in text order.
    pub fn names(&self) -> &[Named]
        ensures { result.now ≡ scope.names_of self.now }
    {
        self.names.as_slice()
    }

    /// The first declaration of a name.
    pub fn named(&self, name: &Name) -> Option<&Named>
        ensures { option_copied result ≡ find (scope.has_name name.now) (scope.names_of self.now) }
    {
        at_number(&self.places, name, self.names.as_slice())
    }

    /// What a name stands for outside all functions.
    pub fn meaning(&self, name: &Name) -> Meaning
        ensures { result ≡ scope.meaning (scope.file_scope self.now) name.now }
    {
        match self.named(name) {
            Some(named) => named.meaning,
            None => Meaning::Nothing,
        }
    }

    /// The define that a name stands for.
    pub fn define(&self, what: Meaning) -> Option<&'a Define>
        ensures { option_copied result ≡ types.define self.now what }
    {
        match what {
            Meaning::Constant(i) => self.program.defines.as_slice().get(i as usize),
            _ => None,
        }
    }

    /// The first struct of a name.
    pub fn struct_named(&self, name: &Name) -> Option<&Struct>
        ensures { option_copied result
            ≡ scope.struct_named (scope.file_scope self.now) name.now }
    {
        at_number(&self.structs, name, self.program.structs.as_slice())
    }

    /// A struct's place among the structs, and 0 where there is no such struct.
    pub fn struct_number(&self, name: &Name) -> u32
        ensures { result ≡ lifting.struct_number self.now name.now }
    {
        self.structs.number(name).unwrap_or(0)
    }

    /// The names of the fields of a struct.
    fn fields_of(&self, owner: &Name) -> Option<&Index>
        ensures { option_copied result
            ≡ option_map field_names (scope.struct_named (scope.file_scope self.now) owner.now) }
    {
        at_number(&self.structs, owner, self.fields.as_slice())
    }

    /// The field of a struct.
    pub fn field(&self, owner: &Name, name: &Name) -> Option<&Field>
        ensures { option_copied result
            ≡ scope.field_named (scope.struct_named (scope.file_scope self.now) owner.now)
            name.now }
    {
        match (self.struct_named(owner), self.fields_of(owner)) {
            (Some(owner), Some(fields)) => at_number(fields, name, owner.fields.as_slice()),
            _ => None,
        }
    }

    /// Whether a function of this name has a body.
    pub fn is_defined(&self, name: &Name) -> bool
        ensures { result ≡ scope.is_defined self.now name.now }
    {
        self.defined.number(name).is_some()
    }

    /// A function's place among those that have a body, and 0 where there is no such function.
    pub fn function_number(&self, name: &Name) -> u32
        ensures { result ≡ lifting.function_number self.now name.now }
    {
        self.defined.number(name).unwrap_or(0)
    }
}

fn places_of(alloc: Global, names: &[Named]) -> Result<Index, AllocError>
    ensures { IfOk result (λ s. s ≡ names_in names.now) }
{
    let mut places = Index::new(alloc);
    for named in names {
        places = places.with(&named.name)?;
    }
    Ok(places)
}

fn structs_of(alloc: Global, structs: &[Struct]) -> Result<Index, AllocError>
    ensures { IfOk result (λ s. s ≡ struct_names structs.now) }
{
    let mut names = Index::new(alloc);
    for owner in structs {
        names = names.with(&owner.name.it)?;
    }
    Ok(names)
}

fn fields_of(alloc: Global, owner: &Struct) -> Result<Index, AllocError>
    ensures { IfOk result (λ s. s ≡ field_names owner.now) }
{
    let mut names = Index::new(alloc);
    for field in owner.fields.as_slice() {
        names = names.with(&field.name.it)?;
    }
    Ok(names)
}

fn fields_of_all(alloc: Global, structs: &[Struct]) -> Result<Vec<Index>, AllocError>
    ensures { IfOk result (λ v. v.items ≡ map field_names structs.now) }
{
    let mut all = Vec::new(alloc);
    for owner in structs {
        all.push(fields_of(alloc, owner)?)?;
    }
    Ok(all)
}

fn defined_of(alloc: Global, functions: &[Function]) -> Result<Index, AllocError>
    ensures { IfOk result (λ s. s
        ≡ function_names (filter (λ f. is_some f.body) functions.now)) }
{
    let mut names = Index::new(alloc);
    for function in functions {
        if function.body.is_some() {
            names = names.with(&function.name.it)?;
        }
    }
    Ok(names)
}
