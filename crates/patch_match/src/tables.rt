//! A program, and where its names are found.

ghost use Rattle.std.specs.Prelude.{◌≡◌, [], length, map, slice_get, slice_index_or, IfOk};
ghost use Rattle.std.specs.Option.{option_copied};
ghost use Rattle.c_tree.specs.Names as spec;
ghost use Rattle.c_tree.specs.Step.{function_of};

use c_tree::{Index, LFunction, LGlobal, LStruct, Lifted, Name, Slot};
use std::alloc::{AllocError, Global};
use std::marker::Model;

/// A program with the numbers of its names. Contracts see the program.
pub struct Tables<'a> {
    program: &'a Lifted,
    functions: Index,
    structs: Index,
    globals: Index,
    mutexes: Index,
    /// The slots of each function.
    slots: Vec<Index>,
    /// The fields of each struct.
    fields: Vec<Index>,
}

impl<'a> Model for Tables<'a> {
    ghost use Rattle.std.specs.Prelude.{◌≡◌, map};
    ghost use Rattle.std.specs.Coded.{codes};
    ghost use Rattle.c_tree.specs.Names.{names_in, slot_names};
    ghost use Rattle.c_tree.specs.declared.lifted.Lifted.{Lifted};
    ghost use Rattle.c_tree.specs.contracts.lifted.Lifted as lifted;

    ghost Value = { Lifted };

    ghost coded = { Prim.hlevel (codes, lifted.the_row.coded) };

    ghost view = { λ t. t.program.now };

    ghost invariant = { λ t.
        (t.functions ≡ names_in t.program.now 0)
        × (t.structs ≡ names_in t.program.now 1)
        × (t.globals ≡ names_in t.program.now 2)
        × (t.mutexes ≡ names_in t.program.now 3)
        × (t.slots.items ≡ map (λ f. slot_names f.slots) t.program.now.functions)
        × (t.fields.items ≡ map (λ s. slot_names s.fields) t.program.now.structs) };
}

impl Drop for Tables<'_> {
    fn drop(self) {
        let Tables {
            program: _,
            functions: _,
            structs: _,
            globals: _,
            mutexes: _,
            slots: _,
            fields: _,
        } = self;
    }
}

impl<'a> Tables<'a> {
    /// The program with tables of its names. More than 4,294,967,295 names of a kind count as want
    /// of memory.
    pub fn of(alloc: Global, program: &'a Lifted) -> Result<Tables<'a>, AllocError>
        ensures { IfOk result (λ t. t ≡ program.now) }
    {
        Ok(Tables {
            program,
            functions: function_names(alloc, program.functions.as_slice())?,
            structs: struct_names(alloc, program.structs.as_slice())?,
            globals: global_names(alloc, program.globals.as_slice())?,
            mutexes: mutex_names(alloc, program.mutexes.as_slice())?,
            slots: names_of_slots(alloc, program.functions.as_slice())?,
            fields: names_of_fields(alloc, program.structs.as_slice())?,
        })
    }

    /// The program itself.
    pub fn program(&self) -> &'a Lifted
        ensures { result.now ≡ self.now }
    {
        self.program
    }

    /// The number of a name among those of a kind: 0 for functions, 1 for structs, 2 for globals,
    /// 3 for mutexes.
    pub fn number(&self, kind: u8, name: &Name) -> Option<u32>
        ensures { result ≡ spec.find_name name.now (spec.names_in self.now kind) }
    {
        match kind {
            0 => self.functions.number(name),
            1 => self.structs.number(name),
            2 => self.globals.number(name),
            _ => self.mutexes.number(name),
        }
    }

    /// The names of a kind.
    pub fn names(&self, kind: u8) -> &[Name]
        ensures { result.now ≡ spec.names_in self.now kind }
    {
        match kind {
            0 => self.functions.names(),
            1 => self.structs.names(),
            2 => self.globals.names(),
            _ => self.mutexes.names(),
        }
    }

    /// The number of a slot's name in a function.
    pub fn slot(&self, function: u32, name: &Name) -> Option<u32>
        ensures { result ≡ spec.find_name name.now
            (spec.slot_names (function_of self.now function).slots) }
    {
        match self.slots.get(function as usize) {
            Some(names) => names.number(name),
            None => None,
        }
    }

    /// The slots of a function.
    pub fn slots(&self, function: u32) -> &[Slot]
        ensures { result.now ≡ (function_of self.now function).slots }
    {
        match self.program.functions.as_slice().get(function as usize) {
            Some(found) => found.slots.as_slice(),
            None => &[],
        }
    }

    /// The name of a struct.
    pub fn struct_name(&self, owner: u32) -> &[u8]
        ensures { result.now ≡ (spec.struct_of self.now owner).name }
    {
        match self.program.structs.as_slice().get(owner as usize) {
            Some(found) => found.name.as_bytes(),
            None => &[],
        }
    }

    /// The fields of a struct.
    pub fn fields(&self, owner: u32) -> &[Slot]
        ensures { result.now ≡ (spec.struct_of self.now owner).fields }
    {
        match self.program.structs.as_slice().get(owner as usize) {
            Some(found) => found.fields.as_slice(),
            None => &[],
        }
    }

    /// The number of a field's name in a struct.
    pub fn field(&self, owner: u32, name: &Name) -> Option<u32>
        ensures { result ≡ spec.find_name name.now
            (spec.slot_names (spec.struct_of self.now owner).fields) }
    {
        match self.fields.get(owner as usize) {
            Some(names) => names.number(name),
            None => None,
        }
    }
}

fn function_names(alloc: Global, functions: &[LFunction]) -> Result<Index, AllocError>
    ensures { IfOk result (λ names. names ≡ map (λ x. x.name) functions.now) }
{
    let mut names = Index::new(alloc);
    for function in functions {
        names = names.with(&function.name)?;
    }
    Ok(names)
}

fn struct_names(alloc: Global, structs: &[LStruct]) -> Result<Index, AllocError>
    ensures { IfOk result (λ names. names ≡ map (λ x. x.name) structs.now) }
{
    let mut names = Index::new(alloc);
    for each in structs {
        names = names.with(&each.name)?;
    }
    Ok(names)
}

fn global_names(alloc: Global, globals: &[LGlobal]) -> Result<Index, AllocError>
    ensures { IfOk result (λ names. names ≡ map (λ x. x.name) globals.now) }
{
    let mut names = Index::new(alloc);
    for global in globals {
        names = names.with(&global.name)?;
    }
    Ok(names)
}

fn mutex_names(alloc: Global, mutexes: &[Name]) -> Result<Index, AllocError>
    ensures { IfOk result (λ names. names ≡ mutexes.now) }
{
    let mut names = Index::new(alloc);
    for mutex in mutexes {
        names = names.with(mutex)?;
    }
    Ok(names)
}

fn slot_names(alloc: Global, slots: &[Slot]) -> Result<Index, AllocError>
    ensures { IfOk result (λ names. names ≡ spec.slot_names slots.now) }
{
    let mut names = Index::new(alloc);
    for slot in slots {
        names = names.with(&slot.name)?;
    }
    Ok(names)
}

fn names_of_slots(alloc: Global, functions: &[LFunction]) -> Result<Vec<Index>, AllocError>
    ensures { IfOk result (λ rows. rows.items ≡
        map (λ f. spec.slot_names f.slots) functions.now) }
{
    let mut rows = Vec::new(alloc);
    for function in functions {
        rows.push(slot_names(alloc, function.slots.as_slice())?)?;
    }
    Ok(rows)
}

fn names_of_fields(alloc: Global, structs: &[LStruct]) -> Result<Vec<Index>, AllocError>
    ensures { IfOk result (λ rows. rows.items ≡
        map (λ s. spec.slot_names s.fields) structs.now) }
{
    let mut rows = Vec::new(alloc);
    for each in structs {
        rows.push(slot_names(alloc, each.fields.as_slice())?)?;
    }
    Ok(rows)
}
