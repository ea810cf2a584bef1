//! The numbers of names in a list.

ghost use Rattle.std.specs.Prelude.{◌≡◌, ℕ, List, [], ◌∷◌, ◌++◌, length, IfOk, OnOk};
ghost use Rattle.std.specs.Option.{option_copied};
ghost use Rattle.c_tree.specs.Names.{find_name};
ghost use Rattle.c_tree.specs.Numbers.{GivesNumbers, item_at};

use crate::number::narrowed;
use crate::text::Name;
use indexmap::IndexMap;
use std::alloc::{AllocError, Global};
use std::marker::Model;

/// Names in order, with the first number of each at hand. Contracts see the list of the names.
pub struct Index {
    names: Vec<Name>,
    numbers: IndexMap<Name, u32>,
}

impl Drop for Index {
    fn drop(self) {
        let Index {
            names: _,
            numbers: _,
        } = self;
    }
}

impl Model for Index {
    ghost use Rattle.std.specs.Prelude.{ℕ, List};
    ghost use Rattle.c_tree.specs.Numbers.{GivesNumbers};

    ghost Value = { List (List ℕ) };

    ghost view = { λ s. s.names.items };

    ghost invariant = { λ s. GivesNumbers s.numbers s.names.items };
}

impl Index {
    /// A list without names.
    pub fn new(alloc: Global) -> Index
        ensures { result ≡ [] }
    {
        Index {
            names: Vec::new(alloc),
            numbers: IndexMap::new(alloc),
        }
    }

    /// The names with one more at the end. A list of more than 4,294,967,295 names counts as want
    /// of memory.
    pub fn with(self, name: &Name) -> Result<Index, AllocError>
        ensures { IfOk result (λ s. s ≡ self ++ name.now ∷ []) }
    {
        let Index {
            mut names,
            mut numbers,
        } = self;
        let at = narrowed(names.len())?;
        add_number(&mut numbers, name, at)?;
        names.push(name.clone()?)?;
        Ok(Index { names, numbers })
    }

    /// The names in their order.
    pub fn names(&self) -> &[Name]
        ensures { result.now ≡ self.now }
    {
        self.names.as_slice()
    }

    /// The first number of a name.
    pub fn number(&self, name: &Name) -> Option<u32>
        ensures { result ≡ find_name name.now self.now }
    {
        self.numbers.get(name).copied()
    }
}

/// What stands at the first number of a name, in a row beside the names.
pub fn at_number<'a, T>(numbers: &Index, name: &Name, items: &'a [T]) -> Option<&'a T>
    ensures { option_copied result ≡ item_at (find_name name.now numbers.now) items.now }
{
    match numbers.number(name) {
        Some(i) => items.get(i as usize),
        None => None,
    }
}

/// Adds the number of a name that follows those of the table.
fn add_number(numbers: &mut IndexMap<Name, u32>, name: &Name, at: u32) -> Result<(), AllocError>
    ensures { OnOk result ((names : List (List ℕ)) → GivesNumbers numbers.old names
        → at ≡ length names → GivesNumbers numbers.new (names ++ name.now ∷ [])) }
{
    match numbers.get(name) {
        Some(_) => Ok(()),
        None => {
            numbers.insert(name.clone()?, at)?;
            Ok(())
        }
    }
}
