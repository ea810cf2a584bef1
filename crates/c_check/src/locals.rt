//! The names and the slots that a function has declared so far.

ghost use Rattle.std.specs.Prelude.{◌≡◌, ◌≤◌, ◌-◌, ℕ, List, [], ◌∷◌, cond, find, length, take, drop, nat_eq, slice_get, None, OnOk, OnErr};
ghost use Rattle.std.specs.List.{list_any};
ghost use Rattle.std.specs.Option.{option_copied, option_map};
ghost use Rattle.std.specs.Cmp.Lexicographic.{pointwise};
ghost use Rattle.c_tree.specs.Scope.{has_name};

use c_tree::{Meaning, Name, Named, Ty, narrowed};
use indexmap::IndexMap;
use std::alloc::{AllocError, Global};
use std::marker::Model;

/// A name, and the place of the nearest of the same name before it.
#[derive(Drop)]
struct Entry {
    named: Named,
    before: Option<usize>,
}

/// How many names could be used, and how many of them the innermost block had declared.
#[derive(Clone, Copy)]
pub struct Mark {
    pub names: usize,
    pub block: usize,
}

/// Contracts see the names that can be used, the nearest first, and the types of all slots.
pub struct Locals {
    /// The nearest last.
    entries: Vec<Entry>,
    /// How many of them the innermost block has declared.
    block: usize,
    /// The place of the nearest of each name, if there is one.
    heights: IndexMap<Name, Option<usize>>,
    slots: Vec<Ty>,
}

impl Drop for Locals {
    fn drop(self) {
        let Locals {
            entries: _,
            block: _,
            heights: _,
            slots: _,
        } = self;
    }
}

impl Model for Locals {
    ghost use Rattle.std.specs.Prelude.{reverse};
    ghost use Rattle.c_check.specs.Inner.{Inner};

    ghost Value = { Inner };

    ghost use Rattle.c_check.specs.Stack.{IsStackOf, named_by};

    ghost view = { λ l. record {
      names = named_by (reverse l.entries.items);
      block = l.block;
      slots
          = l.slots.items;
    } };

    ghost invariant = { λ l. IsStackOf l.heights (reverse l.entries.items) l.block };
}

impl Locals {
    ghost use Rattle.c_check.specs.Inner.{cut, declares, entered, left};
    ghost use Rattle.name_index.specs.Meanings.{meaning_of};

    /// No names, in the outermost block of a function.
    pub fn new(alloc: Global) -> Locals
        ensures { result ≡ record { names = []; block = 0; slots = [] } }
    {
        Locals {
            entries: Vec::new(alloc),
            block: 0,
            heights: IndexMap::new(alloc),
            slots: Vec::new(alloc),
        }
    }

    /// The number of names that can be used, and how many of them the innermost block has declared.
    pub fn mark(&self) -> Mark
        ensures names { result.names ≡ length self.now.names }
        ensures block { result.block ≡ self.now.block }
        ensures within { result.block ≤ result.names }
    {
        Mark {
            names: self.entries.len(),
            block: self.block,
        }
    }

    fn len(&self) -> usize
        ensures { result ≡ length self.now.names }
    {
        self.entries.len()
    }

    /// Begins a block.
    pub fn enter(&mut self)
        ensures { self.new ≡ entered self.old }
    {
        self.block = 0;
    }

    /// The number of parameters and locals so far.
    pub fn slots(&self) -> usize
        ensures { result ≡ length self.now.slots }
    {
        self.slots.len()
    }

    /// The type of a parameter or a local by its number, from 0.
    pub fn slot(&self, i: usize) -> Option<&Ty>
        ensures { option_copied result ≡ slice_get self.now.slots i }
    {
        self.slots.get(i)
    }

    /// What the nearest of a name stands for.
    pub fn nearest(&self, name: &Name) -> Option<Meaning>
        ensures { result ≡ meaning_of (find (has_name name.now) self.now.names) }
    {
        match self.entry(name) {
            Some(entry) => Some(entry.named.meaning),
            None => None,
        }
    }

    fn entry(&self, name: &Name) -> Option<&Entry>
        ensures { option_map (λ e. e.named) (option_copied result)
            ≡ find (has_name name.now) self.now.names }
    {
        entry_of(&self.heights, self.entries.as_slice(), name)
    }

    /// Whether the innermost block has declared a name.
    pub fn is_declared(&self, name: &Name) -> bool
        ensures found { result ≡ list_any (has_name name.now) (take self.now.block self.now.names) }
        ensures within { self.now.block ≤ length self.now.names }
    {
        let start = self.entries.len() - self.block;
        is_from(height_of(&self.heights, name), start)
    }

    /// Declares a local of the innermost block: its name is the nearest from here on.
    pub fn declare(&mut self, at: u32, name: &Name, ty: &Ty) -> Result<(), AllocError>
        ensures { OnOk result (self.new ≡ declares self.old at name.now ty.now) }
    {
        let meaning = Meaning::Local(narrowed(self.slots.len())?);
        let before = height_of(&self.heights, name);
        let key = name.clone()?;
        let named = Named {
            at,
            name: name.clone()?,
            meaning,
        };
        self.entries.reserve(1)?;
        self.slots.push(ty.clone()?)?;
        set_height(&mut self.heights, key, Some(self.entries.len()))?;
        self.entries.push_reserved(Entry { named, before });
        self.block += 1;
        Ok(())
    }

    /// Ends the use of all names that were declared after a mark.
    #[tactic(auto, unfolding(crate::specs::Inner::left))]
    pub fn leave(&mut self, mark: &Mark) -> Result<(), AllocError>
        requires block { mark.now.block ≤ mark.now.names }
        requires names { mark.now.names ≤ length self.old.names }
        ensures { OnOk result (self.new ≡ left mark.now.names mark.now.block self.old) }
    {
        self.block = 0;
        while mark.names < self.len() {
            self.forget()?;
        }
        self.block = mark.block;
        Ok(())
    }

    /// Ends the use of the nearest name.
    fn forget(&mut self) -> Result<(), AllocError>
        requires { self.old.block ≡ 0 }
        ensures { OnOk result (self.new ≡ record
            { names = drop 1 self.old.names; block = 0; slots = self.old.slots }) }
    {
        if let Some(entry) = self.entries.pop() {
            set_height(&mut self.heights, entry.named.name, entry.before)?;
        }
        Ok(())
    }

    /// Takes back all slots but the first `count`.
    #[tactic(auto, unfolding(crate::specs::Inner::cut))]
    pub fn forget_slots(&mut self, count: usize)
        ensures { self.new ≡ cut count self.old }
    {
        self.slots.truncate(count);
    }
}

ghost use Rattle.c_tree.specs.Numbers.{item_at};
ghost use Rattle.c_check.specs.Stack.{height_at, is_at_least};

/// Whether there is a place, and it is not before `start`.
fn is_from(place: Option<usize>, start: usize) -> bool
    ensures { result ≡ is_at_least start place }
{
    match place {
        Some(i) => start <= i,
        None => false,
    }
}

fn entry_of<'a>(
    heights: &IndexMap<Name, Option<usize>>,
    entries: &'a [Entry],
    name: &Name,
) -> Option<&'a Entry>
    ensures { option_copied result ≡ item_at (height_at heights.now name.now) entries.now }
{
    match height_of(heights, name) {
        Some(i) => entries.get(i),
        None => None,
    }
}

fn height_of(heights: &IndexMap<Name, Option<usize>>, name: &Name) -> Option<usize>
    ensures { result ≡ height_at heights.now name.now }
{
    heights.get(name).copied().unwrap_or(None)
}

fn set_height(
    heights: &mut IndexMap<Name, Option<usize>>,
    name: Name,
    height: Option<usize>,
) -> Result<(), AllocError>
    ensures ok { OnOk result ((q : List ℕ) → height_at heights.new q
        ≡ cond (pointwise nat_eq name q) height (height_at heights.old q)) }
    ensures unchanged { OnErr result ((q : List ℕ) → height_at heights.new q
        ≡ height_at heights.old q) }
    ensures absent { OnErr result (height_at heights.old name ≡ None) }
{
    heights.insert(name, height)?;
    Ok(())
}
