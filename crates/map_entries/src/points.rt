//! The points of a program's functions.

ghost use Rattle.std.specs.Prelude.{◌≡◌, [], ◌∷◌, map, IfOk};
ghost use Rattle.c_places.specs.Limit.{KeepsLimit};
ghost use Rattle.c_tree.specs.Points as spec;
ghost use Rattle.c_tree.specs.Step.{function_of, no_function};
ghost use Rattle.c_tree.specs.declared.place.PlaceKind.TheVariants as kind;
ghost use Rattle.map_entries.specs.Numbers.{numbers_of};

use crate::numbers::{Numbers, kth, numbers_of};
use c_places::places;
use c_tree::{Lifted, Place, PlaceKind, Places, Pt};
use std::alloc::{AllocError, Global};
use std::marker::Model;

/// A program with the places of its functions, where points are found. Contracts see the program.
pub struct PointTable<'a> {
    program: &'a Lifted,
    places: Places,
    /// The numbers of each function's places by kind.
    numbers: Vec<Numbers>,
}

impl Drop for PointTable<'_> {
    fn drop(self) {
        let PointTable {
            program: _,
            places: _,
            numbers: _,
        } = self;
    }
}

impl<'a> Model for PointTable<'a> {
    ghost use Rattle.std.specs.Prelude.{◌≡◌, map};
    ghost use Rattle.std.specs.Coded.{codes};
    ghost use Rattle.c_tree.specs.Layout as layout;
    ghost use Rattle.c_tree.specs.declared.lifted.Lifted.{Lifted};
    ghost use Rattle.c_tree.specs.contracts.lifted.Lifted as lifted;
    ghost use Rattle.map_entries.specs.Numbers.{numbers_of};

    ghost Value = { Lifted };

    ghost coded = { Prim.hlevel (codes, lifted.the_row.coded) };

    ghost view = { λ t. t.program.now };

    ghost invariant = { λ t.
        (t.places.functions ≡ map layout.places t.program.now.functions)
        × (t.numbers.items ≡ map (λ f. numbers_of (layout.places f)) t.program.now.functions) };
}

impl<'a> PointTable<'a> {
    /// The points of a program whose functions keep the limit of places.
    pub fn of(alloc: Global, program: &'a Lifted) -> Result<PointTable<'a>, AllocError>
        requires { KeepsLimit program.now }
        ensures { IfOk result (λ t. t ≡ program.now) }
    {
        let places = places(alloc, program)?;
        let numbers = all_numbers(alloc, &places)?;
        Ok(PointTable {
            program,
            places,
            numbers,
        })
    }

    /// The place of a function that a point names.
    pub fn place_of(&self, f: u32, point: Pt) -> Option<u32>
        ensures { result ≡ spec.place_of (function_of self.now f) point }
    {
        let numbers = match self.numbers.get(f as usize) {
            Some(numbers) => numbers,
            None => return place_of_none(point),
        };
        match point.kind {
            PlaceKind::Entry => kth(numbers.entries.as_slice(), point.number),
            PlaceKind::LoopEnd => kth(numbers.loops.as_slice(), point.number),
            PlaceKind::Call => kth(numbers.calls.as_slice(), point.number),
            PlaceKind::Block => kth(numbers.blocks.as_slice(), point.number),
            // No mapping names a plain place.
            PlaceKind::Plain => self.places.find(f, point.kind, point.number),
        }
    }

    /// Whether a call stands at a place of a function.
    pub fn is_call(&self, f: u32, n: u32) -> bool
        ensures { result ≡ spec.is_kind kind.Call (spec.kind_in (function_of self.now f) n) }
    {
        self.callee(f, n).is_some()
    }

    /// The function that is called at a place of a function.
    pub fn callee(&self, f: u32, n: u32) -> Option<u32>
        ensures { result ≡ spec.callee_at (function_of self.now f) n }
    {
        match self.places.functions.as_slice().get(f as usize) {
            Some(row) => callee_at(row.as_slice(), n),
            None => None,
        }
    }
}

/// The function that is called at one of some places.
fn callee_at(places: &[Place], n: u32) -> Option<u32>
    ensures { result ≡ spec.callee_in (spec.nth places.now n).act }
{
    match places.get(n as usize) {
        Some(place) => place.act.callee(),
        None => None,
    }
}

/// The place of a point in a function that is not there, which has an entry and a return alone.
fn place_of_none(point: Pt) -> Option<u32>
    ensures { result ≡ spec.place_of no_function point }
{
    match point.kind {
        PlaceKind::Entry => first(0, point.number),
        PlaceKind::Plain => first(1, point.number),
        PlaceKind::LoopEnd => None,
        PlaceKind::Call => None,
        PlaceKind::Block => None,
    }
}

/// The `k`-th of one number, from 1.
fn first(number: u32, k: u32) -> Option<u32>
    ensures { result ≡ spec.kth (number ∷ []) k }
{
    if k == 1 { Some(number) } else { None }
}

/// The numbers of each function's places.
fn all_numbers(alloc: Global, places: &Places) -> Result<Vec<Numbers>, AllocError>
    ensures { IfOk result (λ v. v.items ≡ map numbers_of places.now.functions) }
{
    let rows = places.functions.as_slice();
    let mut numbers = Vec::new(alloc);
    for f in 0..rows.len() {
        numbers.push(crate::numbers::numbers_of(alloc, rows[f].as_slice())?)?;
    }
    Ok(numbers)
}
