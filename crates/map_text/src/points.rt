//! The points of a program's places, each found at once.

ghost use Rattle.std.specs.Prelude.{◌≡◌, ◌≤◌, ◌++◌, length, map, IfOk, OnOk};
ghost use Rattle.std.specs.Fmt.{decimal};
ghost use Rattle.c_places.specs.Limit.{KeepsLimit};
ghost use Rattle.c_tree.specs.Canonical.{point_text};
ghost use Rattle.c_tree.specs.Layout as layout;
ghost use Rattle.c_tree.specs.Points.{point_of};
ghost use Rattle.c_tree.specs.Step.{function_of};
ghost use Rattle.map_text.specs.Points as spec;

use c_places::{Tally, places};
use c_tree::{Lifted, Place, PlaceKind, Places, Pt, Row};
use itoa::Buffer;
use std::alloc::{AllocError, Global};
use std::marker::Model;

/// A program, and the point of each place of each function. Contracts see the program.
pub struct Points<'a> {
    program: &'a Lifted,
    rows: Row<Row<Pt>>,
}

impl Drop for Points<'_> {
    fn drop(self) {
        let Points {
            program: _,
            rows: _,
        } = self;
    }
}

impl<'a> Model for Points<'a> {
    ghost use Rattle.std.specs.Prelude.{◌≡◌};
    ghost use Rattle.std.specs.Coded.{codes};
    ghost use Rattle.c_tree.specs.declared.lifted.Lifted.{Lifted};
    ghost use Rattle.c_tree.specs.contracts.lifted.Lifted as lifted;
    ghost use Rattle.map_text.specs.Points.{rows_of};

    ghost Value = { Lifted };

    ghost coded = { Prim.hlevel (codes, lifted.the_row.coded) };

    ghost view = { λ p. p.program.now };

    ghost invariant = { λ p. p.rows ≡ rows_of p.program.now };
}

impl<'a> Points<'a> {
    /// The points of a program.
    pub fn of(alloc: Global, program: &'a Lifted) -> Result<Points<'a>, AllocError>
        requires { KeepsLimit program.now }
        ensures { IfOk result (λ p. p ≡ program.now) }
    {
        let places = places(alloc, program)?;
        let rows = rows_of(alloc, &places)?;
        Ok(Points { program, rows })
    }

    /// The program itself.
    pub fn program(&self) -> &'a Lifted
        ensures { result.now ≡ self.now }
    {
        self.program
    }

    /// The point of a place, as far as texts tell it. A function that is not there has an entry,
    /// and a place that is not there is no point.
    fn point(&self, function: u32, place: u32) -> Pt
        ensures { point_text result ≡
            point_text (point_of (function_of self.now function) place) }
    {
        match self.rows.as_slice().get(function as usize) {
            Some(row) => point_in(row.as_slice(), place),
            None => point_in(&[ENTRY], place),
        }
    }

    /// Appends the text of a place's point.
    pub fn append(&self, function: u32, place: u32, out: &mut Vec<u8>) -> Result<(), AllocError>
        ensures { OnOk result (out.new.items ≡ out.old.items
            ++ point_text (point_of (function_of self.now function) place)) }
    {
        append_point(self.point(function, place), out)
    }
}

/// The point of a function's entry.
const ENTRY: Pt = Pt {
    kind: PlaceKind::Entry,
    number: 1,
};

/// What stands for the point of a place that is not there.
const NOWHERE: Pt = Pt {
    kind: PlaceKind::Plain,
    number: 1,
};

fn point_in(row: &[Pt], place: u32) -> Pt
    ensures { result ≡ spec.point_in row.now place }
{
    match row.get(place as usize) {
        Some(point) => *point,
        None => NOWHERE,
    }
}

fn points_of(alloc: Global, row: &[Place]) -> Result<Row<Pt>, AllocError>
    requires { length row.now ≤ 10000 }
    ensures { IfOk result (λ points. points ≡ spec.points_of row.now) }
{
    let mut tally = Tally::new();
    let mut points = Vec::new(alloc);
    'places: for n in 0..row.len() {
        let kind = row[n].act.kind();
        let number = tally.number(kind);
        points.push(Pt { kind, number })?;
    }
    Ok(Row::from_vec(points))
}

fn rows_of(alloc: Global, places: &Places) -> Result<Row<Row<Pt>>, AllocError>
    ensures { IfOk result (λ rows. rows ≡ map spec.points_of places.now.functions) }
{
    let functions = places.functions.as_slice();
    let mut rows = Vec::new(alloc);
    'functions: for f in 0..functions.len() {
        rows.push(points_of(alloc, functions[f].as_slice())?)?;
    }
    Ok(Row::from_vec(rows))
}

fn append_counted(word: &[u8], number: u32, out: &mut Vec<u8>) -> Result<(), AllocError>
    ensures { OnOk result (out.new.items ≡ out.old.items ++ (word.now ++ decimal number)) }
{
    let mut buffer = Buffer::new();
    out.extend_from_slice(word)?;
    out.extend_from_slice(buffer.format(number).as_bytes())?;
    Ok(())
}

fn append_point(point: Pt, out: &mut Vec<u8>) -> Result<(), AllocError>
    ensures { OnOk result (out.new.items ≡ out.old.items ++ point_text point) }
{
    match point.kind {
        PlaceKind::Entry => out.extend_from_slice(b"entry"),
        PlaceKind::LoopEnd => append_counted(b"loop ", point.number, out),
        PlaceKind::Call => append_counted(b"call ", point.number, out),
        PlaceKind::Block => append_counted(b"block ", point.number, out),
        PlaceKind::Plain => Ok(()),
    }
}
