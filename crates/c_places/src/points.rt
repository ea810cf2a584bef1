//! The text that lists the points of a program: where it may be updated, and where callers wait.

ghost use Rattle.std.specs.Prelude.{◌≡◌, ◌≤◌, ◌<◌, ◌+◌, ◌++◌, ◌∷◌, [], length, IfOk, OnOk, map, codes, Some};
ghost use Rattle.std.specs.Fmt.{decimal};
ghost use Rattle.c_tree.specs.Layout as layout;
ghost use Rattle.c_tree.specs.Points as spec;

use crate::tally::Tally;
use c_tree::{Lifted, Name, Place, PlaceKind, Places, Text};
use itoa::Buffer;
use std::alloc::{AllocError, Global};

fn write_number(n: u32, out: &mut Vec<u8>) -> Result<(), AllocError>
    ensures { OnOk result (out.new.items ≡ out.old.items ++ decimal n) }
{
    let mut buffer = Buffer::new();
    out.extend_from_slice(buffer.format(n).as_bytes())?;
    Ok(())
}

/// Writes the line of an entry.
fn write_entry(function: &Name, n: u32, out: &mut Vec<u8>) -> Result<(), AllocError>
    ensures { OnOk result (out.new.items
        ≡ out.old.items ++ spec.line function.now n (Some (codes "entry"))) }
{
    out.extend_from_slice(function.as_bytes())?;
    out.extend_from_slice(b" entry ")?;
    write_number(n, out)?;
    out.extend_from_slice(b"\n")?;
    Ok(())
}

/// Writes the line of the `k`-th point of a kind.
fn write_counted(
    function: &Name,
    word: &[u8],
    k: u32,
    n: u32,
    out: &mut Vec<u8>,
) -> Result<(), AllocError>
    ensures { OnOk result (out.new.items
        ≡ out.old.items ++ spec.line function.now n (Some (word.now ++ decimal k))) }
{
    out.extend_from_slice(function.as_bytes())?;
    out.extend_from_slice(b" ")?;
    out.extend_from_slice(word)?;
    write_number(k, out)?;
    out.extend_from_slice(b" ")?;
    write_number(n, out)?;
    out.extend_from_slice(b"\n")?;
    Ok(())
}

/// Writes the line of a place, where it has one.
fn write_line(
    function: &Name,
    kind: PlaceKind,
    k: u32,
    n: u32,
    out: &mut Vec<u8>,
) -> Result<(), AllocError>
    ensures { OnOk result (out.new.items
        ≡ out.old.items ++ spec.line function.now n (spec.point kind k)) }
{
    match kind {
        PlaceKind::Entry => write_entry(function, n, out),
        PlaceKind::LoopEnd => write_counted(function, b"loop ", k, n, out),
        PlaceKind::Call => write_counted(function, b"call ", k, n, out),
        PlaceKind::Block => write_counted(function, b"block ", k, n, out),
        PlaceKind::Plain => Ok(()),
    }
}

/// Writes the lines of a function's points.
fn write_lines(function: &Name, row: &[Place], out: &mut Vec<u8>) -> Result<(), AllocError>
    requires { length row.now ≤ 10000 }
    ensures { OnOk result (out.new.items ≡ out.old.items ++ spec.lines_of function.now row.now) }
{
    let mut tally = Tally::new();
    'places: for n in 0..row.len() {
        let kind = row[n].act.kind();
        let k = tally.number(kind);
        write_line(function, kind, k, n as u32, out)?;
    }
    Ok(())
}

/// The text that lists the points of a program: a line `FUNCTION POINT PLACE` for each entry,
/// loop's end, call and block, functions in source order and places ascending. A point is `entry`,
/// or `loop`, `call` or `block` with its number among those of its kind in the function, from 1.
pub fn points_text(alloc: Global, program: &Lifted, places: &Places) -> Result<Text, AllocError>
    requires { places.now.functions ≡ map layout.places program.now.functions }
    ensures { IfOk result (λ t. t ≡ spec.points program.now) }
{
    let rows = places.functions.as_slice();
    let functions = program.functions.as_slice();
    let mut out = Vec::new(alloc);
    'functions: for f in 0..functions.len() {
        write_lines(&functions[f].name, rows[f].as_slice(), &mut out)?;
    }
    Ok(Text::from_vec(out))
}
