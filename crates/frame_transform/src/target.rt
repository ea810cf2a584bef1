//! A program and the numbered places of its functions.

ghost use Rattle.std.specs.Prelude.{◌≡◌, IfOk};

use c_tree::{Act, Lifted, Place, Places, Row};
use std::alloc::{AllocError, Global};

/// A program and the numbered places of its functions.
#[derive(Drop)]
pub struct Target {
    pub program: Lifted,
    /// The places of the program's functions.
    pub places: Places,
}

fn copied_act(alloc: Global, act: &Act) -> Result<Act, AllocError>
    ensures { IfOk result (λ copy. copy ≡ act.now) }
{
    Ok(match act {
        Act::Enter => Act::Enter,
        Act::Do(s) => Act::Do(s.copy(alloc)?),
        Act::Test(e) => Act::Test(e.copy(alloc)?),
        Act::EndLoop => Act::EndLoop,
        Act::Finish => Act::Finish,
    })
}

fn copied_place(alloc: Global, place: &Place) -> Result<Place, AllocError>
    ensures { IfOk result (λ copy. copy ≡ place.now) }
{
    Ok(Place {
        act: copied_act(alloc, &place.act)?,
        follow: place.follow,
    })
}

fn copied_row(alloc: Global, row: &[Place]) -> Result<Row<Place>, AllocError>
    ensures { IfOk result (λ copy. copy ≡ row.now) }
{
    let mut copy = Vec::new(alloc);
    for place in row {
        copy.push(copied_place(alloc, place)?)?;
    }
    Ok(Row::from_vec(copy))
}

fn copied_places(alloc: Global, places: &Places) -> Result<Places, AllocError>
    ensures { IfOk result (λ copy. copy.functions ≡ places.now.functions) }
{
    let rows = places.functions.as_slice();
    let mut functions = Vec::new(alloc);
    for row in rows {
        functions.push(copied_row(alloc, row.as_slice())?)?;
    }
    Ok(Places {
        functions: Row::from_vec(functions),
    })
}

/// The transformed program: the program, and the places of its functions.
pub fn transform(alloc: Global, program: &Lifted, places: &Places) -> Result<Target, AllocError>
    ensures program { IfOk result (λ target. target.program ≡ program.now) }
    ensures places { IfOk result (λ target. target.places.functions ≡ places.now.functions) }
{
    let program = program.copy()?;
    let places = copied_places(alloc, places)?;
    Ok(Target { program, places })
}
