//! The numbers of a function's places by kind.

ghost use Rattle.std.specs.Prelude.{◌≡◌, ◌≤◌, length, IfOk};
ghost use Rattle.c_tree.specs.Points as points;
ghost use Rattle.map_entries.specs.Numbers as spec;

use c_tree::{Place, PlaceKind, Row};
use std::alloc::{AllocError, Global};

/// The numbers of the places that mappings can name, by kind and in ascending order.
pub struct Numbers {
    pub entries: Row<u32>,
    pub loops: Row<u32>,
    pub calls: Row<u32>,
    pub blocks: Row<u32>,
}

impl Drop for Numbers {
    fn drop(self) {
        let Numbers {
            entries: _,
            loops: _,
            calls: _,
            blocks: _,
        } = self;
    }
}

/// The numbers of the places of one kind.
fn of_kind(alloc: Global, kind: PlaceKind, places: &[Place]) -> Result<Row<u32>, AllocError>
    requires { length places.now ≤ 10000 }
    ensures { IfOk result (λ row. row ≡ points.of_kind kind places.now) }
{
    let mut numbers = Vec::new(alloc);
    'places: for n in 0..places.len() {
        if places[n].act.kind() == kind {
            numbers.push(n as u32)?;
        }
    }
    Ok(Row::from_vec(numbers))
}

/// The numbers of a function's places.
pub fn numbers_of(alloc: Global, places: &[Place]) -> Result<Numbers, AllocError>
    requires { length places.now ≤ 10000 }
    ensures { IfOk result (λ n. n ≡ spec.numbers_of places.now) }
{
    Ok(Numbers {
        entries: of_kind(alloc, PlaceKind::Entry, places)?,
        loops: of_kind(alloc, PlaceKind::LoopEnd, places)?,
        calls: of_kind(alloc, PlaceKind::Call, places)?,
        blocks: of_kind(alloc, PlaceKind::Block, places)?,
    })
}

/// The `k`-th of some numbers, from 1.
pub fn kth(numbers: &[u32], k: u32) -> Option<u32>
    ensures { result ≡ points.kth numbers.now k }
{
    if k == 0 {
        return None;
    }
    numbers.get(k as usize - 1).copied()
}
