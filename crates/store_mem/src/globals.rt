//! The values of globals.

ghost use Rattle.std.specs.Prelude.{◌≡◌, [], IsOk, MatchResult, slice_index_or, slice_set};
ghost use Rattle.c_tree.specs.Step.{index};
ghost use Rattle.c_tree.specs.Value.{element};

use c_tree::value::{array, element};
use c_tree::{Row, Trap};

/// Reads a value of a global: the first of a scalar, any of an array.
pub fn read(globals: &[Row<i32>], global: u32, at: i32) -> Result<i32, Trap>
    ensures { result ≡ element (slice_index_or globals.now global []) at }
{
    element(array(globals, global), at)
}

fn put(row: &mut Row<i32>, at: i32, value: i32) -> Result<(), Trap>
    ensures { MatchResult result
        (λ _. IsOk (element row.old at) × (row.new ≡ slice_set row.old (index at) value))
        (λ cause. (element row.old at ≡ Err cause) × (row.new ≡ row.old)) }
{
    element(row.as_slice(), at)?;
    row.set(at as usize, value);
    Ok(())
}

/// Writes a value of a global, where it can be read.
pub fn write(globals: &mut Row<Row<i32>>, global: u32, at: i32, value: i32) -> Result<(), Trap>
    ensures { let row = slice_index_or globals.old global [] in MatchResult result
        (λ _. IsOk (element row at)
        × (globals.new ≡ slice_set globals.old global (slice_set row (index at) value)))
        (λ cause. (element row at ≡ Err cause) × (globals.new ≡ globals.old)) }
{
    if global as usize >= globals.len() {
        return Err(Trap::Bounds);
    }
    let row = globals.get_mut(global as usize);
    put(row, at, value)
}

fn set_in(row: &mut Row<i32>, value: i32)
    ensures { row.new ≡ slice_set row.old 0 value }
{
    if row.len() > 0 {
        row.set(0, value);
    }
}

/// Sets the first value of a global. Nothing changes where there is none.
pub fn set_first(globals: &mut Row<Row<i32>>, global: u32, value: i32)
    ensures { globals.new
        ≡ slice_set globals.old global (slice_set (slice_index_or globals.old global []) 0 value) }
{
    if (global as usize) < globals.len() {
        let row = globals.get_mut(global as usize);
        set_in(row, value);
    }
}
