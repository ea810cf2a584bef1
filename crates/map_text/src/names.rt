//! The names of things that entries number.

ghost use Rattle.std.specs.Prelude.{◌≡◌};
ghost use Rattle.c_tree.specs.Names as spec;

use patch_match::Tables;

/// The name of a number in one kind: 0 for functions, 1 for structs, 2 for globals, 3 for mutexes.
pub fn name_at<'a>(program: &'a Tables<'_>, kind: u8, i: u32) -> &'a [u8]
    ensures { result.now ≡ spec.name_at program.now kind i }
{
    match program.names(kind).get(i as usize) {
        Some(name) => name.as_bytes(),
        None => &[],
    }
}
