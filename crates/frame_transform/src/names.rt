//! The names of what a program numbers; none of what is not there.

ghost use Rattle.std.specs.Prelude.{◌≡◌};
ghost use Rattle.c_tree.specs.Names as spec;

use c_tree::Lifted;

/// The name of a struct.
#[tactic(auto, using(crate::proofs::NameLemmas::struct_name))]
pub fn struct_name(program: &Lifted, i: u32) -> &[u8]
    ensures { result.now ≡ spec.name_at program.now 1 i }
{
    match program.structs.as_slice().get(i as usize) {
        Some(owner) => owner.name.as_bytes(),
        None => &[],
    }
}

/// The name of a mutex.
pub fn mutex_name(program: &Lifted, i: u32) -> &[u8]
    ensures { result.now ≡ spec.name_at program.now 3 i }
{
    match program.mutexes.as_slice().get(i as usize) {
        Some(name) => name.as_bytes(),
        None => &[],
    }
}
