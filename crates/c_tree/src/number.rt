//! Numbers as the trees hold them.

ghost use Rattle.std.specs.Prelude.{◌≡◌, IfOk};
ghost use Rattle.c_tree.specs.Names as spec;

use std::alloc::AllocError;

/// A place in a list as a number of 32 bits. A place past 4,294,967,295 counts as want of memory.
pub fn narrowed(n: usize) -> Result<u32, AllocError>
    ensures { IfOk result (λ m. m ≡ n) }
{
    match u32::try_from(n) {
        Ok(n) => Ok(n),
        Err(_) => Err(AllocError),
    }
}

/// Whether a number is there and is this one.
pub fn is_number(number: Option<u32>, n: u32) -> bool
    ensures { result ≡ spec.is_number number n }
{
    match number {
        Some(m) => m == n,
        None => false,
    }
}
