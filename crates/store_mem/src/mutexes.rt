//! Who holds the mutexes.

ghost use Rattle.std.specs.Prelude.{◌≡◌, None, slice_index_or, slice_set};

use c_tree::Row;

/// The thread that holds a mutex.
pub fn holder(mutexes: &[Option<u32>], mutex: u32) -> Option<u32>
    ensures { result ≡ slice_index_or mutexes.now mutex None }
{
    match mutexes.get(mutex as usize) {
        Some(holder) => *holder,
        None => None,
    }
}

/// Sets which thread holds a mutex; none frees it. Nothing changes where it isn't there.
pub fn set_holder(mutexes: &mut Row<Option<u32>>, mutex: u32, holder: Option<u32>)
    ensures { mutexes.new ≡ slice_set mutexes.old mutex holder }
{
    if (mutex as usize) < mutexes.len() {
        mutexes.set(mutex as usize, holder);
    }
}
