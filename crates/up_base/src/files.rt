//! Named files.

ghost use Rattle.std.specs.Prelude.{◌≡◌};
ghost use Rattle.up_base.specs.Outside.{Shelf, Reads, Writes};

use crate::refusal::{PutEnd, ReadEnd};
use std::alloc::Global;

/// Named files, and how often reading and writing has failed.
pub trait Files {
    /// What can be told of them.
    ghost shelf: { Self → Shelf };

    /// How many reads met a fault; it never falls.
    fn read_faults(&self) -> u64
        ensures { result ≡ (shelf self.now).reading.faults };

    /// How many writes met a fault; it never falls.
    fn write_faults(&self) -> u64
        ensures { result ≡ (shelf self.now).write_faults };

    /// The whole contents, at most `limit` bytes.
    ///
    /// # Errors
    /// `Failed` where the count of faults rose, `Missing` where there is no file of the name,
    /// `TooLong` where it holds more than `limit` bytes, and want of memory.
    fn read(&mut self, alloc: Global, name: &str, limit: u64) -> Result<Vec<u8>, ReadEnd>
        ensures { Reads (shelf self.old) (shelf self.new) name.now limit result };

    /// Gives the name these bytes.
    ///
    /// # Errors
    /// `Failed` where the count of faults rose, and want of memory; the name then holds what it
    /// held, or a prefix of the bytes.
    fn write(&mut self, name: &str, bytes: &[u8]) -> Result<(), PutEnd>
        ensures { Writes (shelf self.old) (shelf self.new) name.now bytes.now result };
}
