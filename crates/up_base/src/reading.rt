//! What the reads so far came to, in numbers.

ghost use Rattle.std.specs.Prelude.{◌≡◌, ◌≤◌};
ghost use Rattle.up_base.specs.Reading.{counted, none_yet};

use crate::refusal::ReadEnd;

/// Counts of reads; each stands still at its type's end. Callers can't ask for them, so that no
/// call can tell files that show their contents from those that don't.
#[derive(Clone, Copy)]
pub struct Reading {
    /// How many reads were asked for.
    pub reads: u64,
    /// How many of them met a fault.
    pub faults: u64,
    /// How many found no file of the name.
    pub missed: u64,
    /// How many found a file with more bytes than were asked for.
    pub overran: u64,
    /// The most bytes that a read was asked for.
    pub limit: u64,
}

impl Reading {
    /// The counts before the first read.
    pub fn none() -> Reading
        ensures { result ≡ none_yet }
    {
        Reading {
            reads: 0,
            faults: 0,
            missed: 0,
            overran: 0,
            limit: 0,
        }
    }

    /// Counts a read of at most `limit` bytes that came to this.
    pub fn count(&mut self, limit: u64, came: &Result<Vec<u8>, ReadEnd>)
        ensures counted { self.new ≡ counted limit came.now self.old }
        ensures later { self.old.faults ≤ self.new.faults }
    {
        self.reads = self.reads.saturating_add(1);
        self.limit = self.limit.max(limit);
        match came {
            Ok(_) => {}
            Err(ReadEnd::Failed) => self.faults = self.faults.saturating_add(1),
            Err(ReadEnd::Missing) => self.missed = self.missed.saturating_add(1),
            Err(ReadEnd::TooLong) => self.overran = self.overran.saturating_add(1),
            Err(ReadEnd::Memory(_)) => {}
        }
    }
}
