//! Files in memory, which fail at stated calls.

ghost use Rattle.std.specs.Prelude.{◌≡◌, ◌≤◌, Some, None, IfOk, OnOk, OnErr, IsErrOf, MatchOption, length};
ghost use Rattle.up_base.specs.Memory.{lookup};
ghost use Rattle.up_base.specs.Outside.{Holds, HoldsMore, Lacks, written};

use crate::failing::is_due;
use crate::files::Files;
use crate::reading::Reading;
use crate::refusal::{PutEnd, ReadEnd};
use std::alloc::{AllocError, Global};

#[derive(Drop)]
struct Entry {
    name: Vec<u8>,
    bytes: Vec<u8>,
}

/// Files in memory. The calls in `failing`, counted from 0, fail.
#[derive(Drop)]
pub struct MemFiles {
    failing: Vec<u64>,
    calls: u64,
    reading: Reading,
    write_faults: u64,
    // The newest first.
    entries: Vec<Entry>,
}

fn find<'a>(entries: &'a [Entry], name: &[u8]) -> Option<&'a [u8]>
    ensures { MatchOption result (lookup entries.now name.now ≡ None)
        (λ b. lookup entries.now name.now ≡ Some b.now) }
{
    'entries: for e in entries {
        if e.name.as_slice() == name {
            return Some(e.bytes.as_slice());
        }
    }
    None
}

/// A copy of what the name holds, at most `limit` bytes.
fn copied(alloc: Global, entries: &[Entry], name: &[u8], limit: u64) -> Result<Vec<u8>, ReadEnd>
    ensures whole { IfOk result
        (λ v. (length v.items ≤ limit) × Holds (Some (lookup entries.now)) name.now v.items) }
    ensures long { IsErrOf result ReadEnd.TooLong →
        HoldsMore (Some (lookup entries.now)) name.now limit }
    ensures missing { IsErrOf result ReadEnd.Missing → Lacks (Some (lookup entries.now)) name.now }
{
    match find(entries, name) {
        None => Err(ReadEnd::Missing),
        Some(bytes) => {
            if bytes.len() as u64 > limit {
                return Err(ReadEnd::TooLong);
            }
            match bytes.to_vec(alloc) {
                Ok(copy) => Ok(copy),
                Err(e) => Err(ReadEnd::Memory(e)),
            }
        }
    }
}

fn put_first(
    entries: &mut Vec<Entry>,
    alloc: Global,
    name: &[u8],
    bytes: &[u8],
) -> Result<(), AllocError>
    ensures ok { OnOk result
        (Some (lookup entries.new.items) ≡
        written (Some (lookup entries.old.items)) name.now bytes.now) }
    ensures err { OnErr result (entries.new.items ≡ entries.old.items) }
{
    let entry = Entry {
        name: name.to_vec(alloc)?,
        bytes: bytes.to_vec(alloc)?,
    };
    entries.insert(0, entry)?;
    Ok(())
}

impl MemFiles {
    ghost use Rattle.up_base.specs.FilesOf.{contents_of};

    pub fn new(failing: Vec<u64>) -> MemFiles
        ensures { contents_of result ≡ Some (λ _. None) }
    {
        let alloc = *failing.allocator();
        MemFiles {
            failing,
            calls: 0,
            reading: Reading::none(),
            write_faults: 0,
            entries: Vec::new(alloc),
        }
    }

    /// Lets a name hold these bytes. This is no call that fails.
    pub fn hold(&mut self, name: &str, bytes: &[u8]) -> Result<(), AllocError>
        ensures ok { OnOk result
            (contents_of self.new ≡ written (contents_of self.old) name.now bytes.now) }
        ensures err { OnErr result (contents_of self.new ≡ contents_of self.old) }
    {
        let alloc = *self.entries.allocator();
        put_first(&mut self.entries, alloc, name.as_bytes(), bytes)
    }
}

impl Files for MemFiles {
    ghost shelf = { λ m. record {
      held = Some (lookup m.entries.items);
      reading = m.reading;
      write_faults = m.write_faults;
    } };

    fn read_faults(&self) -> u64 {
        self.reading.faults
    }

    fn write_faults(&self) -> u64 {
        self.write_faults
    }

    fn read(&mut self, alloc: Global, name: &str, limit: u64) -> Result<Vec<u8>, ReadEnd> {
        let result = if is_due(&self.failing, self.calls) {
            Err(ReadEnd::Failed)
        } else {
            copied(alloc, &self.entries, name.as_bytes(), limit)
        };
        self.calls = self.calls.saturating_add(1);
        self.reading.count(limit, &result);
        result
    }

    fn write(&mut self, name: &str, bytes: &[u8]) -> Result<(), PutEnd> {
        let fails = is_due(&self.failing, self.calls);
        self.calls = self.calls.saturating_add(1);
        if fails {
            self.write_faults = self.write_faults.saturating_add(1);
            return Err(PutEnd::Failed);
        }
        let alloc = *self.entries.allocator();
        match put_first(&mut self.entries, alloc, name.as_bytes(), bytes) {
            Ok(()) => Ok(()),
            Err(e) => Err(PutEnd::Memory(e)),
        }
    }
}
