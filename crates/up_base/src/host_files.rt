//! The files of the machine. They tell no contents.

ghost use Rattle.std.specs.Prelude.{◌≤◌, None, IfOk, length};

use crate::files::Files;
use crate::reading::Reading;
use crate::refusal::{PutEnd, ReadEnd};
use std::alloc::Global;
use std::fs;
use std::io::{ErrorKind, Read, Write};

/// The files of a runtime.
#[derive(Drop)]
pub struct HostFiles<'a, R: std::rt::Files> {
    rt: &'a R,
    reading: Reading,
    write_faults: u64,
}

impl<'a, R: std::rt::Files> HostFiles<'a, R> {
    /// The files of this runtime, of which none was read or written yet.
    pub fn new(rt: &'a R) -> HostFiles<'a, R> {
        HostFiles {
            rt,
            reading: Reading::none(),
            write_faults: 0,
        }
    }
}

/// All that a reader has left, at most `limit` bytes.
fn read_within<S: Read>(alloc: Global, source: &mut S, limit: u64) -> Result<Vec<u8>, ReadEnd>
    ensures { IfOk result (λ v. length v.items ≤ limit) }
{
    let mut bytes = Vec::new(alloc);
    let mut piece = [0u8; 4096];
    'reads: for _ in 0..u64::MAX {
        match source.read(&mut piece) {
            Err(e) => {
                if e.kind() != ErrorKind::Interrupted {
                    return Err(ReadEnd::Failed);
                }
            }
            Ok(count) => {
                if count == 0 {
                    return Ok(bytes);
                }
                if count as u64 > limit - bytes.len() as u64 {
                    return Err(ReadEnd::TooLong);
                }
                if let Err(e) = bytes.extend_from_slice(&piece[..count]) {
                    return Err(ReadEnd::Memory(e));
                }
            }
        }
    }
    Err(ReadEnd::Failed)
}

/// Writes all the bytes.
fn write_whole<S: Write>(to: &mut S, bytes: &[u8]) -> Result<(), PutEnd> {
    match to.write_all(bytes) {
        Ok(()) => Ok(()),
        Err(_) => Err(PutEnd::Failed),
    }
}

fn open_within<R: std::rt::Files>(
    rt: &R,
    alloc: Global,
    name: &str,
    limit: u64,
) -> Result<Vec<u8>, ReadEnd>
    ensures { IfOk result (λ v. length v.items ≤ limit) }
{
    match fs::open(rt, name) {
        Ok(mut file) => read_within(alloc, &mut file, limit),
        Err(e) => {
            if e.kind() == ErrorKind::NotFound {
                Err(ReadEnd::Missing)
            } else {
                Err(ReadEnd::Failed)
            }
        }
    }
}

fn create_whole<R: std::rt::Files>(rt: &R, name: &str, bytes: &[u8]) -> Result<(), PutEnd> {
    match fs::create(rt, name) {
        Ok(mut file) => write_whole(&mut file, bytes),
        Err(_) => Err(PutEnd::Failed),
    }
}

impl<R: std::rt::Files> Files for HostFiles<'_, R> {
    ghost shelf = { λ f. record
        { held = None; reading = f.reading; write_faults = f.write_faults } };

    fn read_faults(&self) -> u64 {
        self.reading.faults
    }

    fn write_faults(&self) -> u64 {
        self.write_faults
    }

    fn read(&mut self, alloc: Global, name: &str, limit: u64) -> Result<Vec<u8>, ReadEnd> {
        let result = open_within(self.rt, alloc, name, limit);
        self.reading.count(limit, &result);
        result
    }

    fn write(&mut self, name: &str, bytes: &[u8]) -> Result<(), PutEnd> {
        let result = create_whole(self.rt, name, bytes);
        if result.is_err() {
            self.write_faults = self.write_faults.saturating_add(1);
        }
        result
    }
}
