//! A sink over a writer of the machine. It tells nothing of what it took.

ghost use Rattle.std.specs.Prelude.{◌≤◌, ◌<◌, None, IfSome, length};

use crate::refusal::PutEnd;
use crate::sink::Sink;
use std::io::{ErrorKind, Write};

/// Writes the first bytes, at least one of them where there is one. A write that a signal
/// interrupts has taken nothing, and is tried again.
fn write_some<W: Write>(writer: &mut W, bytes: &[u8]) -> Option<usize>
    ensures { IfSome result (λ k. (k ≤ length bytes.now) × (0 < length bytes.now → 0 < k)) }
{
    'tries: for _ in 0..u64::MAX {
        match writer.write(bytes) {
            Ok(count) => {
                if count > 0 || bytes.is_empty() {
                    return Some(count);
                }
                return None;
            }
            Err(e) => {
                if e.kind() != ErrorKind::Interrupted {
                    return None;
                }
            }
        }
    }
    None
}

/// A sink over a writer.
#[derive(Drop)]
pub struct HostSink<W: Write> {
    writer: W,
    faults: u64,
}

impl<W: Write> HostSink<W> {
    pub fn new(writer: W) -> HostSink<W> {
        HostSink { writer, faults: 0 }
    }
}

impl<W: Write> Sink for HostSink<W> {
    ghost sunk = { λ s. record { taken = None; faults = s.faults } };

    fn faults(&self) -> u64 {
        self.faults
    }

    fn put(&mut self, bytes: &[u8]) -> Result<usize, PutEnd> {
        if let Some(count) = write_some(&mut self.writer, bytes) {
            return Ok(count);
        }
        self.faults = self.faults.saturating_add(1);
        Err(PutEnd::Failed)
    }
}
