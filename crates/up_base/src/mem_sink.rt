//! A sink in memory, which fails at stated calls and past its room.

ghost use Rattle.std.specs.Prelude.{◌≡◌, ◌≤◌, [], Some};

use crate::failing::is_due;
use crate::refusal::PutEnd;
use crate::sink::Sink;

/// A sink in memory. The calls in `failing`, counted from 0, fail, and so do those past its room.
#[derive(Drop)]
pub struct MemSink {
    failing: Vec<u64>,
    calls: u64,
    room: Option<u64>,
    faults: u64,
    bytes: Vec<u8>,
}

impl MemSink {
    ghost use Rattle.up_base.specs.SinkOf.{bytes_of};

    pub fn new(failing: Vec<u64>, room: Option<u64>) -> MemSink
        ensures { bytes_of result ≡ Some [] }
    {
        let alloc = *failing.allocator();
        MemSink {
            failing,
            calls: 0,
            room,
            faults: 0,
            bytes: Vec::new(alloc),
        }
    }

    pub fn bytes(&self) -> &[u8]
        ensures { Some result.now ≡ bytes_of self.now }
    {
        self.bytes.as_slice()
    }
}

/// How many of `count` bytes fit behind `taken` ones.
fn fitting(room: Option<u64>, taken: usize, count: usize) -> usize
    ensures { result ≤ count }
{
    match room {
        None => count,
        Some(room) => count.min((room as usize).saturating_sub(taken)),
    }
}

impl Sink for MemSink {
    ghost sunk = { λ s. record { taken = Some s.bytes.items; faults = s.faults } };

    fn faults(&self) -> u64 {
        self.faults
    }

    fn put(&mut self, bytes: &[u8]) -> Result<usize, PutEnd> {
        let fails = is_due(&self.failing, self.calls);
        self.calls = self.calls.saturating_add(1);
        let count = fitting(self.room, self.bytes.len(), bytes.len());
        if fails || (count == 0 && !bytes.is_empty()) {
            self.faults = self.faults.saturating_add(1);
            return Err(PutEnd::Failed);
        }
        match self.bytes.extend_from_slice(&bytes[..count]) {
            Ok(()) => Ok(count),
            Err(e) => Err(PutEnd::Memory(e)),
        }
    }
}
