//! A sink in memory that never fails.

ghost use Rattle.std.specs.Prelude.{◌≡◌, [], Some};

use crate::refusal::PutEnd;
use crate::sink::Sink;
use std::alloc::Global;

/// A sink in memory that never fails.
#[derive(Drop)]
pub struct QuietSink {
    bytes: Vec<u8>,
}

impl QuietSink {
    ghost use Rattle.up_base.specs.SinkOf.{quiet_bytes_of};

    pub fn new(alloc: Global) -> QuietSink
        ensures { quiet_bytes_of result ≡ Some [] }
    {
        QuietSink {
            bytes: Vec::new(alloc),
        }
    }

    pub fn bytes(&self) -> &[u8]
        ensures { Some result.now ≡ quiet_bytes_of self.now }
    {
        self.bytes.as_slice()
    }
}

impl Sink for QuietSink {
    ghost sunk = { λ s. record { taken = Some s.bytes.items; faults = 0 } };

    fn faults(&self) -> u64 {
        0
    }

    fn put(&mut self, bytes: &[u8]) -> Result<usize, PutEnd> {
        match self.bytes.extend_from_slice(bytes) {
            Ok(()) => Ok(bytes.len()),
            Err(e) => Err(PutEnd::Memory(e)),
        }
    }
}
