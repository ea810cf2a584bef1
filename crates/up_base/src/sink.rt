//! Sinks of bytes.

ghost use Rattle.std.specs.Prelude.{◌≡◌};
ghost use Rattle.up_base.specs.Outside.{Sunk, Puts, PutsAll};

use crate::refusal::PutEnd;

/// What takes bytes, and how often it has failed.
pub trait Sink {
    /// What can be told of it.
    ghost sunk: { Self → Sunk };

    fn faults(&self) -> u64
        ensures { result ≡ (sunk self.now).faults };

    /// Takes the first bytes, at least one of them where there is one.
    fn put(&mut self, bytes: &[u8]) -> Result<usize, PutEnd>
        ensures { Puts (sunk self.old) (sunk self.new) bytes.now result };
}

/// Puts all bytes.
pub fn put_all<S: Sink>(sink: &mut S, bytes: &[u8]) -> Result<(), PutEnd>
    ensures { PutsAll (S.sunk sink.old) (S.sunk sink.new) bytes.now result }
{
    let mut done: usize = 0;
    'puts: while done < bytes.len() {
        done += sink.put(&bytes[done..])?;
    }
    Ok(())
}
