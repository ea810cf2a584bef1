//! Which calls of a fake fail.

ghost use Rattle.std.specs.Prelude.{◌↔◌, IsTrue, Contains};

/// Whether a call is one of those that fail.
pub fn is_due(failing: &[u64], call: u64) -> bool
    ensures { IsTrue result ↔ Contains failing.now call }
{
    failing.contains(&call)
}
