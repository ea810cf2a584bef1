//! What the machine found.

use c_grammar::Value;
use c_tree::ReadCause;

/// What the machine found.
#[derive(Drop)]
pub enum Found {
    /// The tokens are a text, with these values, the newest last.
    Done(Vec<Value>),
    /// The token with this number is the first fault.
    Fault(usize, ReadCause),
    /// The tokens break off.
    CutShort,
}
