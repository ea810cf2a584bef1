//! What is left of a program's input.

ghost use Rattle.std.specs.Prelude.{◌≡◌, ◌++◌, [], option_to_list, IfOk, IfNone};

use crate::text::Text;
use std::alloc::AllocError;
use std::marker::Model;

/// An input, of which some bytes were read. Contracts see the bytes that are left.
#[derive(Drop)]
pub struct Input {
    bytes: Vec<u8>,
    /// How many bytes were read.
    read: usize,
}

impl Model for Input {
    ghost use Rattle.std.specs.Prelude.{List, ℕ, drop};

    ghost Value = { List ℕ };

    ghost view = { λ input. drop input.read input.bytes.items };
}

impl Input {
    /// The whole of a text, of which nothing was read.
    pub fn of(text: &Text) -> Result<Input, AllocError>
        ensures { IfOk result (λ input. input ≡ text.now) }
    {
        let bytes = text.clone()?.into_vec();
        Ok(Input { bytes, read: 0 })
    }

    /// The bytes that are left.
    pub fn as_bytes(&self) -> &[u8]
        ensures { result.now ≡ self.now }
    {
        self.bytes.get(self.read..).unwrap_or(&[])
    }

    /// Reads the next byte, in constant time.
    pub fn next_byte(&mut self) -> Option<u8>
        ensures rest { self.old ≡ option_to_list result ++ self.new }
        ensures none { IfNone result (self.old ≡ []) }
    {
        let byte = *self.bytes.get(self.read)?;
        self.read += 1;
        Some(byte)
    }
}

impl PartialEq for Input {
    ghost use Rattle.std.specs.Prelude.{nat_eq};
    ghost use Rattle.std.specs.Cmp.{partial_equiv_from_equiv};
    ghost use Rattle.std.specs.Cmp.Lexicographic.{pointwise, nat_list_eq_equiv};

    ghost eq = { pointwise nat_eq };

    ghost laws = { partial_equiv_from_equiv nat_list_eq_equiv };

    fn eq(&self, other: &Self) -> bool {
        self.as_bytes() == other.as_bytes()
    }
}

impl Eq for Input {
    ghost use Rattle.std.specs.Cmp.Lexicographic.{nat_list_eq_equiv};

    ghost laws = { nat_list_eq_equiv };
}
