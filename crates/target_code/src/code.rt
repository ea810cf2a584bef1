//! The code of a function, and of a program.

ghost use Rattle.std.specs.Prelude.{◌≡◌};
ghost use Rattle.target_code.specs.Code.{IsCode};

use crate::instr::Instr;
use c_tree::{Row, Text};
use std::marker::Model;

/// The code of a function.
pub struct CodeFunction {
    /// How many parameters it has; they are its first slots.
    pub params: u32,
    /// How many slots it has.
    pub slots: u32,
    pub body: Row<Instr>,
    /// The position of each place's mark.
    pub marks: Row<u32>,
    /// Its calls by ascending place.
    pub calls: Row<CallSpot>,
}

/// The place of a call, and the positions of its `after` and of its rebuilding part.
#[derive(Clone, Copy)]
pub struct CallSpot {
    pub place: u32,
    pub after: u32,
    pub rebuild: u32,
}

impl Drop for CodeFunction {
    fn drop(self) {
        let CodeFunction {
            params: _,
            slots: _,
            body: _,
            marks: _,
            calls: _,
        } = self;
    }
}

/// The code of a program: its functions, and the texts that they print. It is the code of a formed
/// program, so its jumps, slots, functions and texts lie inside it.
pub struct Code {
    functions: Row<CodeFunction>,
    texts: Row<Text>,
}

impl Drop for Code {
    fn drop(self) {
        let Code {
            functions: _,
            texts: _,
        } = self;
    }
}

impl Model for Code {
    ghost use Rattle.target_code.specs.Code.{TargetCode, IsCode};

    ghost Value = { TargetCode };

    ghost view = { λ c. record { functions = c.functions; texts = c.texts } };

    ghost invariant = { λ c. ∥ IsCode (record { functions = c.functions; texts = c.texts }) ∥₁ };
}

impl Code {
    /// The code with these functions and texts.
    pub fn of(functions: Row<CodeFunction>, texts: Row<Text>) -> Code
        requires { IsCode (record { functions = functions; texts = texts }) }
        ensures { result ≡ record { functions = functions; texts = texts } }
    {
        Code { functions, texts }
    }

    /// The functions, by their numbers. The code is that of a formed program.
    pub fn functions(&self) -> &Row<CodeFunction>
        ensures value { result.now ≡ self.now.functions }
        ensures code { ∥ IsCode self.now ∥₁ }
    {
        &self.functions
    }

    /// The texts that are printed, by their numbers.
    pub fn texts(&self) -> &Row<Text>
        ensures { result.now ≡ self.now.texts }
    {
        &self.texts
    }
}
