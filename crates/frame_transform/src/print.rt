//! The text of a transformed program.

ghost use Rattle.std.specs.Prelude.{◌≡◌, ◌<◌, ◌^◌, ◌++◌, length, map, IfOk, OnOk};
ghost use Rattle.std.specs.List.{flat_map};
ghost use Rattle.c_tree.specs.Layout as layout;
ghost use Rattle.frame_transform.specs.TargetText as spec;

use crate::declarations::append_declarations;
use crate::expressions::Inside;
use crate::function::append_function;
use crate::target::Target;
use c_tree::{Lifted, Places, Text};
use std::alloc::{AllocError, Global};

fn append_functions(
    alloc: Global,
    program: &Lifted,
    places: &Places,
    out: &mut Vec<u8>,
) -> Result<(), AllocError>
    requires places { places.now.functions ≡ map layout.places program.now.functions }
    requires few { length program.now.functions < 2 ^ 32 }
    ensures { OnOk result (out.new.items ≡ out.old.items
        ++ flat_map (spec.function_text program.now) program.now.functions) }
{
    let rows = places.functions.as_slice();
    let functions = program.functions.as_slice();
    'functions: for f in 0..functions.len() {
        let inside = Inside {
            alloc,
            program,
            function: f as u32,
        };
        append_function(&inside, &functions[f], rows[f].as_slice(), out)?;
    }
    Ok(())
}

/// The text of a transformed program: what it declares, then its functions, each with the marks at
/// which its frame is saved and the lines that rebuild the frames inside its calls.
pub fn print_target(alloc: Global, target: &Target) -> Result<Text, AllocError>
    requires places { target.now.places.functions
        ≡ map layout.places target.now.program.functions }
    requires few { length target.now.program.functions < 2 ^ 32 }
    ensures { IfOk result (λ text. text ≡ spec.target_text target.now.program) }
{
    let mut out = Vec::new(alloc);
    append_declarations(&target.program, &mut out)?;
    append_functions(alloc, &target.program, &target.places, &mut out)?;
    Ok(Text::from_vec(out))
}
