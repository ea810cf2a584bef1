//! Which functions a thread can start, and which matches keep that.

ghost use Rattle.std.specs.Prelude.{◌≡◌};
ghost use Rattle.c_tree.specs.StartForm as start;
ghost use Rattle.c_tree.specs.Step.{function_of};
ghost use Rattle.c_tree.specs.Suits as spec;

use c_tree::{LFunction, Lifted, Slot, is_number};

/// The parameters of a function, which are its first slots.
#[tactic(auto, using(std::proofs::lemmas::List::take_all))]
fn parameters(f: &LFunction) -> &[Slot]
    ensures { result.now ≡ start.parameters_of f.now }
{
    let slots = f.slots.as_slice();
    let count = f.params as usize;
    if count < slots.len() {
        &slots[..count]
    } else {
        slots
    }
}

/// Whether some parameters are one `void *`.
fn takes_one_pointer(parameters: &[Slot]) -> bool
    ensures { result ≡ start.takes_one_pointer parameters.now }
{
    match parameters {
        [only] => only.ty.is_any_pointer(),
        _ => false,
    }
}

/// Whether a function has the form `void *f(void *)`.
fn has_start_form(f: &LFunction) -> bool
    ensures { result ≡ start.is_start f.now }
{
    f.ret.is_any_pointer() && takes_one_pointer(parameters(f))
}

/// Whether a thread can start the function of a number.
pub fn is_start(program: &Lifted, f: usize) -> bool
    ensures { result ≡ start.is_start (function_of program.now f) }
{
    match program.functions.as_slice().get(f) {
        Some(f) => has_start_form(f),
        None => false,
    }
}

fn loses_start(old: &Lifted, new: &Lifted, f: u32, g: Option<u32>) -> bool
    ensures { result ≡ spec.loses_start old.now new.now f g }
{
    match g {
        Some(g) => is_start(old, f as usize) && !is_start(new, g as usize),
        None => false,
    }
}

/// Whether exactly one side is `main`, or a function that can be started goes to one that cannot.
pub fn start_differs(old: &Lifted, new: &Lifted, f: u32, g: Option<u32>) -> bool
    ensures { result ≡ spec.start_differs old.now new.now f g }
{
    let to_main = is_number(g, new.main);
    let one_is_main = if f == old.main { !to_main } else { to_main };
    one_is_main || loses_start(old, new, f, g)
}
