//! Globals.

ghost use Rattle.std.specs.Prelude.{◌≡◌, ◌+◌, ◌≤◌, min, List, ◌∷◌, Option, Some, IfOk, OnOk};
ghost use Rattle.std.specs.Option.{option_copied};
ghost use Rattle.c_tree.specs.Scope as scope;
ghost use Rattle.c_tree.specs.Typing as typing;
ghost use Rattle.c_tree.specs.declared.program.Define.{Define};
ghost use Rattle.c_check.specs.Words.{noted};
ghost use Rattle.c_check.specs.Files.{size_of, lengthed, initialised, of_global, of_globals};

use crate::note::{note, note_unless};
use crate::structs::note_type;
use c_tree::{
    At, CheckCause, Const, Count, Define, Fault, GlobalDecl, LimitKind, Meaning, Name, Ty,
};
use name_index::{File, length_of_array};
use std::alloc::AllocError;

/// The longest array, in words.
const MAX_LENGTH: u64 = 65536;

/// The most words that all globals may take.
const MAX_WORDS: u64 = 1_000_000;

/// Notes the faults of the globals of a file.
pub fn globals(
    globals: &[GlobalDecl],
    file: &File<'_>,
    first: &mut Option<Fault>,
) -> Result<(), AllocError>
    ensures { OnOk result (first.new ≡ noted first.old (of_globals file.now 0 globals.now)) }
{
    let mut before = 0;
    for g in globals {
        global(g, before, file, first)?;
        before = with_size(before, size(&g.count, file));
    }
    Ok(())
}

/// So many words and more, but for those far past the limit.
fn with_size(before: u64, size: u32) -> u64
    requires { before ≤ 1000001 }
    ensures { result ≡ min (before + size) 1000001 }
{
    (before + u64::from(size)).min(MAX_WORDS + 1)
}

#[tactic(auto, using(crate::proofs::FileLemmas::global_rules))]
fn global(
    global: &GlobalDecl,
    before: u64,
    file: &File<'_>,
    first: &mut Option<Fault>,
) -> Result<(), AllocError>
    requires { before ≤ 1000001 }
    ensures { OnOk result (first.new ≡ noted first.old (of_global file.now before global.now)) }
{
    let at = global.name.at;
    note_type(at, &global.ty, file, first)?;
    note_length(&global.count, file, first)?;
    let words = u64::from(size(&global.count, file));
    let is_within = 0 < words && words <= MAX_LENGTH;
    note_unless(
        first,
        is_within,
        at,
        CheckCause::Limit(LimitKind::ArrayLength),
    );
    note_initialiser(&global.ty, &global.init, file, first)?;
    let is_room = before + words <= MAX_WORDS;
    note_unless(
        first,
        is_room,
        at,
        CheckCause::Limit(LimitKind::GlobalWords),
    );
    Ok(())
}

/// The words that a global takes. An array whose length is unknown takes one.
#[tactic(auto, unfolding(crate::specs::Files::size_of))]
fn size(count: &Option<At<Count>>, file: &File<'_>) -> u32
    ensures { result ≡ size_of file.now count.now }
{
    match count {
        None => 1,
        Some(count) => length_of_array(file, &count.it),
    }
}

/// Notes a name that is no define's, where only such a name may stand.
#[tactic(auto, unfolding(crate::specs::Words::noted))]
fn note_constant(
    at: u32,
    name: &Name,
    what: Meaning,
    first: &mut Option<Fault>,
) -> Result<(), AllocError>
    ensures { OnOk result (first.new ≡ noted first.old (typing.constant_faults at name.now what)) }
{
    match what {
        Meaning::Constant(_) => {}
        Meaning::Nothing => note(first, at, CheckCause::Unknown(name.clone()?)),
        _ => note(first, at, CheckCause::BadInit),
    }
    Ok(())
}

#[tactic(auto, using(crate::proofs::FileLemmas::global_rules), unfolding(crate::specs::Files::lengthed))]
fn note_length(
    count: &Option<At<Count>>,
    file: &File<'_>,
    first: &mut Option<Fault>,
) -> Result<(), AllocError>
    ensures { OnOk result (first.new ≡ noted first.old (lengthed file.now count.now)) }
{
    match count {
        None => Ok(()),
        Some(count) => match &count.it {
            Count::Number(_) => Ok(()),
            Count::Named(name) => note_constant(count.at, name, file.meaning(name), first),
        },
    }
}

fn number_fits(ty: &Ty, minus: bool, n: i32) -> bool
    ensures { result ≡ typing.number_fits ty.now minus n }
{
    ty.is_int() || ty.is_pointer() && !minus && n == 0
}

/// Notes a define whose number does not fit a type.
#[tactic(auto, unfolding(crate::specs::Words::noted))]
fn note_define(ty: &Ty, at: u32, define: Option<&Define>, first: &mut Option<Fault>)
    ensures { (d : Option Define) → option_copied define.entry ≡ d → first.new
        ≡ noted first.old (typing.define_faults ty.now at d) }
{
    match define {
        None => {}
        Some(define) => {
            let fits = number_fits(ty, define.minus, define.value);
            note_unless(first, fits, at, CheckCause::BadInit);
        }
    }
}

#[tactic(auto, using(crate::proofs::FileLemmas::global_rules), unfolding(crate::specs::Files::initialised))]
fn note_initialiser(
    ty: &Ty,
    init: &Option<At<Const>>,
    file: &File<'_>,
    first: &mut Option<Fault>,
) -> Result<(), AllocError>
    ensures { OnOk result (first.new ≡ noted first.old (initialised file.now ty.now init.now)) }
{
    match init {
        None => Ok(()),
        Some(init) => note_const(ty, init.at, &init.it, file, first),
    }
}

#[tactic(auto, using(crate::proofs::NoteLemmas::noting))]
fn note_const(
    ty: &Ty,
    at: u32,
    init: &Const,
    file: &File<'_>,
    first: &mut Option<Fault>,
) -> Result<(), AllocError>
    ensures { OnOk result (first.new ≡ noted first.old
        (typing.const_faults (scope.file_scope file.now) ty.now at init.now)) }
{
    match init {
        Const::Number(minus, n) => {
            note_unless(first, number_fits(ty, *minus, *n), at, CheckCause::BadInit);
            Ok(())
        }
        Const::Named(name) => {
            let what = file.meaning(name);
            note_constant(at, name, what, first)?;
            note_define(ty, at, file.define(what), first);
            Ok(())
        }
        Const::Null => {
            note_unless(first, ty.is_pointer(), at, CheckCause::BadInit);
            Ok(())
        }
    }
}
