//! The first fault so far.

ghost use Rattle.std.specs.Prelude.{◌≡◌, not, [], ◌∷◌, OnOk};
ghost use Rattle.c_tree.specs.Fault as spec;
ghost use Rattle.c_tree.specs.Typing.{asked};
ghost use Rattle.c_check.specs.Words.{noted};

use c_tree::{CheckCause, Fault, LimitKind, Name, Ty};
use std::alloc::AllocError;

fn rank_of(cause: &CheckCause) -> u32
    ensures { result ≡ spec.rank_of cause.now }
{
    match cause {
        CheckCause::Unknown(_) => 1,
        CheckCause::Twice(_) => 2,
        CheckCause::BadType => 3,
        CheckCause::BadCall => 4,
        CheckCause::NoMain => 5,
        CheckCause::BadMain => 6,
        CheckCause::NotInLoop => 7,
        CheckCause::BadStart => 8,
        CheckCause::BadInit => 9,
        CheckCause::ReturnValue => 10,
        CheckCause::Limit(kind) => match kind {
            LimitKind::Functions => 11,
            LimitKind::Locals => 12,
            LimitKind::ArrayLength => 13,
            LimitKind::GlobalWords => 14,
            LimitKind::Places => 15,
            LimitKind::Slots => 16,
        },
    }
}

fn is_before(a: &Fault, b: &Fault) -> bool
    ensures { result ≡ spec.is_before a.now b.now }
{
    a.at < b.at || a.at == b.at && a.rank < b.rank
}

#[tactic(auto, unfolding(crate::specs::Words::noted))]
fn add(first: &mut Option<Fault>, fault: Fault)
    ensures { first.new ≡ noted first.old (fault ∷ []) }
{
    let is_first = match first {
        None => true,
        Some(found) => is_before(&fault, found),
    };
    if is_first {
        *first = Some(fault);
    }
}

/// Notes a fault of this cause.
pub fn note(first: &mut Option<Fault>, at: u32, cause: CheckCause)
    ensures { first.new ≡ noted first.old (spec.fault at cause) }
{
    let rank = rank_of(&cause);
    add(first, Fault { at, rank, cause });
}

/// Notes a fault unless a test passes.
#[tactic(auto, unfolding(crate::specs::Words::noted))]
pub fn note_unless(first: &mut Option<Fault>, passes: bool, at: u32, cause: CheckCause)
    ensures { first.new ≡ noted first.old (spec.unless passes (spec.fault at cause)) }
{
    if !passes {
        note(first, at, cause);
    }
}

/// Notes that a name is unknown, unless it is known.
#[tactic(auto, unfolding(crate::specs::Words::noted))]
pub fn note_known(
    first: &mut Option<Fault>,
    is_known: bool,
    at: u32,
    name: &Name,
) -> Result<(), AllocError>
    ensures { OnOk result (first.new ≡ noted first.old
        (spec.unless is_known (spec.fault at (CheckCause.Unknown name.now)))) }
{
    if !is_known {
        note(first, at, CheckCause::Unknown(name.clone()?));
    }
    Ok(())
}

/// Notes that a struct is unknown, unless it is known.
#[tactic(auto, unfolding(crate::specs::Words::noted))]
pub fn note_known_struct(
    first: &mut Option<Fault>,
    is_known: bool,
    at: u32,
    name: &Name,
) -> Result<(), AllocError>
    ensures { OnOk result (first.new ≡ noted first.old
        (spec.unless is_known (spec.unknown_struct at name.now))) }
{
    if !is_known {
        let cause = CheckCause::Unknown(name.clone()?);
        add(first, Fault { at, rank: 0, cause });
    }
    Ok(())
}

/// Notes that a name is declared a second time, where it is.
#[tactic(auto, unfolding(crate::specs::Words::noted))]
pub fn note_twice(
    first: &mut Option<Fault>,
    is_second: bool,
    at: u32,
    name: &Name,
) -> Result<(), AllocError>
    ensures { OnOk result (first.new ≡ noted first.old
        (spec.unless (not is_second) (spec.fault at (CheckCause.Twice name.now)))) }
{
    if is_second {
        note(first, at, CheckCause::Twice(name.clone()?));
    }
    Ok(())
}

/// Notes where a value of a type that passes a test is asked, and is not there.
#[tactic(auto, unfolding(crate::specs::Words::noted))]
pub fn ask(first: &mut Option<Fault>, passes: bool, at: u32, ty: &Option<Ty>)
    ensures { first.new ≡ noted first.old (asked passes at ty.now) }
{
    match ty {
        None => {}
        Some(Ty::Void) => note(first, at, CheckCause::BadCall),
        Some(_) => note_unless(first, passes, at, CheckCause::BadType),
    }
}
