//! Tests of types.

ghost use Rattle.std.specs.Prelude.{◌≡◌};
ghost use Rattle.c_tree.specs.Types as spec;
ghost use Rattle.c_tree.specs.Typing as typing;
ghost use Rattle.c_check.specs.Tests as tests;

use c_tree::{BinOp, Ty, UnOp};

/// What is asked of a value's type.
#[derive(Clone, Copy, PartialEq, Eq)]
pub enum Test {
    Int,
    Pointer,
    Testable,
    Thread,
    /// A pointer or a literal 0.
    Freeable,
    Anything,
}

/// The type of an operator's operand, if it can be told, and whether the operand is a literal 0.
#[derive(Drop)]
pub struct Operand {
    pub ty: Option<Ty>,
    pub is_zero: bool,
}

/// What a prefix operator asks of its operand.
pub fn test_of(op: UnOp) -> Test
    ensures { result ≡ tests.test_of op }
{
    match op {
        UnOp::Not => Test::Testable,
        UnOp::Neg | UnOp::Flip => Test::Int,
    }
}

fn passes(test: Test, is_zero: bool, ty: &Ty) -> bool
    ensures { result ≡ tests.passes test is_zero ty.now }
{
    match test {
        Test::Int => ty.is_int(),
        Test::Pointer => ty.is_pointer(),
        Test::Testable => is_testable(ty),
        Test::Thread => matches!(ty, Ty::Thread),
        Test::Freeable => is_zero || ty.is_pointer(),
        Test::Anything => true,
    }
}

/// Whether a type passes, as one does that cannot be told.
pub fn may_pass(test: Test, is_zero: bool, ty: &Option<Ty>) -> bool
    ensures { result ≡ spec.may_be (tests.passes test is_zero) ty.now }
{
    match ty {
        None | Some(Ty::Void) => true,
        Some(ty) => passes(test, is_zero, ty),
    }
}

/// Whether a value of the type may stand where another is asked.
pub fn may_fit(asked: &Ty, is_zero: bool, ty: &Option<Ty>) -> bool
    ensures { result ≡ spec.may_be (typing.test_for (Some asked.now) is_zero) ty.now }
{
    match ty {
        None | Some(Ty::Void) => true,
        Some(ty) => fits(asked, ty, is_zero),
    }
}

fn is_testable(ty: &Ty) -> bool
    ensures { result ≡ spec.is_testable ty.now }
{
    ty.is_int() || ty.is_pointer()
}

fn may_be_int(ty: &Option<Ty>) -> bool
    ensures { result ≡ spec.may_be spec.is_int ty.now }
{
    match ty {
        None | Some(Ty::Void) => true,
        Some(ty) => ty.is_int(),
    }
}

fn may_be_testable(ty: &Option<Ty>) -> bool
    ensures { result ≡ spec.may_be spec.is_testable ty.now }
{
    match ty {
        None | Some(Ty::Void) => true,
        Some(ty) => is_testable(ty),
    }
}

fn fits(asked: &Ty, given: &Ty, is_zero: bool) -> bool
    ensures { result ≡ spec.fits asked.now given.now is_zero }
{
    asked.is_same(given)
        || asked.is_pointer()
            && (is_zero || given.is_pointer() && (asked.is_any_pointer() || given.is_any_pointer()))
}

fn are_alike(a: &Ty, zero_a: bool, b: &Ty, zero_b: bool) -> bool
    ensures { result ≡ spec.are_alike a.now zero_a b.now zero_b }
{
    a.is_int() && b.is_int()
        || a.is_pointer() && (zero_b || fits(a, b, false))
        || b.is_pointer() && zero_a
}

fn are_comparable(a: &Option<Ty>, zero_a: bool, b: &Option<Ty>, zero_b: bool) -> bool
    ensures { result ≡ spec.are_comparable (record { type = a.now; zero = zero_a })
        (record { type = b.now; zero = zero_b }) }
{
    match (a, b) {
        (Some(Ty::Void), _) => may_be_testable(b),
        (Some(s), Some(Ty::Void)) => is_testable(s),
        (Some(s), Some(t)) => are_alike(s, zero_a, t, zero_b),
        (Some(s), None) => is_testable(s),
        (None, _) => may_be_testable(b),
    }
}

/// Whether an operator takes these operands.
pub fn takes(op: BinOp, a: &Operand, b: &Operand) -> bool
    ensures { result ≡ spec.takes op (tests.side_of a.now) (tests.side_of b.now) }
{
    match op {
        BinOp::Eq | BinOp::Ne => are_comparable(&a.ty, a.is_zero, &b.ty, b.is_zero),
        BinOp::And | BinOp::Or => may_be_testable(&a.ty) && may_be_testable(&b.ty),
        _ => may_be_int(&a.ty) && may_be_int(&b.ty),
    }
}
